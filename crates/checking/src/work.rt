// Checking after the tests of its inputs: z modulo q, c from c', t_1..t_k from the public record, and the hash.
ghost use Rattle.std.specs.Prelude.{◌≡◌};
ghost use Rattle.answers.specs.Answers.{number_of};
ghost use Rattle.answers.specs.Tests.{Answered};
ghost use Rattle.ring.specs.Lists.{integers, residues};
ghost use Rattle.records.specs.Public.{t_of, seed_a_of};
ghost use Rattle.signatures.specs.Signature.{z_of};
ghost use Rattle.highs.specs.Highs.{Held};
ghost use Rattle.checking.specs.Asks.{ForResidues, ForResiduesIn, ForG, ForHighs, ForHighsIn, ForEachT, Tested, ForWork};
ghost use Rattle.checking.specs.Check.{public_g, work_tests};
ghost use Rattle.checking.specs.Steps.{highs_upto, highs_of_record};

use crate::hash::{add_t, begin, judge};
use answers::Refusal;
use highs::Highs;
use sets::{DIGEST_BYTES, Numbers, SEED_BYTES, Set, SetI};

// zr = z of a tested signature record modulo q. z takes z itself.
fn z_residues_in(set: Numbers, signature: &[u8], z: &mut [i32], zr: &mut [u32])
    requires { ForResiduesIn set signature.now z.old zr.old }
    ensures { zr.new ≡ residues set.q set.n (integers (z_of set signature.now)) }
{
    signatures::unpack_z(set, signature, z, zr);
    ring::sums::residues_of(z, set.q, zr);
}

// The same with a place of its own for z.
fn z_residues_of<const N: usize>(set: Set, signature: &[u8], zr: &mut [u32])
    requires n_is { set.numbers.n ≡ N }
    requires for_residues { ForResidues set.numbers signature.now zr.old }
    ensures { zr.new ≡ residues set.numbers.q set.numbers.n (integers (z_of set.numbers signature.now)) }
{
    let mut z = [0i32; N];
    z_residues_in(set.numbers, signature, &mut z, zr);
}

// The same in every set that there is.
#[tactic(auto, using(sets::specs::Known::n_i, sets::specs::Known::no_other))]
fn z_residues(set: Set, signature: &[u8], zr: &mut [u32])
    requires { ForResidues set.numbers signature.now zr.old }
    ensures { zr.new ≡ residues set.numbers.q set.numbers.n (integers (z_of set.numbers signature.now)) }
{
    match set.numbers.digit {
        1 => z_residues_of::<{ SetI::N }>(set, signature, zr),
        _ => unreachable!(),
    }
}

// g of a public record: the digest of its packed t_1..t_k.
fn public_g(set: Numbers, public: &[u8], g: &mut [u8; DIGEST_BYTES])
    requires { ForG set public.now }
    ensures { g.new ≡ public_g set public.now }
{
    let end = records::public::seed_start(set);
    sampling::digests::key_digest(set, &public[2..end], g);
}

// The high parts of w_1..w_k, where each t_i is read from its own stretch of the public record. t takes one t_i at a time.
fn each_t(
    set: Set,
    public: &[u8],
    zr: &[u32],
    positions: &[u16],
    signs: &[i8],
    t: &mut [u32],
) -> Highs
    requires { ForEachT set.numbers public.now zr.now positions.now signs.now t.old }
    ensures { Held set.numbers (highs_upto set.numbers (seed_a_of set.numbers public.now) (t_of set.numbers public.now) zr.now positions.now signs.now set.numbers.k) result }
{
    let from = records::public::seed_start(set.numbers);
    let mut walk = begin(set.numbers, &public[from..]);
    for i in 0..set.numbers.k {
        records::public::unpack_t(set.numbers, public, i, t);
        walk = add_t(set, walk, t, zr, positions, signs);
    }
    walk.highs
}

// The same for c = Enc(c'). positions and signs take c.
fn highs_of_in(
    set: Set,
    public: &[u8],
    zr: &[u32],
    c: &[u8],
    positions: &mut [u16],
    signs: &mut [i8],
    t: &mut [u32],
) -> Highs
    requires { ForHighsIn set.numbers public.now zr.now positions.old signs.old t.old }
    ensures { Held set.numbers (highs_of_record set.numbers public.now zr.now c.now) result }
{
    sampling::drawn::draw_enc(set.numbers, c, positions, signs);
    each_t(set, public, zr, positions, signs, t)
}

// The same. Makes the places for c.
fn highs_of(set: Set, public: &[u8], zr: &[u32], c: &[u8], t: &mut [u32]) -> Highs
    requires { ForHighs set.numbers public.now zr.now t.old }
    ensures { Held set.numbers (highs_of_record set.numbers public.now zr.now c.now) result }
{
    let h = set.numbers.h;
    let mut positions = [0u16; 256];
    let mut signs = [0i8; 256];
    highs_of_in(set, public, zr, c, &mut positions[..h], &mut signs[..h], t)
}

// The tests 10 and 11 of a signature, where the records' own tests have passed, for a message with this digest. zr takes z modulo q, t
// one t_i at a time.
fn check_hash_in(
    set: Set,
    public: &[u8],
    digest: &[u8; DIGEST_BYTES],
    signature: &[u8],
    zr: &mut [u32],
    t: &mut [u32],
) -> Result<(), Refusal>
    requires { ForWork set.numbers public.now signature.now zr.old t.old }
    ensures { Answered (work_tests set.numbers public.now digest.now signature.now) (number_of result) }
{
    let from = signatures::signature_bytes(set.numbers) - SEED_BYTES;
    let c = &signature[from..];
    z_residues(set, signature, zr);
    let highs = highs_of(set, public, zr, c, t);
    let mut g = [0u8; DIGEST_BYTES];
    public_g(set.numbers, public, &mut g);
    judge(set.numbers, highs, digest, &g, c)
}

// The same with scratch of its own.
fn check_hash_of<const N: usize>(
    set: Set,
    public: &[u8],
    digest: &[u8; DIGEST_BYTES],
    signature: &[u8],
) -> Result<(), Refusal>
    requires n_is { set.numbers.n ≡ N }
    requires tested { Tested set.numbers public.now signature.now }
    ensures { Answered (work_tests set.numbers public.now digest.now signature.now) (number_of result) }
{
    let mut zr = [0u32; N];
    let mut t = [0u32; N];
    check_hash_in(set, public, digest, signature, &mut zr, &mut t)
}

// The same in every set that there is.
#[tactic(auto, using(sets::specs::Known::n_i, sets::specs::Known::no_other))]
pub(crate) fn check_hash(
    set: Set,
    public: &[u8],
    digest: &[u8; DIGEST_BYTES],
    signature: &[u8],
) -> Result<(), Refusal>
    requires { Tested set.numbers public.now signature.now }
    ensures { Answered (work_tests set.numbers public.now digest.now signature.now) (number_of result) }
{
    match set.numbers.digit {
        1 => check_hash_of::<{ SetI::N }>(set, public, digest, signature),
        _ => unreachable!(),
    }
}
