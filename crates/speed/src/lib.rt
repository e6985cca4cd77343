// What the bench calls from C beside the face, in set I: the permutation, a_1..a_k of a seed, and one polynomial packed, unpacked and
// multiplied. An array crosses as a pointer to its first element, a slice as that and its length.
#![tactic(auto)]

ghost use Rattle.std.specs.Prelude.{◌≡◌};
ghost use Rattle.keccak.specs.Steps.{keccak_f};
ghost use Rattle.packing.specs.Digits.{unpacked};
ghost use Rattle.sets.specs.SetI.{set_i};
ghost use Rattle.sampling.specs.Streams.{all_a};
ghost use Rattle.records.specs.Public.{t_in_range};
ghost use Rattle.records.specs.Secret.{secret_seed_a};
ghost use Rattle.speed.specs.Promises.{PacksOne, multiplies, Multiplies};

use sets::{Parameters, SetI};

// bytes of a secret record, and of a packed polynomial
const SECRET_BYTES: usize = 5226;

const T_BYTES: usize = 3712;

// Keccak-f[1600] of 25 lanes, in their place.
#[unsafe(no_mangle)]
pub extern "C" fn speed_permute(lanes: &mut [u64; 25])
    ensures { lanes.new ≡ keccak_f lanes.old }
{
    *lanes = keccak::permute(*lanes);
}

// a_1..a_k of the record's seed_a, in a row.
#[unsafe(no_mangle)]
pub extern "C" fn speed_expand(secret: &[u8; SECRET_BYTES], a: &mut [u32; SetI::KN])
    ensures { a.new ≡ all_a set_i (secret_seed_a set_i secret.now) }
{
    attempts::row::draw_key(SetI::numbers(), secret, a);
}

// Whether every value is below q.
fn below_q(t: &[u32]) -> bool
    ensures { result ≡ t_in_range set_i t.now }
{
    records::public::t_in_range(SetI::numbers(), t)
}

// t packed. Nothing is done where a value is not below q.
#[unsafe(no_mangle)]
pub extern "C" fn speed_pack(t: &[u32; SetI::N], out: &mut [u8; T_BYTES])
    ensures { PacksOne t.now out.old out.new }
{
    if below_q(t) {
        packing::pack(t, SetI::T_BITS, out);
    }
}

// The t that the bytes hold.
#[unsafe(no_mangle)]
pub extern "C" fn speed_unpack(bytes: &[u8; T_BYTES], t: &mut [u32; SetI::N])
    ensures { t.new ≡ unpacked set_i.t_bits set_i.n bytes.now }
{
    packing::unpack(bytes, SetI::T_BITS, t);
}

// Whether both factors have the product's length and values below q.
fn multiplies(a: &[u32], b: &[u32], places: usize) -> bool
    ensures { result ≡ multiplies a.now b.now places }
{
    a.len() == places && b.len() == places && below_q(a) && below_q(b)
}

// a b modulo q. Nothing is done where a length or a value does not fit. The numbers come from the set, as the entries hand them on.
#[unsafe(no_mangle)]
pub extern "C" fn speed_multiply(a: &[u32], b: &[u32], out: &mut [u32])
    ensures { Multiplies a.now b.now out.old out.new }
{
    let set = SetI::numbers();
    if multiplies(a, b, out.len()) {
        ring::product::multiply(a, b, set.q, out);
    }
}
