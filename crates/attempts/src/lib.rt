// One attempt of Algorithm 2.
#![tactic(auto)]

mod commit;
mod respond;
pub mod row;

ghost use Rattle.std.specs.Prelude.{◌≡◌, ◌*◌};
ghost use Rattle.attempts.specs.Attempt.{key_of, attempt};
ghost use Rattle.attempts.specs.Promises.{Challenged, Concluded, Tries};
ghost use Rattle.attempts.specs.Asks.{Whole, Concludes, Places, Attempts};

use highs::Highs;
use sets::{DIGEST_BYTES, Numbers, SEED_BYTES, Set, SetI};

// What an attempt comes to.
#[derive(Clone, Copy, Debug, PartialEq, Eq)]
pub enum Tried {
    // every test passes: the signature record is written
    Passes,
    // a test does not pass
    Fails,
    // a high part does not fit a signed byte
    Overflows,
}

// c' of the high parts, G of the message and the record's g.
fn challenge(set: Numbers, highs: Highs, digest: &[u8], secret: &[u8], c: &mut [u8; SEED_BYTES])
    requires { Whole set secret.now }
    ensures { Challenged set highs digest.now secret.now c.new }
{
    let start = records::secret::g_start(set);
    let end = records::secret::secret_bytes(set);
    highs::hash(set, highs, digest, &secret[start..end], c);
}

// What follows once the high parts are absorbed and fit: where the tests pass, the signature record is written, and else it stays. z
// takes z, bits its bits.
fn conclude(
    set: Numbers,
    secret: &[u8],
    digest: &[u8; DIGEST_BYTES],
    highs: Highs,
    signature: &mut [u8],
    y: &mut [i32],
    bits: &mut [u32],
    v: &mut [u32],
    z: &mut [i32],
) -> Tried
    requires { Concludes set secret.now signature.old y.old bits.old v.old z.old }
    ensures { Concluded set highs digest.now secret.now y.old v.old signature.old signature.new result }
{
    let mut c = [0u8; SEED_BYTES];
    challenge(set, highs, digest, secret, &mut c);
    if respond::respond(set, secret, &c, y, v, z) {
        signatures::write_checked(set, z, &c, signature, bits);
        Tried::Passes
    } else {
        Tried::Fails
    }
}

// Attempt number `counter`: where it passes, the signature record is written, and else it stays. a holds a_1..a_k. What else is lent
// is scratch.
fn attempt_in(
    set: Set,
    secret: &[u8],
    a: &[u32],
    digest: &[u8; DIGEST_BYTES],
    rand: &[u8; SEED_BYTES],
    counter: u16,
    signature: &mut [u8],
    y: &mut [i32],
    yr: &mut [u32],
    v: &mut [u32],
    z: &mut [i32],
) -> Tried
    requires attempts { Attempts set.numbers secret.now a.now signature.old }
    requires places { Places set.numbers y.old yr.old v.old z.old }
    ensures { Tries set.numbers (attempt set.numbers (key_of set.numbers secret.now) digest.now rand.now counter) signature.old signature.new result }
{
    let highs = commit::commit(set, a, rand, counter, y, yr, v);
    let fit = highs.fit;
    if !fit {
        return Tried::Overflows;
    }
    conclude(set.numbers, secret, digest, highs, signature, y, yr, v, z)
}

// The same with scratch of its own.
fn attempt_of<const N: usize, const KN: usize>(
    set: Set,
    secret: &[u8],
    a: &[u32],
    digest: &[u8; DIGEST_BYTES],
    rand: &[u8; SEED_BYTES],
    counter: u16,
    signature: &mut [u8],
) -> Tried
    requires n_is { set.numbers.n ≡ N }
    requires kn_is { set.numbers.k * set.numbers.n ≡ KN }
    requires attempts { Attempts set.numbers secret.now a.now signature.old }
    ensures { Tries set.numbers (attempt set.numbers (key_of set.numbers secret.now) digest.now rand.now counter) signature.old signature.new result }
{
    let mut y = [0i32; N];
    let mut yr = [0u32; N];
    let mut v = [0u32; KN];
    let mut z = [0i32; N];
    attempt_in(
        set, secret, a, digest, rand, counter, signature, &mut y, &mut yr, &mut v, &mut z,
    )
}

// The same in every set that there is.
#[tactic(auto, using(sets::specs::Known::n_i, sets::specs::Known::kn_i, sets::specs::Known::no_other))]
pub fn attempt(
    set: Set,
    secret: &[u8],
    a: &[u32],
    digest: &[u8; DIGEST_BYTES],
    rand: &[u8; SEED_BYTES],
    counter: u16,
    signature: &mut [u8],
) -> Tried
    requires { Attempts set.numbers secret.now a.now signature.old }
    ensures { Tries set.numbers (attempt set.numbers (key_of set.numbers secret.now) digest.now rand.now counter) signature.old signature.new result }
{
    match set.numbers.digit {
        1 => attempt_of::<{ SetI::N }, { SetI::KN }>(
            set, secret, a, digest, rand, counter, signature,
        ),
        _ => unreachable!(),
    }
}
