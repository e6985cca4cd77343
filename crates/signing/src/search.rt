// The search for the smallest counter whose attempt passes.
ghost use Rattle.std.specs.Prelude.{◌≡◌, ◌*◌};
ghost use Rattle.answers.specs.Answers.{number_of};
ghost use Rattle.attempts.specs.Attempt.{key_of, attempt};
ghost use Rattle.signing.specs.Search.{search};
ghost use Rattle.signing.specs.Promises.{Gives, counter_of};
ghost use Rattle.signing.specs.Asks.{Searches, SearchesKey};

use answers::Refusal;
use attempts::Tried;
use sets::{DIGEST_BYTES, SEED_BYTES, Set, SetI};

// Tries the counters from 1 to the budget, one after another. a holds a_1..a_k.
fn search(
    set: Set,
    secret: &[u8],
    a: &[u32],
    digest: &[u8; DIGEST_BYTES],
    rand: &[u8; SEED_BYTES],
    budget: u32,
    signature: &mut [u8],
) -> Result<u16, Refusal>
    requires { Searches set.numbers secret.now a.now budget signature.old }
    ensures { Gives set.numbers 0 (search (attempt set.numbers (key_of set.numbers secret.now) digest.now rand.now) budget) signature.old signature.new (number_of result) (counter_of result) }
{
    // `as`, since std has no From for it: the check proves that nothing is lost.
    for counter in 1..budget as u16 + 1 {
        match attempts::attempt(set, secret, a, digest, rand, counter, signature) {
            Tried::Passes => return Ok(counter),
            Tried::Overflows => return Err(Refusal::High),
            Tried::Fails => {}
        }
    }
    Err(Refusal::None)
}

// The same with a_1..a_k drawn once, in a row of KN places.
fn search_of<const KN: usize>(
    set: Set,
    secret: &[u8],
    digest: &[u8; DIGEST_BYTES],
    rand: &[u8; SEED_BYTES],
    budget: u32,
    signature: &mut [u8],
) -> Result<u16, Refusal>
    requires kn_is { set.numbers.k * set.numbers.n ≡ KN }
    requires searches_key { SearchesKey set.numbers secret.now budget signature.old }
    ensures { Gives set.numbers 0 (search (attempt set.numbers (key_of set.numbers secret.now) digest.now rand.now) budget) signature.old signature.new (number_of result) (counter_of result) }
{
    let mut a = [0u32; KN];
    attempts::row::draw_key(set.numbers, secret, &mut a);
    search(set, secret, &a, digest, rand, budget, signature)
}

// The same in every set that there is.
#[tactic(auto, using(sets::specs::Known::kn_i, sets::specs::Known::no_other))]
pub(crate) fn search_key(
    set: Set,
    secret: &[u8],
    digest: &[u8; DIGEST_BYTES],
    rand: &[u8; SEED_BYTES],
    budget: u32,
    signature: &mut [u8],
) -> Result<u16, Refusal>
    requires { SearchesKey set.numbers secret.now budget signature.old }
    ensures { Gives set.numbers 0 (search (attempt set.numbers (key_of set.numbers secret.now) digest.now rand.now) budget) signature.old signature.new (number_of result) (counter_of result) }
{
    match set.numbers.digit {
        1 => search_of::<{ SetI::KN }>(set, secret, digest, rand, budget, signature),
        _ => unreachable!(),
    }
}
