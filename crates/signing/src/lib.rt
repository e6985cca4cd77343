// Signing, Algorithm 2: the tests of its inputs, the search for the smallest counter that passes, and the entries for set I. What comes back
// is the counter of the attempt that signed.
#![tactic(auto)]

mod inputs;
mod search;

ghost use Rattle.std.specs.Prelude.{◌++◌};
ghost use Rattle.answers.specs.Answers.{number_of};
ghost use Rattle.sets.specs.SetI.{set_i};
ghost use Rattle.sampling.specs.Streams.{roster_message};
ghost use Rattle.attempts.specs.Asks.{Whole};
ghost use Rattle.signing.specs.Sign.{sign_search};
ghost use Rattle.signing.specs.Promises.{Hashed, Gives, Signs, counter_of};
ghost use Rattle.signing.specs.Asks.{SearchesKey};

use answers::Refusal;
use search::search_key;
use sets::{DIGEST_BYTES, Numbers, SEED_BYTES, Set};

// G of a message in two pieces, and rand of the secret record's seed_y, r and that digest.
fn hash_message(
    set: Numbers,
    secret: &[u8],
    front: &[u8],
    rest: &[u8],
    r: &[u8],
    digest: &mut [u8; DIGEST_BYTES],
    rand: &mut [u8; SEED_BYTES],
)
    requires { Whole set secret.now }
    ensures { Hashed set secret.now (front.now ++ rest.now) r.now digest.new rand.new }
{
    let at = records::secret::seed_y_start(set);
    let end = records::secret::g_start(set);
    sampling::digests::joined_digest(set, front, rest, digest);
    sampling::digests::rand_of(set, &secret[at..end], r, digest, rand);
}

// Signs a message in two pieces, where every test passed.
fn sign_tested(
    set: Set,
    secret: &[u8],
    front: &[u8],
    rest: &[u8],
    r: &[u8],
    budget: u32,
    signature: &mut [u8],
) -> Result<u16, Refusal>
    requires { SearchesKey set.numbers secret.now budget signature.old }
    ensures { Gives set.numbers 0 (sign_search set.numbers secret.now (front.now ++ rest.now) r.now budget) signature.old signature.new (number_of result) (counter_of result) }
{
    let mut digest = [0u8; DIGEST_BYTES];
    let mut rand = [0u8; SEED_BYTES];
    hash_message(set.numbers, secret, front, rest, r, &mut digest, &mut rand);
    search_key(set, secret, &digest, &rand, budget, signature)
}

// Signs a message in two pieces, with every test. No buffer joins them.
fn sign_in(
    set: Set,
    secret: &[u8],
    front: &[u8],
    rest: &[u8],
    r: &[u8],
    budget: u32,
    signature: &mut [u8],
) -> Result<u16, Refusal>
    ensures { Signs set.numbers secret.now (front.now ++ rest.now) r.now budget signature.old signature.new (number_of result) (counter_of result) }
{
    inputs::test_inputs(
        set.numbers,
        secret,
        front.len(),
        rest.len(),
        r.len(),
        budget,
        signature.len(),
    )?;
    sign_tested(set, secret, front, rest, r, budget, signature)
}

// Set I: signs the message with the secret record and r. On a refusal the signature stays as it was.
pub fn sign(
    secret: &[u8],
    message: &[u8],
    r: &[u8],
    budget: u32,
    signature: &mut [u8],
) -> Result<u16, Refusal>
    ensures { Signs set_i secret.now message.now r.now budget signature.old signature.new (number_of result) (counter_of result) }
{
    sign_in(
        Set::i(),
        secret,
        &message[..0],
        message,
        r,
        budget,
        signature,
    )
}

// Set I: signs a roster under its team number, as `sign` signs the two bytes of the number and the roster joined. On a refusal the signature
// stays as it was.
pub fn sign_roster(
    secret: &[u8],
    team: u16,
    roster: &[u8],
    r: &[u8],
    budget: u32,
    signature: &mut [u8],
) -> Result<u16, Refusal>
    ensures { Signs set_i secret.now (roster_message team roster.now) r.now budget signature.old signature.new (number_of result) (counter_of result) }
{
    let front = sampling::two_bytes(team);
    sign_in(Set::i(), secret, &front, roster, r, budget, signature)
}
