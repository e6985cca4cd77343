// Key making, Algorithm 1.

#![tactic(auto)]

mod public;
mod secret;
pub mod tests;

ghost use Rattle.answers.specs.Answers.{number_of};
ghost use Rattle.sets.specs.SetI.{set_i};
ghost use Rattle.keys.specs.Promises.{MakesKey};

use answers::Refusal;
use sets::Set;

// Makes a key, with every test first.
fn make(
    set: Set,
    s: &[u8],
    e: &[u8],
    seed_a: &[u8],
    seed_y: &[u8],
    public: &mut [u8],
    secret: &mut [u8],
) -> Result<(), Refusal>
    ensures { MakesKey set.numbers s.now e.now seed_a.now seed_y.now public.old public.new secret.old secret.new (number_of result) }
{
    tests::test_inputs(
        set.numbers,
        s,
        e,
        seed_a,
        seed_y,
        public.len(),
        secret.len(),
    )?;
    public::put_public(set, s, e, seed_a, public);
    secret::put_secret(set.numbers, s, e, seed_a, seed_y, public, secret);
    Ok(())
}

// Set I: makes the public and the secret record of s, e_1..e_k in a row, seed_a and seed_y. On a refusal both stay as they were.
pub fn make_key(
    s: &[u8],
    e: &[u8],
    seed_a: &[u8],
    seed_y: &[u8],
    public: &mut [u8],
    secret: &mut [u8],
) -> Result<(), Refusal>
    ensures { MakesKey set_i s.now e.now seed_a.now seed_y.now public.old public.new secret.old secret.new (number_of result) }
{
    make(Set::i(), s, e, seed_a, seed_y, public, secret)
}
