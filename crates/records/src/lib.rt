// The public and the secret record: written from their values and read into them. The entries of set I.

#![tactic(auto)]

pub mod choice;
pub mod pieces;
pub mod public;
pub mod secret;

ghost use Rattle.answers.specs.Answers.{number_of};
ghost use Rattle.sets.specs.SetI.{set_i};
ghost use Rattle.records.specs.Promises.{WritesPublic, ReadsPublic, WritesSecret, ReadsSecret};

use answers::Refusal;
use sets::{Parameters, Set, SetI};

// The public record of t, t_1..t_k in a row, and seed_a.
pub fn write_public(t: &[u32], seed_a: &[u8], public: &mut [u8]) -> Result<(), Refusal>
    ensures { WritesPublic set_i t.now seed_a.now public.old public.new (number_of result) }
{
    public::write(SetI::numbers(), t, seed_a, public)
}

// t, t_1..t_k in a row, and seed_a of a public record.
pub fn read_public(public: &[u8], t: &mut [u32], seed_a: &mut [u8]) -> Result<(), Refusal>
    ensures { ReadsPublic set_i public.now t.old t.new seed_a.old seed_a.new (number_of result) }
{
    public::read(Set::i(), public, t, seed_a)
}

// The secret record of s, e_1..e_k in a row, seed_a, seed_y and g.
pub fn write_secret(
    s: &[u8],
    e: &[u8],
    seed_a: &[u8],
    seed_y: &[u8],
    g: &[u8],
    secret: &mut [u8],
) -> Result<(), Refusal>
    ensures { WritesSecret set_i s.now e.now seed_a.now seed_y.now g.now secret.old secret.new (number_of result) }
{
    secret::write(SetI::numbers(), s, e, seed_a, seed_y, g, secret)
}

// s, e_1..e_k in a row, seed_a, seed_y and g of a secret record.
pub fn read_secret(
    secret: &[u8],
    s: &mut [u8],
    e: &mut [u8],
    seed_a: &mut [u8],
    seed_y: &mut [u8],
    g: &mut [u8],
) -> Result<(), Refusal>
    ensures { ReadsSecret set_i secret.now s.old s.new e.old e.new seed_a.old seed_a.new seed_y.old seed_y.new g.old g.new (number_of result) }
{
    secret::read(SetI::numbers(), secret, s, e, seed_a, seed_y, g)
}
