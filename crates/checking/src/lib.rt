// Checking, Algorithm 3.

#![tactic(auto)]

mod hash;
mod tests;
mod work;

ghost use Rattle.answers.specs.Answers.{number_of};
ghost use Rattle.answers.specs.Tests.{Answered};
ghost use Rattle.sets.specs.SetI.{set_i};
ghost use Rattle.checking.specs.Check.{digest_tests, check_tests};

use answers::Refusal;
use sets::{DIGEST_BYTES, Set};

// Whether the signature record on the message passes under the public record.
fn check_in(set: Set, public: &[u8], message: &[u8], signature: &[u8]) -> Result<(), Refusal>
    ensures { Answered (check_tests set.numbers public.now message.now signature.now) (number_of result) }
{
    tests::test_inputs(set, public, message.len(), signature)?;
    let mut digest = [0u8; DIGEST_BYTES];
    sampling::digests::message_digest(set.numbers, message, &mut digest);
    work::check_hash(set, public, &digest, signature)
}

// The same for a message of len bytes that is known by G of it, in whatever pieces it was hashed.
fn check_digest_in(
    set: Set,
    public: &[u8],
    len: usize,
    digest: &[u8; DIGEST_BYTES],
    signature: &[u8],
) -> Result<(), Refusal>
    ensures { Answered (digest_tests set.numbers public.now len digest.now signature.now) (number_of result) }
{
    tests::test_inputs(set, public, len, signature)?;
    work::check_hash(set, public, digest, signature)
}

// Set I: whether the signature record on the message passes under the public record.
pub fn check(public: &[u8], message: &[u8], signature: &[u8]) -> Result<(), Refusal>
    ensures { Answered (check_tests set_i public.now message.now signature.now) (number_of result) }
{
    check_in(Set::i(), public, message, signature)
}

// Set I: the same for a message of len bytes that is known by G of it, under set I's mark. Whoever calls sees to it that digest is that.
pub fn check_digest(
    public: &[u8],
    len: usize,
    digest: &[u8; DIGEST_BYTES],
    signature: &[u8],
) -> Result<(), Refusal>
    ensures { Answered (digest_tests set_i public.now len digest.now signature.now) (number_of result) }
{
    check_digest_in(Set::i(), public, len, digest, signature)
}
