// Reading and opening an envelope: the tests of its head, then those of its signature record or of checking.
ghost use Rattle.std.specs.Prelude.{◌≡◌, [], ◌∷◌};
ghost use Rattle.answers.specs.Answers.{number_of};
ghost use Rattle.answers.specs.Tests.{◌or_else◌, Answered};
ghost use Rattle.sets.specs.Good.{Good};
ghost use Rattle.sets.specs.SetI.{set_i};
ghost use Rattle.sampling.specs.Streams.{message_digest};
ghost use Rattle.records.specs.Layout.{marked};
ghost use Rattle.signatures.specs.Asks.{LongSignature};
ghost use Rattle.signatures.specs.Signature.{z_of, z_in_range};
ghost use Rattle.envelope.specs.Envelope.{message_of, read_tests, open_tests};
ghost use Rattle.envelope.specs.Promises.{opened};

use crate::{Opened, head, parts};
use answers::Refusal;
use records::pieces;
use sets::{DIGEST_BYTES, Numbers, Parameters, Set, SetI};

// The tests of a signature record that has its length: its mark and z.
fn test_signed(set: Set, signature: &[u8]) -> Result<(), Refusal>
    requires { LongSignature set.numbers signature.now }
    ensures { Answered ((marked set.numbers 3 signature.now or_else 2) ∷ (z_in_range set.numbers (z_of set.numbers signature.now) or_else 9) ∷ []) (number_of result) }
{
    if !pieces::is_marked(set.numbers, 3, signature) {
        return Err(Refusal::Mark);
    }
    if !signatures::z_passes(set, signature) {
        return Err(Refusal::Z);
    }
    Ok(())
}

// The tests of reading.
pub(crate) fn test_read(set: Set, envelope: &[u8]) -> Result<(), Refusal>
    ensures { Answered (read_tests set.numbers envelope.now) (number_of result) }
{
    head::test_head(set.numbers, envelope)?;
    let signature = parts::signature_in(set.numbers, envelope, head::length_of(envelope));
    test_signed(set, signature)
}

// G of the message of an envelope: the two bytes of the team number and the roster, one after the other.
fn hash_message(set: Numbers, envelope: &[u8], digest: &mut [u8; DIGEST_BYTES])
    requires { Good set }
    ensures { digest.new ≡ message_digest set (message_of envelope.now) }
{
    let team = head::team_bytes(envelope);
    let roster = crate::roster(envelope, head::length_of(envelope));
    sampling::digests::joined_digest(set, &team, roster, digest);
}

// Set I: the tests of opening.
pub(crate) fn test_open(public: &[u8], envelope: &[u8]) -> Result<(), Refusal>
    ensures { Answered (open_tests set_i public.now envelope.now) (number_of result) }
{
    let set = SetI::numbers();
    head::test_head(set, envelope)?;
    let mut digest = [0u8; DIGEST_BYTES];
    hash_message(set, envelope, &mut digest);
    let len = head::length_of(envelope);
    let signed = parts::signature_in(set, envelope, len);
    checking::check_digest(public, 2 + len, &digest, signed)
}

// The team number and the roster's length that an envelope's head gives.
pub(crate) fn opened(envelope: &[u8]) -> Opened
    ensures { result ≡ opened envelope.now }
{
    Opened {
        team: head::team_of(envelope),
        len: head::length_of(envelope),
    }
}
