// Writing an envelope: its tests, all made before the first write, and its pieces.
ghost use Rattle.std.specs.Prelude.{◌≡◌, ◌++◌, length, take, drop};
ghost use Rattle.answers.specs.Answers.{number_of};
ghost use Rattle.answers.specs.Tests.{Answered};
ghost use Rattle.sets.specs.Good.{Good};
ghost use Rattle.sampling.specs.Streams.{two_bytes};
ghost use Rattle.envelope.specs.Envelope.{head_bytes, envelope_of, write_tests};
ghost use Rattle.envelope.specs.Asks.{PutsNumbers, Writable};
ghost use Rattle.envelope.specs.Promises.{WritesEnvelope};

use crate::head;
use crate::head::HEAD_BYTES;
use answers::Refusal;
use records::pieces;
use sets::{Numbers, Set};

// The tests of writing, the envelope by its length.
fn test_write(set: Set, roster: &[u8], signature: &[u8], envelope: usize) -> Result<(), Refusal>
    ensures { Answered (write_tests set.numbers roster.now signature.now envelope) (number_of result) }
{
    if signature.len() != signatures::signature_bytes(set.numbers) {
        return Err(Refusal::Length);
    }
    if !head::is_total(set.numbers, roster.len(), envelope) {
        return Err(Refusal::Length);
    }
    if !pieces::is_marked(set.numbers, 3, signature) {
        return Err(Refusal::Mark);
    }
    if sets::ROSTER_LIMIT < roster.len() {
        return Err(Refusal::Message);
    }
    if !signatures::z_passes(set, signature) {
        return Err(Refusal::Z);
    }
    Ok(())
}

// Writes the team number and L after the mark, two bytes each, low first.
fn put_numbers(team: u16, len: u16, envelope: &mut [u8])
    requires { PutsNumbers envelope.old }
    ensures { envelope.new ≡ take 2 envelope.old ++ ((two_bytes team ++ two_bytes len) ++ drop head_bytes envelope.old) }
{
    let team_bytes = sampling::two_bytes(team);
    let len_bytes = sampling::two_bytes(len);
    pieces::copy_at(&team_bytes, envelope, 2);
    pieces::copy_at(&len_bytes, envelope, 4);
}

// Writes the mark, both numbers, the roster and the signature record, each after the other.
fn put_envelope(set: Numbers, team: u16, roster: &[u8], signature: &[u8], envelope: &mut [u8])
    requires good { Good set }
    requires writable { Writable set roster.now signature.now (length envelope.old) }
    ensures { envelope.new ≡ envelope_of set team roster.now signature.now }
{
    let len = roster.len();
    pieces::write_mark(set, head::ENVELOPE_KIND, envelope);
    // `as`, since std has no From for it: the check proves that nothing is lost.
    put_numbers(team, len as u16, envelope);
    pieces::copy_at(roster, envelope, HEAD_BYTES);
    pieces::copy_at(signature, envelope, HEAD_BYTES + len);
}

// Tests the signature record, the roster and the envelope's length, and writes the envelope.
pub(crate) fn write(
    set: Set,
    team: u16,
    roster: &[u8],
    signature: &[u8],
    envelope: &mut [u8],
) -> Result<(), Refusal>
    ensures { WritesEnvelope set.numbers team roster.now signature.now envelope.old envelope.new (number_of result) }
{
    test_write(set, roster, signature, envelope.len())?;
    put_envelope(set.numbers, team, roster, signature, envelope);
    Ok(())
}
