// The head of an envelope: the mark, the team number, the roster's length L; and the first four tests of reading and opening.
ghost use Rattle.std.specs.Prelude.{◌≡◌, [], ◌∷◌, ◌+◌, ◌*◌, eqb, leb};
ghost use Rattle.answers.specs.Answers.{number_of};
ghost use Rattle.answers.specs.Tests.{◌or_else◌, Answered};
ghost use Rattle.sets.specs.Good.{Good};
ghost use Rattle.sets.specs.Limits.{roster_limit};
ghost use Rattle.envelope.specs.Envelope.{envelope_bytes, team_of, team_bytes, length_of, head_tests};

use answers::Refusal;
use records::pieces;
use sets::Numbers;

// Which record the envelope is: its mark is 51 15 in set I.
pub(crate) const ENVELOPE_KIND: u8 = 5;

// The bytes before the roster.
pub const HEAD_BYTES: usize = 6;

// The number of two bytes, low first.
fn number(low: u8, high: u8) -> u16
    ensures { result ≡ low + 256 * high }
{
    u16::from_le_bytes([low, high])
}

// The team number.
pub(crate) fn team_of(envelope: &[u8]) -> u16
    ensures { result ≡ team_of envelope.now }
{
    number(pieces::byte_at(envelope, 2), pieces::byte_at(envelope, 3))
}

// Its two bytes, as they stand.
pub(crate) fn team_bytes(envelope: &[u8]) -> [u8; 2]
    ensures { result ≡ team_bytes envelope.now }
{
    [pieces::byte_at(envelope, 2), pieces::byte_at(envelope, 3)]
}

// L, the roster's length.
pub(crate) fn length_of(envelope: &[u8]) -> usize
    ensures { result ≡ length_of envelope.now }
{
    usize::from(number(pieces::byte_at(envelope, 4), pieces::byte_at(envelope, 5)))
}

// Whether total is the length of an envelope around a roster of len bytes, by a difference: no sum with len is made.
pub(crate) fn is_total(set: Numbers, len: usize, total: usize) -> bool
    requires { Good set }
    ensures { result ≡ eqb total (envelope_bytes set len) }
{
    let around = HEAD_BYTES + signatures::signature_bytes(set);
    around <= total && total - around == len
}

// The tests of L: its limit, and the total.
fn test_length(set: Numbers, len: usize, total: usize) -> Result<(), Refusal>
    requires { Good set }
    ensures { Answered ((leb len roster_limit or_else 3) ∷ (eqb total (envelope_bytes set len) or_else 1) ∷ []) (number_of result) }
{
    if sets::ROSTER_LIMIT < len {
        return Err(Refusal::Message);
    }
    if !is_total(set, len, total) {
        return Err(Refusal::Length);
    }
    Ok(())
}

// The first four tests of reading and opening, in opening's own order: fewer than 6 bytes (1), the mark (2), L (3), the total (1).
pub(crate) fn test_head(set: Numbers, envelope: &[u8]) -> Result<(), Refusal>
    requires { Good set }
    ensures { Answered (head_tests set envelope.now) (number_of result) }
{
    if envelope.len() < HEAD_BYTES {
        return Err(Refusal::Length);
    }
    if !pieces::is_marked(set, ENVELOPE_KIND, envelope) {
        return Err(Refusal::Mark);
    }
    test_length(set, length_of(envelope), envelope.len())
}
