// The envelope: a roster under its team number, with the signature record that signs both.

#![tactic(auto)]

pub mod head;
mod parts;
mod reading;
mod writing;

ghost use Rattle.std.specs.Prelude.{◌≡◌, ◌+◌};
ghost use Rattle.answers.specs.Answers.{number_of};
ghost use Rattle.answers.specs.Tests.{answer};
ghost use Rattle.sets.specs.SetI.{set_i};
ghost use Rattle.records.specs.Layout.{stretch, signature_bytes};
ghost use Rattle.envelope.specs.Envelope.{head_bytes, read_tests, open_tests, roster_answered};
ghost use Rattle.envelope.specs.Program.{program_tests, envelope_part};
ghost use Rattle.envelope.specs.Promises.{WritesEnvelope, Opens, opened_team, opened_len};

use answers::Refusal;
use sets::{Parameters, Set, SetI};

// What reading and opening give: the team number and the roster's length.
#[derive(Clone, Copy, Debug, PartialEq, Eq)]
pub struct Opened {
    pub team: u16,
    pub len: usize,
}

// Set I: writes the envelope of the team number, the roster and the signature record. On a refusal it stays as it was.
pub fn write(team: u16, roster: &[u8], signature: &[u8], envelope: &mut [u8]) -> Result<(), Refusal>
    ensures { WritesEnvelope set_i team roster.now signature.now envelope.old envelope.new (number_of result) }
{
    writing::write(Set::i(), team, roster, signature, envelope)
}

// Set I: reads an envelope, without the hash.
pub fn read(envelope: &[u8]) -> Result<Opened, Refusal>
    ensures { Opens (read_tests set_i envelope.now) envelope.now (number_of result) (opened_team result) (opened_len result) }
{
    reading::test_read(Set::i(), envelope)?;
    Ok(reading::opened(envelope))
}

// The roster of len bytes, the stretch of the lent envelope.
pub fn roster(envelope: &[u8], len: usize) -> &[u8]
    ensures { result.now ≡ stretch head_bytes len envelope.now }
{
    parts::stretch_of(envelope, head::HEAD_BYTES, len)
}

// Set I: the signature record after a roster of len bytes, the stretch of the lent envelope.
pub fn signature(envelope: &[u8], len: usize) -> &[u8]
    ensures { result.now ≡ stretch (head_bytes + len) (signature_bytes set_i) envelope.now }
{
    parts::signature_in(SetI::numbers(), envelope, len)
}

// Set I: opens an envelope: the tests of its head, then checking its message, the two bytes of the team number and the roster, with the
// public record that is lent.
pub fn open(public: &[u8], envelope: &[u8]) -> Result<Opened, Refusal>
    ensures { Opens (open_tests set_i public.now envelope.now) envelope.now (number_of result) (opened_team result) (opened_len result) }
{
    reading::test_open(public, envelope)?;
    Ok(reading::opened(envelope))
}

// Set I: opens an envelope and gives its roster, the stretch of the lent envelope, empty on refusal. An accepted roster may be empty too:
// where the number or the team is wanted, `open` gives them, and `roster` gives this stretch for the length that it answers.
pub fn open_roster<'a>(public: &[u8], envelope: &'a [u8]) -> &'a [u8]
    ensures { result.now ≡ roster_answered (answer (open_tests set_i public.now envelope.now)) envelope.now }
{
    match open(public, envelope) {
        Ok(opened) => roster(envelope, opened.len),
        Err(_) => &envelope[..0],
    }
}

// Set I: opens an input that is a public record and then an envelope, as the program is given it.
pub fn open_input(input: &[u8]) -> Result<Opened, Refusal>
    ensures { Opens (program_tests input.now) (envelope_part input.now) (number_of result) (opened_team result) (opened_len result) }
{
    let end = records::public::public_bytes(SetI::numbers());
    if input.len() < end {
        return Err(Refusal::Length);
    }
    open(&input[..end], &input[end..])
}
