// The envelope: written, read and opened. The roster that comes back is a stretch of the lent envelope, by its start and its length.
ghost use Rattle.sets.specs.SetI.{set_i};
ghost use Rattle.envelope.specs.Envelope.{read_tests, open_tests};
ghost use Rattle.envelope.specs.Promises.{WritesEnvelope};
ghost use Rattle.maesikkong.specs.Promises.{HandsOut, OpensAt};

use answers::{Refusal, number};
use envelope::Opened;

// Hands out what reading or opening gives: the number, and the team number and the roster's start and length, 0 on refusal.
fn hand_out(
    answer: Result<Opened, Refusal>,
    team: &mut u16,
    roster_start: &mut usize,
    roster_len: &mut usize,
) -> u8
    ensures { HandsOut answer result team.new roster_start.new roster_len.new }
{
    let answered = number(&answer);
    match answer {
        Ok(opened) => {
            *team = opened.team;
            *roster_start = envelope::head::HEAD_BYTES;
            *roster_len = opened.len;
            answered
        }
        Err(_) => {
            *team = 0;
            *roster_start = 0;
            *roster_len = 0;
            answered
        }
    }
}

// Writes the envelope of the team number, the roster and the signature record of both. 0, 1, 2, 3, 9.
#[unsafe(no_mangle)]
pub extern "C" fn maesikkong_write_envelope(
    team: u16,
    roster: &[u8],
    signature: &[u8],
    envelope: &mut [u8],
) -> u8
    ensures { WritesEnvelope set_i team roster.now signature.now envelope.old envelope.new result }
{
    number(&envelope::write(team, roster, signature, envelope))
}

// Reads an envelope, without the hash. 0, 1, 2, 3, 9.
#[unsafe(no_mangle)]
pub extern "C" fn maesikkong_read_envelope(
    envelope: &[u8],
    team: &mut u16,
    roster_start: &mut usize,
    roster_len: &mut usize,
) -> u8
    ensures { OpensAt (read_tests set_i envelope.now) envelope.now result team.new roster_start.new roster_len.new }
{
    hand_out(envelope::read(envelope), team, roster_start, roster_len)
}

// Opens an envelope with the public record. 0, 1, 2, 3, 5, 9, 10, 11.
#[unsafe(no_mangle)]
pub extern "C" fn maesikkong_open_envelope(
    public: &[u8],
    envelope: &[u8],
    team: &mut u16,
    roster_start: &mut usize,
    roster_len: &mut usize,
) -> u8
    ensures { OpensAt (open_tests set_i public.now envelope.now) envelope.now result team.new roster_start.new roster_len.new }
{
    hand_out(
        envelope::open(public, envelope),
        team,
        roster_start,
        roster_len,
    )
}
