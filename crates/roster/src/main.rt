// The roster program. Standard input is a public record, then an envelope. It writes one line: REFUSED with the number, or the team
// number and the roster's length of an envelope that is accepted.

#![tactic(auto)]

ghost use Rattle.std.specs.Prelude.{take};
ghost use Rattle.answers.specs.Answers.{number_of};
ghost use Rattle.envelope.specs.Promises.{opened_team, opened_len};
ghost use Rattle.roster.specs.Held.{Buffered, OpensWhole};

use answers::Refusal;
use envelope::Opened;

// Opens what the buffer holds of the input, its first n bytes. If they are the input's first `buffer_bytes`, or all that it has, what comes
// back is that of the whole input. (Not one slice, `&buffer[..n]`: the condition is on the buffer's length.)
fn open_held(buffer: &[u8], n: usize) -> Result<Opened, Refusal>
    requires { Buffered buffer.now n }
    ensures { OpensWhole (take n buffer.now) (number_of result) (opened_team result) (opened_len result) }
{
    envelope::open_input(&buffer[..n])
}

// Writes the line of an answer: of an envelope that is accepted, or of a refusal. By the kit's `io`: std's `println!` rests on one axiom more.
fn print_answer(answer: Result<Opened, Refusal>) {
    match answer {
        Ok(opened) => {
            io::write_all(1, b"ROSTER team=");
            io::print_decimal(1, u64::from(opened.team));
            io::write_all(1, b" bytes=");
            io::print_decimal(1, opened.len as u64);
            io::write_all(1, b" ok\n");
        }
        Err(refusal) => {
            io::write_all(1, b"REFUSED ");
            io::print_decimal(1, u64::from(u8::from(refusal)));
            io::write_all(1, b"\n");
        }
    }
}

// Reads the input until it ends or the buffer is full, and writes the line of what is held. No contract can say what is read: that it is
// the front of the input rests on `io::read_full`. A read that fails counts as the end.
fn main() {
    let mut input = io::large_buffer();
    let n = io::read_full(0, &mut input);
    print_answer(open_held(&input, n));
}
