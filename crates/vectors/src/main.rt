// Runs the sponge, the candidate rules, what is drawn and hashed from the seven streams, key making, signing, checking and the entries of
// the three records and of the envelope, for set I, through the cases of standard input. A case is a letter and a piece: the piece's length
// in two bytes and as many bytes. For each case a line is written in hexadecimal. Numbers are in four bytes where nothing else is said, and
// all have their low byte first. A hash is 32 bytes of SHAKE256. `sponge`, `streams` and `scheme` say what a piece holds, and what is
// written.

#![tactic(auto)]

mod bytes;
mod scheme;
mod sponge;
mod streams;

use shake::Sponge;

const MEMORY_BYTES: usize = 524288;

// The input, and the memory: every byte is A5 before something goes in. A function of its own, so that the proof of `main` does not unfold so
// many bytes.
fn blank() -> [u8; MEMORY_BYTES] {
    [0xA5; MEMORY_BYTES]
}

// Runs the case of a letter with what its piece holds. Gives the sponge after it.
fn run_case(letter: u8, given: &[u8], state: Sponge, memory: &mut [u8]) -> Sponge {
    match letter {
        b'a'.. => streams::run(letter, given),
        b'A'.. => scheme::run(letter, given, memory),
        _ => return sponge::run(letter, given, state),
    }
    state
}

// All cases of the input, and a line for each. What is no whole case at the end is left out.
fn run(input: &[u8], memory: &mut [u8]) {
    let mut state = Sponge::blank();
    let mut rest = input;
    while let Some(([letter, low, high], after)) = rest.split_first_chunk::<3>() {
        let long = usize::from(u16::from_le_bytes([*low, *high]));
        let Some((given, next)) = after.split_at_checked(long) else {
            break;
        };
        state = run_case(*letter, given, state, memory);
        io::write_all(1, b"\n");
        rest = next;
    }
}

// A read that fails counts as the end, and so does a full buffer. Read and written by the kit's `io`: std's rests on one axiom more.
fn main() {
    let mut input = blank();
    let n = io::read_full(0, &mut input);
    let mut memory = blank();
    run(&input[..n], &mut memory);
}
