// The candidate rules over a lent stream, and what is drawn and hashed from the seven streams:
//     a  needed, stream            the answer's number, and the values for a in 4 bytes each
//     y  needed, stream            the answer's number, and the values for y in 4 bytes each
//     p  needed, signs, stream     the answer's number, the positions in 2 bytes each, and the signs in one
//     d  seed_a                    the hash of a_1..a_k, in 4 bytes a value
//     s  counter, rand             the hash of y, in 4 bytes a value
//     e  c'                        the positions in 2 bytes each, and the signs in one
//     m  message                   G of the message
//     g  packed t_1..t_k           g
//     r  seed_y, r, G              rand
//     c  G, g, high parts          c'
// The numbers needed, of signs too, are at most 2,048. Each byte of an output is A5 before the call, so that a refusal that touched it would
// show.
ghost use Rattle.std.specs.Prelude.{length};
ghost use Rattle.sampling.specs.Asks.{DrawY};

use crate::bytes;
use sets::{Numbers, Parameters, SetI, Stream};
use shake::Sponge;

// ---- over a lent stream

fn lent_a(given: &[u8]) {
    let mut room = [0xA5A5A5A5; 4100];
    let out = bytes::lend(given, 0, &mut room);
    let answer = sampling::take_a(bytes::rest(given, 4), out);
    bytes::print_answer(&answer);
    bytes::print_values(out, u32::to_le_bytes);
}

fn lent_y(given: &[u8]) {
    let mut room = [0xA5A5A5A5u32.cast_signed(); 2048];
    let out = bytes::lend(given, 0, &mut room);
    let answer = sampling::take_y(bytes::rest(given, 4), out);
    bytes::print_answer(&answer);
    bytes::print_values(out, i32::to_le_bytes);
}

fn lent_positions(given: &[u8]) {
    let mut room = [0xA5A5; 2048];
    let positions = bytes::lend(given, 0, &mut room);
    let mut sign_room = [0xA5u8.cast_signed(); 2048];
    let signs = bytes::lend(given, 1, &mut sign_room);
    let answer = sampling::take_positions(bytes::rest(given, 8), positions, signs);
    bytes::print_answer(&answer);
    print_positions(positions, signs);
}

fn print_positions(positions: &[u16], signs: &[i8]) {
    bytes::print_values(positions, u16::to_le_bytes);
    bytes::print_values(signs, i8::to_le_bytes);
}

// ---- drawn

// The sponge that has absorbed a_1..a_k: a takes one a_i at a time.
fn absorb_a(set: Numbers, seed_a: &[u8], a: &mut [u32]) -> Sponge
    requires { DrawY set (length a.old) }
{
    let mut sponge = Sponge::blank();
    let mut stream = sampling::drawn::start_a(set, seed_a);
    for _ in 0..set.k {
        stream = sampling::drawn::next_a(set, stream, a);
        sponge = bytes::absorb_values(sponge, a, u32::to_le_bytes);
    }
    sponge
}

fn drawn_a(seed_a: &[u8]) {
    let mut a = [0; SetI::N];
    bytes::print_squeezed(absorb_a(SetI::numbers(), seed_a, &mut a));
}

fn drawn_y(given: &[u8]) {
    let mut y = [0; SetI::N];
    sampling::drawn::draw_y(
        SetI::numbers(),
        bytes::rest(given, 4),
        bytes::short(given, 0),
        &mut y,
    );
    bytes::print_values_hash(&y, i32::to_le_bytes);
}

fn enc(c: &[u8]) {
    let mut positions = [0; SetI::H];
    let mut signs = [0; SetI::H];
    sampling::drawn::draw_enc(SetI::numbers(), c, &mut positions, &mut signs);
    print_positions(&positions, &signs);
}

// ---- hashed

fn message(given: &[u8]) {
    let mut out = [0; 40];
    sampling::digests::message_digest(SetI::numbers(), given, &mut out);
    bytes::print(&out);
}

fn key(given: &[u8]) {
    let mut out = [0; 40];
    sampling::digests::key_digest(SetI::numbers(), given, &mut out);
    bytes::print(&out);
}

fn rand(given: &[u8]) {
    let mut out = [0; 32];
    sampling::digests::rand_of(
        SetI::numbers(),
        bytes::part(given, 0, 32),
        bytes::part(given, 32, 32),
        bytes::rest(given, 64),
        &mut out,
    );
    bytes::print(&out);
}

fn challenge(given: &[u8]) {
    let mut out = [0; 32];
    let highs = SetI::fresh(Stream::Challenge).absorb(bytes::rest(given, 80));
    sampling::digests::challenge_of(
        highs,
        bytes::part(given, 0, 40),
        bytes::part(given, 40, 40),
        &mut out,
    );
    bytes::print(&out);
}

pub fn run(letter: u8, given: &[u8]) {
    match letter {
        b'a' => lent_a(given),
        b'y' => lent_y(given),
        b'p' => lent_positions(given),
        b'd' => drawn_a(given),
        b's' => drawn_y(given),
        b'e' => enc(given),
        b'm' => message(given),
        b'g' => key(given),
        b'r' => rand(given),
        b'c' => challenge(given),
        _ => {}
    }
}
