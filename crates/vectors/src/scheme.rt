// Key making, signing, checking and the entries of the three records and of the envelope. The memory stays between the cases, with all
// bytes A5 at first. Its first bytes are the last piece but that of a W. A place is the start and the length of a stretch of the memory:
//     W  start, bytes                           nothing: the bytes go into the memory, from start on
//     K  places of secret, public, s, e_1..e_k, seed_a, seed_y
//                                               of key making the number, and the hashes of public and secret
//     S  places of signature, secret, message, r; budget
//                                               of signing the number, the counter in 2 bytes, and the hash of the record
//     R  places of signature, secret, roster, r; budget; team
//                                               of signing the roster the number, the counter in 2 bytes, and the hash of the record
//     C  places of public, message, signature   of checking the number
//     P  places of public, t, seed_a            of writing the public record the number, and its hash
//     Q  place of public; lengths of t, seed_a  of reading it the number, and the hashes of t and seed_a
//     E  places of secret, s, e_1..e_k, seed_a, seed_y, g
//                                               of writing the secret record the number, and its hash
//     F  place of secret; lengths of s, e_1..e_k, seed_a, seed_y, g
//                                               of reading it the number, and the hashes of the five
//     Z  places of signature, z, c'             of writing the signature record the number, and its hash
//     Y  place of signature; lengths of z, c'   of reading it the number, and the hashes of z and c'
//     V  places of envelope, roster, signature; team
//                                               of writing the envelope the number, and its hash
//     N  place of envelope                      of reading it the number, the team number in 2 bytes, and the hashes of the roster and
//                                               the signature record
//     O  places of public, envelope             of opening it the number, the team number in 2 bytes, the hash of the roster of the
//                                               length that came back, and the hash of the roster that `open_roster` gives
// t and z have 4 bytes a value, in the memory and where they are hashed. A record that is written has a room of 16,384 bytes from its
// start on, the envelope one of 40,960, of which its length is lent, and the hash is that of the room after the call. Lengths of what is
// read count its values, and every byte of it is A5 before the call. The team number is the number modulo 65,536.
ghost use Rattle.std.specs.Prelude.{◌<◌};

use crate::bytes;
use answers::Refusal;
use envelope::Opened;

// The rooms of a record and of an envelope.
const RECORD_ROOM: usize = 16384;

const ENVELOPE_ROOM: usize = 40960;

// The stretch whose place stands from number i on.
fn stretch(memory: &[u8], i: usize) -> &[u8]
    requires { i < 256 }
{
    bytes::part(
        memory,
        bytes::number(memory, i),
        bytes::number(memory, i + 1),
    )
}

// Takes the bytes from the start at number i on.
fn load(memory: &[u8], i: usize, room: &mut [u8]) {
    bytes::copy(bytes::rest(memory, bytes::number(memory, i)), room, 0);
}

// Puts them back.
fn store(room: &[u8], memory: &mut [u8], i: usize) {
    let start = bytes::number(memory, i);
    bytes::copy(room, memory, start);
}

// ---- the algorithms

fn make_key(memory: &mut [u8], secret: &mut [u8]) {
    let mut public = [0xA5; RECORD_ROOM];
    load(memory, 2, &mut public);
    let answer = keys::make_key(
        stretch(memory, 4),
        stretch(memory, 6),
        stretch(memory, 8),
        stretch(memory, 10),
        bytes::lend(memory, 3, &mut public),
        secret,
    );
    bytes::print_answer(&answer);
    bytes::print_hash(&public);
    store(&public, memory, 2);
}

// The number and the counter, 0 on refusal.
fn print_signed(signed: Result<u16, Refusal>) {
    bytes::print_answer(&signed);
    bytes::print(&signed.unwrap_or(0).to_le_bytes());
}

fn sign(memory: &[u8], signature: &mut [u8]) {
    let signed = signing::sign(
        stretch(memory, 2),
        stretch(memory, 4),
        stretch(memory, 6),
        bytes::word(memory, 8),
        signature,
    );
    print_signed(signed);
}

fn sign_roster(memory: &[u8], signature: &mut [u8]) {
    let signed = signing::sign_roster(
        stretch(memory, 2),
        bytes::short(memory, 9),
        stretch(memory, 4),
        stretch(memory, 6),
        bytes::word(memory, 8),
        signature,
    );
    print_signed(signed);
}

fn check(memory: &[u8]) {
    let answer = checking::check(stretch(memory, 0), stretch(memory, 2), stretch(memory, 4));
    bytes::print_answer(&answer);
}

// ---- the records and the envelope written

fn write_public(memory: &[u8], public: &mut [u8]) {
    let mut room = [0; 4100];
    let t = bytes::values(stretch(memory, 2), &mut room, u32::from_le_bytes);
    let answer = records::write_public(t, stretch(memory, 4), public);
    bytes::print_answer(&answer);
}

fn write_secret(memory: &[u8], secret: &mut [u8]) {
    let answer = records::write_secret(
        stretch(memory, 2),
        stretch(memory, 4),
        stretch(memory, 6),
        stretch(memory, 8),
        stretch(memory, 10),
        secret,
    );
    bytes::print_answer(&answer);
}

fn write_signature(memory: &[u8], signature: &mut [u8]) {
    let mut room = [0; 2048];
    let z = bytes::values(stretch(memory, 2), &mut room, i32::from_le_bytes);
    let answer = signatures::write_signature(z, stretch(memory, 4), signature);
    bytes::print_answer(&answer);
}

fn write_envelope(memory: &[u8], envelope: &mut [u8]) {
    let answer = envelope::write(
        bytes::short(memory, 6),
        stretch(memory, 2),
        stretch(memory, 4),
        envelope,
    );
    bytes::print_answer(&answer);
}

// One of them into what is lent of its room.
fn write_lent(letter: u8, memory: &mut [u8], lent: &mut [u8]) {
    match letter {
        b'K' => make_key(memory, lent),
        b'S' => sign(memory, lent),
        b'R' => sign_roster(memory, lent),
        b'P' => write_public(memory, lent),
        b'E' => write_secret(memory, lent),
        b'V' => write_envelope(memory, lent),
        _ => write_signature(memory, lent),
    }
}

// The room is taken from the memory, and put back after.
fn write(letter: u8, memory: &mut [u8]) {
    let len = if letter == b'V' {
        ENVELOPE_ROOM
    } else {
        RECORD_ROOM
    };
    let mut most = [0xA5; ENVELOPE_ROOM];
    let room = &mut most[..len];
    load(memory, 0, room);
    write_lent(letter, memory, bytes::lend(memory, 1, room));
    bytes::print_hash(room);
    store(room, memory, 0);
}

// ---- the records read

fn read_public(memory: &[u8]) {
    let mut t_room = [0xA5A5A5A5; 4100];
    let t = bytes::lend(memory, 2, &mut t_room);
    let mut room = [0xA5; RECORD_ROOM];
    let seed_a = bytes::lend(memory, 3, &mut room);
    let answer = records::read_public(stretch(memory, 0), t, seed_a);
    bytes::print_answer(&answer);
    bytes::print_values_hash(t, u32::to_le_bytes);
    bytes::print_hash(seed_a);
}

fn read_secret(memory: &[u8]) {
    let mut s_room = [0xA5; RECORD_ROOM];
    let s = bytes::lend(memory, 2, &mut s_room);
    let mut e_room = [0xA5; RECORD_ROOM];
    let e = bytes::lend(memory, 3, &mut e_room);
    let mut seed_a_room = [0xA5; RECORD_ROOM];
    let seed_a = bytes::lend(memory, 4, &mut seed_a_room);
    let mut seed_y_room = [0xA5; RECORD_ROOM];
    let seed_y = bytes::lend(memory, 5, &mut seed_y_room);
    let mut g_room = [0xA5; RECORD_ROOM];
    let g = bytes::lend(memory, 6, &mut g_room);
    let answer = records::read_secret(stretch(memory, 0), s, e, seed_a, seed_y, g);
    bytes::print_answer(&answer);
    bytes::print_hash(s);
    bytes::print_hash(e);
    bytes::print_hash(seed_a);
    bytes::print_hash(seed_y);
    bytes::print_hash(g);
}

fn read_signature(memory: &[u8]) {
    let mut z_room = [0xA5A5A5A5u32.cast_signed(); 2048];
    let z = bytes::lend(memory, 2, &mut z_room);
    let mut room = [0xA5; RECORD_ROOM];
    let c = bytes::lend(memory, 3, &mut room);
    let answer = signatures::read_signature(stretch(memory, 0), z, c);
    bytes::print_answer(&answer);
    bytes::print_values_hash(z, i32::to_le_bytes);
    bytes::print_hash(c);
}

// ---- the envelope read and opened

// What a refusal leaves: no team, and the empty roster.
const NOTHING: Opened = Opened { team: 0, len: 0 };

// The number, the team number and the hash of the roster.
fn print_opened(answer: Result<Opened, Refusal>, envelope: &[u8]) {
    let opened = answer.unwrap_or(NOTHING);
    bytes::print_answer(&answer);
    bytes::print(&opened.team.to_le_bytes());
    bytes::print_hash(envelope::roster(envelope, opened.len));
}

fn read_envelope(envelope: &[u8]) {
    let answer = envelope::read(envelope);
    print_opened(answer, envelope);
    let len = answer.unwrap_or(NOTHING).len;
    bytes::print_hash(envelope::signature(envelope, len));
}

fn open_envelope(public: &[u8], envelope: &[u8]) {
    print_opened(envelope::open(public, envelope), envelope);
    bytes::print_hash(envelope::open_roster(public, envelope));
}

pub fn run(letter: u8, given: &[u8], memory: &mut [u8]) {
    if letter == b'W' {
        bytes::copy(bytes::rest(given, 4), memory, bytes::number(given, 0));
        return;
    }
    bytes::copy(given, memory, 0);
    match letter {
        b'C' => check(memory),
        b'Q' => read_public(memory),
        b'F' => read_secret(memory),
        b'Y' => read_signature(memory),
        b'N' => read_envelope(stretch(memory, 0)),
        b'O' => open_envelope(stretch(memory, 0), stretch(memory, 2)),
        _ => write(letter, memory),
    }
}
