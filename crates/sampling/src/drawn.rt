// What is drawn from streams 1, 2 and 7, a stretch at a time, with no stream held whole.
ghost use Rattle.std.specs.Prelude.{◌≡◌, ◌++◌, map, ◌+◌, ◌*◌, ◌≤◌, ◌<◌, length};
ghost use Rattle.shake.specs.Sponge.{absorbed, squeezed};
ghost use Rattle.sets.specs.Good.{Good};
ghost use Rattle.sets.specs.Marks.{fresh};
ghost use Rattle.sampling.specs.Candidates.{candidates};
ghost use Rattle.sampling.specs.Values.{values, less_of};
ghost use Rattle.sampling.specs.Streams.{two_bytes, y_of, enc_of};
ghost use Rattle.sampling.specs.Positions.{places_of, AreDrawn};
ghost use Rattle.sampling.specs.Asks.{DrawY, Less, DrawEnc, PlacesDrawn, NextA};
ghost use Rattle.sampling.specs.Promises.{StartedA, AfterA};

use crate::{less_stretch, positions_stretch, two_bytes, values_stretch};
use sets::{Numbers, Stream};
use shake::Sponge;

// ---- y

// The state of stream 2 that has absorbed rand and the counter, two bytes, low first.
fn start_y(set: Numbers, rand: &[u8], counter: u16) -> Sponge
    requires { set.digit < 16 }
    ensures { result ≡ absorbed (fresh set.digit 2) (rand.now ++ two_bytes counter) }
{
    set.fresh(Stream::Y)
        .absorb(rand)
        .absorb(&two_bytes(counter))
}

// The values from 0 to 2b of twice as many candidates as out has places, squeezed at most 136 at a time, each less b, into out.
fn draw_less(start: Sponge, bits: u32, b: u32, out: &mut [i32])
    requires { Less bits b }
    ensures { out.new
        ≡ map (less_of b) (values (2 * b + 1) (length out.old) (candidates 3 bits (squeezed (3 * (2 * length out.old)) start))) }
{
    let mut sponge = start;
    let mut buffer = [0u8; 408];
    let mut left = 2 * out.len();
    let mut at = 0;
    // a while: a stretch says itself how many places it filled
    while at < out.len() {
        let k = left.min(136);
        let stretch = &mut buffer[..3 * k];
        left -= k;
        sponge = sponge.squeeze(stretch);
        at = less_stretch(stretch, bits, b, left, out, at);
    }
}

// y of rand and the counter, n values from −b to b, into out.
pub fn draw_y(set: Numbers, rand: &[u8], counter: u16, out: &mut [i32])
    requires { DrawY set (length out.old) }
    ensures { out.new ≡ y_of set rand.now counter }
{
    draw_less(start_y(set, rand, counter), set.z_bits, set.b, out)
}

// ---- c

// Positions below n with signs, of 256 candidates squeezed at most 136 at a time, into positions and signs, in the order drawn.
fn draw_positions(start: Sponge, n: u32, bits: u32, positions: &mut [u16], signs: &mut [i8])
    requires { PlacesDrawn n bits (length positions.old) (length signs.old) }
    ensures { AreDrawn (places_of n bits (length positions.old) (squeezed (3 * 256) start)) positions.new signs.new }
{
    let mut sponge = start;
    let mut buffer = [0u8; 408];
    let mut left: usize = 256;
    let mut at = 0;
    // a while: a stretch says itself how many places it filled
    while at < positions.len() {
        let k = left.min(136);
        let stretch = &mut buffer[..3 * k];
        left -= k;
        sponge = sponge.squeeze(stretch);
        at = positions_stretch(stretch, bits, n, left, positions, signs, at);
    }
}

// Enc of c': h positions with signs, in the order drawn, into positions and signs.
pub fn draw_enc(set: Numbers, c: &[u8], positions: &mut [u16], signs: &mut [i8])
    requires { DrawEnc set (length positions.old) (length signs.old) }
    ensures { AreDrawn (enc_of set c.now) positions.new signs.new }
{
    let start = set.fresh(Stream::Enc).absorb(c);
    // `as`, since std has no From for it: the check proves that nothing is lost.
    draw_positions(start, set.n as u32, set.position_bits, positions, signs)
}

// ---- a_1..a_k, one at a time

// Stream 1 between two of the a_i.
#[derive(Drop)]
pub struct DrawA {
    // the state that gives the candidates to come
    pub sponge: Sponge,
    // candidates to come, of the 4kn
    pub left: usize,
    // values still needed, over all k polynomials
    pub need: usize,
}

// The start of stream 1: it has absorbed seed_a, and no candidate is used.
pub fn start_a(set: Numbers, seed_a: &[u8]) -> DrawA
    requires { Good set }
    ensures { StartedA set seed_a.now result }
{
    let need = set.k * set.n;
    DrawA {
        sponge: set.fresh(Stream::A).absorb(seed_a),
        left: 4 * need,
        need,
    }
}

// The next a_i, n values below q, into out: candidates are squeezed at most 102 at a time, and no more than out has places left, so
// that each of them is used. Answers the stream after them.
pub fn next_a(set: Numbers, d: DrawA, out: &mut [u32]) -> DrawA
    requires { NextA set d (length out.old) }
    ensures { AfterA set d out.new result }
{
    let DrawA {
        mut sponge,
        mut left,
        mut need,
    } = d;
    let mut buffer = [0u8; 408];
    let mut at = 0;
    // a while: a stretch says itself how many places it filled
    while at < out.len() {
        let k = (out.len() - at).min(102);
        let stretch = &mut buffer[..4 * k];
        left -= k;
        sponge = sponge.squeeze(stretch);
        let next = values_stretch(stretch, set.t_bits, set.q, left, need, out, at);
        need -= next - at;
        at = next;
    }
    DrawA { sponge, left, need }
}
