// The candidate rules: what is taken of a stream's candidates, as values below a range and as positions with signs. And a number as two bytes,
// as streams take it.
#![tactic(auto)]

pub mod digests;
pub mod drawn;

ghost use Rattle.std.specs.Prelude.{◌≡◌, [], ◌∷◌, map, ◌+◌, ◌-◌, ◌*◌, ◌/◌, ◌%◌, ◌^◌, ◌≤◌, ◌<◌, ℕ, ℤ, length, take, MatchOption};
ghost use Rattle.answers.specs.Answers.{number_of};
ghost use Rattle.sets.specs.Good.{Good};
ghost use Rattle.sets.specs.SetI.{set_i};
ghost use Rattle.packing.specs.Digits.{value};
ghost use Rattle.sampling.specs.Candidates.{candidates};
ghost use Rattle.sampling.specs.Positions.{is_in, free, sign_of, drawn_candidates};
ghost use Rattle.sampling.specs.Streams.{two_bytes};
ghost use Rattle.sampling.specs.Stretches.{part, part_positions, drawn_as};
ghost use Rattle.sampling.specs.Values.{less_of};
ghost use Rattle.sampling.specs.Asks.{ValuesStretch, LessStretch, PositionsStretch};
ghost use Rattle.sampling.specs.Promises.{Upward, TakesA, TakesY, TakesPositions};
ghost use Rattle.sampling.specs.Stored.{Stored, StoredDrawn};

use answers::Refusal;
use sets::{Numbers, Parameters, SetI};

// ---- numbers as bytes

// The two bytes of a number, low first.
pub fn two_bytes(x: u16) -> [u8; 2]
    ensures { result ≡ two_bytes x }
{
    x.to_le_bytes()
}

// ---- candidates

// A candidate: the low bits of the number that the bytes are, low byte first.
fn candidate(bytes: &[u8], bits: u32) -> u32
    requires { (length bytes.now ≤ 4) × (bits ≤ 32) }
    ensures { result ≡ value 8 bytes.now % 2 ^ bits }
{
    let v = bytes.iter().rev().fold(0, |v, b| v << 8 | u32::from(*b));
    packing::low(u64::from(v), bits)
}

// ---- values

// The values below range of a stretch of candidates of SIZE bytes, which `later` candidates follow, where `need` values are needed of all
// of them: what `keep` makes of each is stored in out from `at` on. Answers the next place.
fn keep_values<const SIZE: usize, T: Copy, F: Fn(u32) -> T>(
    stretch: &[u8],
    bits: u32,
    range: u32,
    later: usize,
    need: usize,
    keep: F,
    out: &mut [T],
    at: usize,
) -> usize
    requires asks { ValuesStretch SIZE bits range later need stretch.now (length out.old) at }
    requires callable { (v : ℕ) → v < range → F.pre keep v }
    ensures { (g : ℕ → T) → ((v : ℕ) (x : T) → v < range → F.post keep v x → x ≡ g v) → Stored (map g (part range need later (candidates SIZE bits stretch.now))) out.old at out.new result }
{
    let (pieces, _) = stretch.as_chunks::<SIZE>();
    let mut next = at;
    let mut left = pieces.len() + later;
    for bytes in pieces {
        let taken = next - at;
        if taken == need {
            break;
        }
        left -= 1;
        let c = candidate(bytes, bits);
        // a store in each arm: a candidate in range is then tested for nothing more
        if c < range {
            out[next] = keep(c);
            next += 1;
        } else if left < need - taken {
            out[next] = keep(c - range);
            next += 1;
        }
    }
    next
}

// The values below range of a stretch of candidates of 4 bytes, which `later` candidates follow, where `need` values are needed of all of
// them: stored in out from `at` on. Answers the next place.
fn values_stretch(
    stretch: &[u8],
    bits: u32,
    range: u32,
    later: usize,
    need: usize,
    out: &mut [u32],
    at: usize,
) -> usize
    requires { ValuesStretch 4 bits range later need stretch.now (length out.old) at }
    ensures { Stored (part range need later (candidates 4 bits stretch.now)) out.old at out.new result }
{
    keep_values::<4, _, _>(stretch, bits, range, later, need, |v| v, out, at)
}

// v − b.
fn less(v: u32, b: u32) -> i32
    requires { (v ≤ 2 * b) × (b < 2 ^ 31) }
    ensures { result ≡ less_of b v }
{
    // `as`, since std has no From for it: the check proves that nothing is lost.
    (i64::from(v) - i64::from(b)) as i32
}

// The values from 0 to 2b of a stretch of candidates of 3 bytes, which `later` candidates follow, each less b, stored in out from `at` on.
// Answers the next place.
fn less_stretch(
    stretch: &[u8],
    bits: u32,
    b: u32,
    later: usize,
    out: &mut [i32],
    at: usize,
) -> usize
    requires { LessStretch bits b later stretch.now (length out.old) at }
    ensures { Stored (map (less_of b) (part (2 * b + 1) (length out.old - at) later (candidates 3 bits stretch.now))) out.old at out.new result }
{
    let need = out.len() - at;
    keep_values::<3, _, _>(
        stretch,
        bits,
        2 * b + 1,
        later,
        need,
        |v| less(v, b),
        out,
        at,
    )
}

// ---- positions with signs

// The sign that a candidate's third byte gives: −1 where its low bit is set, +1 where it is clear.
fn sign_of(third: u8) -> i8
    ensures { result ≡ sign_of third }
{
    if third % 2 == 1 { -1 } else { 1 }
}

// The next position upward, from n − 1 on to 0.
fn upward(p: u16, n: u32) -> u16
    requires { (p < n) × (n ≤ 65536) }
    ensures { Upward n p result }
{
    if u32::from(p) + 1 == n { 0 } else { p + 1 }
}

// p if it is not among ps, else the next position upward that is not.
fn next_free(ps: &[u16], n: u32, p: u16) -> u16
    requires { (p < n) × (n ≤ 65536) }
    ensures { result ≡ free n n p ps.now }
{
    let mut at = p;
    for _ in 0..n {
        if !ps.contains(&at) {
            return at;
        }
        at = upward(at, n);
    }
    at
}

// Whether p is among ps, which are few: one after another, up to the first that is equal.
fn in_few(ps: &[u16], p: u16) -> bool
    ensures { result ≡ is_in p ps.now }
{
    ps.iter().any(|q| *q == p)
}

// Whether p is among ps. The first eight count as few: `contains` reads on to the end of a group.
fn among(ps: &[u16], p: u16) -> bool
    ensures { result ≡ is_in p ps.now }
{
    match ps.split_first_chunk::<8>() {
        Some((first, rest)) => in_few(first, p) || rest.contains(&p),
        None => in_few(ps, p),
    }
}

// The position that a candidate for p gets below n, with `left` candidates after it and `need` positions needed, where those of ps are
// taken already.
fn placed(p: u16, n: u32, left: usize, need: usize, ps: &[u16]) -> Option<u16>
    requires { (p < n) × (n ≤ 65536) × (0 < need) }
    ensures { (s : ℤ) → MatchOption result (part_positions n need left ps.now (drawn_as p s ∷ []) ≡ []) (λ q. part_positions n need left ps.now (drawn_as p s ∷ []) ≡ drawn_as q s ∷ []) }
{
    if !among(ps, p) {
        Some(p)
    } else if left < need {
        Some(next_free(ps, n, p))
    } else {
        None
    }
}

// The positions below n with signs of a stretch that `later` candidates follow, stored from `at` on, before which stand the positions
// taken already. Answers the next place.
fn positions_stretch(
    stretch: &[u8],
    bits: u32,
    n: u32,
    later: usize,
    positions: &mut [u16],
    signs: &mut [i8],
    at: usize,
) -> usize
    requires { PositionsStretch n bits later stretch.now (length positions.old) (length signs.old) at }
    ensures { StoredDrawn (part_positions n (length positions.old - at) later (take at positions.old) (drawn_candidates bits stretch.now)) positions.old signs.old at positions.new signs.new result }
{
    let (pieces, _) = stretch.as_chunks::<3>();
    let mut next = at;
    let mut left = pieces.len() + later;
    for bytes in pieces {
        if next == positions.len() {
            break;
        }
        left -= 1;
        let p = candidate(bytes, bits) as u16;
        let sign = sign_of(bytes[2]);
        if let Some(q) = placed(p, n, left, positions.len() - next, &positions[..next]) {
            positions[next] = q;
            signs[next] = sign;
            next += 1;
        }
    }
    next
}

// ---- over a lent stream

// As many values for a as out has places.
fn lent_a(set: Numbers, stream: &[u8], out: &mut [u32]) -> Result<(), Refusal>
    requires { Good set }
    ensures { TakesA set stream.now out.old out.new (number_of result) }
{
    if stream.len() / 4 < out.len() {
        return Err(Refusal::Length);
    }
    values_stretch(stream, set.t_bits, set.q, 0, out.len(), out, 0);
    Ok(())
}

// As many values for y as out has places, each less b.
fn lent_y(set: Numbers, stream: &[u8], out: &mut [i32]) -> Result<(), Refusal>
    requires { Good set }
    ensures { TakesY set stream.now out.old out.new (number_of result) }
{
    if stream.len() / 3 < out.len() {
        return Err(Refusal::Length);
    }
    less_stretch(stream, set.z_bits, set.b, 0, out, 0);
    Ok(())
}

// As many positions with signs as there are places.
fn lent_positions(
    set: Numbers,
    stream: &[u8],
    positions: &mut [u16],
    signs: &mut [i8],
) -> Result<(), Refusal>
    requires { Good set }
    ensures { TakesPositions set stream.now positions.old signs.old positions.new signs.new (number_of result) }
{
    let need = positions.len();
    if signs.len() != need {
        return Err(Refusal::Length);
    }
    if stream.len() / 3 < need {
        return Err(Refusal::Length);
    }
    if set.n < need {
        return Err(Refusal::Length);
    }
    positions_stretch(
        stream,
        set.position_bits,
        set.n as u32,
        0,
        positions,
        signs,
        0,
    );
    Ok(())
}

// Values for a from a lent stream, as many as out has places: candidates of 4 bytes, low 29 bits, below q.
pub fn take_a(stream: &[u8], out: &mut [u32]) -> Result<(), Refusal>
    ensures { TakesA set_i stream.now out.old out.new (number_of result) }
{
    lent_a(SetI::numbers(), stream, out)
}

// Values for y from a lent stream, as many as out has places: candidates of 3 bytes, low 20 bits, from 0 to 2B, each less B.
pub fn take_y(stream: &[u8], out: &mut [i32]) -> Result<(), Refusal>
    ensures { TakesY set_i stream.now out.old out.new (number_of result) }
{
    lent_y(SetI::numbers(), stream, out)
}

// Positions with signs from a lent stream, as many as there are places: candidates of 3 bytes, low 10 bits. In two arrays, as C lends them.
pub fn take_positions(stream: &[u8], positions: &mut [u16], signs: &mut [i8]) -> Result<(), Refusal>
    ensures { TakesPositions set_i stream.now positions.old signs.old positions.new signs.new (number_of result) }
{
    lent_positions(SetI::numbers(), stream, positions, signs)
}
