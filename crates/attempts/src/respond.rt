// Response: z = y + s c and w_i = v_i − e_i c, with their tests.
ghost use Rattle.std.specs.Prelude.{◌≡◌};
ghost use Rattle.whole.specs.Every.{each_below};
ghost use Rattle.ring.specs.Sparse.{sparse};
ghost use Rattle.records.specs.Secret.{s_of, all_e};
ghost use Rattle.attempts.specs.Attempt.{w_passes};
ghost use Rattle.attempts.specs.Steps.{z_with, w_one, w_with};
ghost use Rattle.attempts.specs.Promises.{Responded};
ghost use Rattle.attempts.specs.Asks.{MakesZ, TestsOneW, TestsW, Responds, RespondsKey};

use sets::{Numbers, SEED_BYTES};

// Whether w_(i + 1) = v_(i + 1) − e_(i + 1) c passes its two tests: v and e hold one polynomial. w is left in v, e c in ec.
fn w_test(
    set: Numbers,
    e: &[u8],
    v: &mut [u32],
    positions: &[u16],
    signs: &[i8],
    ec: &mut [i32],
) -> bool
    requires { TestsOneW set e.now v.old positions.now signs.now ec.old }
    ensures { result ≡ w_passes set (w_one set e.now v.old (sparse positions.now signs.now)) }
{
    ring::sparse::times_bytes(e, positions, signs, ec);
    ring::sums::subtract_small(v, ec, set.q);
    rounding::polynomial::all_low(v, set.q, set.d, set.e)
        && rounding::polynomial::all_sized(v, set.q, set.e)
}

// Whether every w_i = v_i − e_i c passes its two tests. w_i is left in the place of v_i.
fn w_tests(
    set: Numbers,
    e: &[u8],
    v: &mut [u32],
    positions: &[u16],
    signs: &[i8],
    ec: &mut [i32],
) -> bool
    requires { TestsW set e.now v.old positions.now signs.now ec.old }
    ensures { result ≡ each_below set.k (λ i. w_passes set (w_with set e.now v.old (sparse positions.now signs.now) i)) }
{
    for (e_i, v_i) in e.chunks_exact(set.n).zip(v.chunks_exact_mut(set.n)) {
        if !w_test(set, e_i, v_i, positions, signs, ec) {
            return false;
        }
    }
    true
}

// z = y + s c, not reduced, in z, whatever z held.
fn make_z(set: Numbers, s: &[u8], y: &[i32], positions: &[u16], signs: &[i8], z: &mut [i32])
    requires { MakesZ set s.now y.now positions.now signs.now z.old }
    ensures { z.new ≡ z_with set s.now y.now (sparse positions.now signs.now) }
{
    ring::sparse::times_bytes(s, positions, signs, z);
    ring::sums::add_exact(z, y);
}

// What follows once c' is known: z = y + s c, left in z, and whether z and then every w_i = v_i − e_i c pass their tests, with c = Enc(c').
// y takes each e_i c, and the place of v_i takes w_i.
fn respond_in(
    set: Numbers,
    s: &[u8],
    e: &[u8],
    c: &[u8],
    y: &mut [i32],
    v: &mut [u32],
    positions: &mut [u16],
    signs: &mut [i8],
    z: &mut [i32],
) -> bool
    requires { Responds set s.now e.now y.old v.old positions.old signs.old z.old }
    ensures { Responded set s.now e.now c.now y.old v.old z.new result }
{
    sampling::drawn::draw_enc(set, c, positions, signs);
    make_z(set, s, y, positions, signs, z);
    if !signatures::z_in_range(set, z) {
        return false;
    }
    w_tests(set, e, v, positions, signs, y)
}

// The same with the s and e_1..e_k of the secret record. Makes the places for c.
pub(crate) fn respond(
    set: Numbers,
    secret: &[u8],
    c: &[u8; SEED_BYTES],
    y: &mut [i32],
    v: &mut [u32],
    z: &mut [i32],
) -> bool
    requires { RespondsKey set secret.now y.old v.old z.old }
    ensures { Responded set (s_of set secret.now) (all_e set secret.now) c.now y.old v.old z.new result }
{
    let h = set.h;
    let mut positions = [0u16; 256];
    let mut signs = [0i8; 256];
    let middle = records::secret::e_start(set);
    let end = records::secret::seed_a_start(set);
    respond_in(
        set,
        &secret[2..middle],
        &secret[middle..end],
        c,
        y,
        v,
        &mut positions[..h],
        &mut signs[..h],
        z,
    )
}
