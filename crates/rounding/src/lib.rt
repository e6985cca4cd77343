// The high part of a residue, and the two tests on w, for any q and d.

#![tactic(auto)]

pub mod polynomial;

ghost use Rattle.std.specs.Prelude.{◌≡◌, ◌<◌, ◌^◌, pos, neg_ℤ, nat_abs};
ghost use Rattle.rounding.specs.Centred.{centred};
ghost use Rattle.rounding.specs.Parts.{low, high};
ghost use Rattle.rounding.specs.Tests.{Half, Rounds, low_passes, size_passes};

// −m.
fn negative(m: u32) -> i32
    requires { m < 2 ^ 31 }
    ensures { result ≡ neg_ℤ (pos m) }
{
    // `as`, since std has no From for it: the check proves that nothing is lost.
    -(m as i32)
}

// 2^(d−1).
fn half_step(d: u32) -> u32
    requires { (0 < d) × (d < 31) }
    ensures { Half d result }
{
    1 << (d - 1)
}

// |v| with v centred by q.
fn magnitude(v: u32, q: u32) -> u32
    requires { v < q }
    ensures { result ≡ nat_abs (centred q (pos v)) }
{
    if v <= q / 2 { v } else { q - v }
}

// The high part of the residue v.
fn high_of(v: u32, q: u32, d: u32) -> i32
    requires { Rounds q d v }
    ensures { result ≡ high q d (pos v) }
{
    let half = half_step(d);
    let middle = q / 2;
    if v <= middle {
        ((v + (half - 1)) >> d) as i32
    } else {
        negative(((q - v) + half) >> d)
    }
}

// |low part| of the residue w.
fn low_magnitude(w: u32, q: u32, d: u32) -> u32
    requires { Rounds q d w }
    ensures { result ≡ nat_abs (low q d (pos w)) }
{
    let half = half_step(d);
    let rest = magnitude(w, q) & (half + half - 1);
    if rest <= half {
        rest
    } else {
        half + half - rest
    }
}

// The first test on w: its |low part| is below 2^(d−1) − bound.
fn low_passes(w: u32, q: u32, d: u32, bound: u32) -> bool
    requires rounds { Rounds q d w }
    requires bound_bound { bound < 2 ^ 31 }
    ensures { result ≡ low_passes q d bound (pos w) }
{
    low_magnitude(w, q, d) + bound < half_step(d)
}

// The second test on w: |w| is below floor(q/2) − bound.
fn size_passes(w: u32, q: u32, bound: u32) -> bool
    requires w_lt_q { (w < q) × (q < 2 ^ 31) }
    requires bound_bound { bound < 2 ^ 31 }
    ensures { result ≡ size_passes q bound (pos w) }
{
    magnitude(w, q) + bound < q / 2
}
