// The high parts and the two tests of a whole polynomial w of residues by q.
ghost use Rattle.std.specs.Prelude.{◌≡◌, map, pos};
ghost use Rattle.whole.specs.Every.{every};
ghost use Rattle.whole.specs.Twos.{twos};
ghost use Rattle.rounding.specs.Parts.{high};
ghost use Rattle.rounding.specs.Tests.{low_passes, size_passes, fits_byte};
ghost use Rattle.rounding.specs.Asks.{HighBytes, LowTests, SizeTests};

use crate::{high_of, low_passes, size_passes};

// out_k = the high part of w_k as a signed byte, for every k. Answers whether every high part fits its byte.
pub fn high_bytes(w: &[u32], q: u32, d: u32, out: &mut [u8]) -> bool
    requires { HighBytes q d w.now out.old }
    ensures value { result ≡ every (λ x. fits_byte (high q d (pos x))) w.now }
    ensures out_after { out.new ≡ map (λ x. twos 8 (high q d (pos x))) w.now }
{
    let mut fits = true;
    for (k, x) in w.iter().enumerate() {
        let h = high_of(*x, q, d);
        out[k] = h.to_le_bytes()[0];
        fits &= i8::try_from(h).is_ok();
    }
    fits
}

// Whether every |low part| of w is below 2^(d−1) − bound: the first test on w.
pub fn all_low(w: &[u32], q: u32, d: u32, bound: u32) -> bool
    requires { LowTests q d bound w.now }
    ensures { result ≡ every (λ x. low_passes q d bound (pos x)) w.now }
{
    w.iter().all(|x| low_passes(*x, q, d, bound))
}

// Whether every |w_k|, centred by q, is below floor(q/2) − bound: the second test on w.
pub fn all_sized(w: &[u32], q: u32, bound: u32) -> bool
    requires { SizeTests q bound w.now }
    ensures { result ≡ every (λ x. size_passes q bound (pos x)) w.now }
{
    w.iter().all(|x| size_passes(*x, q, bound))
}
