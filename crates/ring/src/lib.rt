// Polynomials with xⁿ = −1, over a run-time n and q, on lent slices.
#![tactic(auto)]

pub mod largest;
pub mod product;
pub mod sparse;
pub mod sums;

ghost use Rattle.std.specs.Prelude.{◌≡◌, ◌≤◌, nat_abs};
ghost use Rattle.whole.specs.Twos.{signed};

// The number that the signed byte b stands for.
fn signed_byte(b: u8) -> i32
    ensures value { result ≡ signed 8 b }
    ensures small { nat_abs result ≤ 128 }
{
    i32::from(b.cast_signed())
}
