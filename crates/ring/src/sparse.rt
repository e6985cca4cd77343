// The product by a sparse polynomial c, given as positions with signs, in the two arrays that sampling fills for C too: modulo q, and exactly
// for signed bytes.
ghost use Rattle.std.specs.Prelude.{◌≡◌, ℤ, ◌<◌, ◌^◌, length, map, pos, nat_abs};
ghost use Rattle.whole.specs.Table.{table};
ghost use Rattle.whole.specs.Twos.{signed};
ghost use Rattle.ring.specs.Product.{turn, mul};
ghost use Rattle.ring.specs.Lists.{naturals, integers, signed_bytes, residues};
ghost use Rattle.ring.specs.Sparse.{sparse, turns};
ghost use Rattle.ring.specs.Asks.{Turnable, SparseProduct, ByteProduct};

use crate::signed_byte;

// A coefficient as a polynomial's slice holds it: a residue, or a signed byte.
trait Coefficient: Copy {
    // the number that it stands for
    ghost value: { Self → ℤ };

    fn value(self) -> i64
        ensures is { result ≡ value self }
        ensures small { nat_abs result < 2 ^ 32 };
}

impl Coefficient for u32 {
    ghost value = { pos };

    fn value(self) -> i64 {
        i64::from(self)
    }
}

impl Coefficient for u8 {
    ghost value = { signed 8 };

    fn value(self) -> i64 {
        i64::from(signed_byte(self))
    }
}

// Coefficient k of x^p · f.
fn turned<T: Coefficient>(f: &[T], p: usize, k: usize) -> i64
    requires { (p < length f.now) × (k < length f.now) }
    ensures is { result ≡ turn (length f.now) p (integers (map T.value f.now)) k }
    ensures small { nat_abs result < 2 ^ 32 }
{
    if p <= k {
        f[k - p].value()
    } else {
        -f[f.len() - (p - k)].value()
    }
}

// Coefficient k of f · c: Σ sign_j · coefficient k of x^(position_j) · f.
fn row<T: Coefficient>(f: &[T], positions: &[u16], signs: &[i8], k: usize) -> i64
    requires { Turnable (length f.now) positions.now signs.now k }
    ensures { result ≡ turns (length f.now) (integers (map T.value f.now)) positions.now signs.now k }
{
    let mut sum = 0;
    for (p, sign) in positions.iter().zip(signs) {
        sum += i64::from(*sign) * turned(f, usize::from(*p), k);
    }
    sum
}

// out = t · c modulo q: n coefficients from 0 to q − 1, as t holds them.
pub fn times(t: &[u32], q: u32, positions: &[u16], signs: &[i8], out: &mut [u32])
    requires { SparseProduct q t.now positions.now signs.now out.old }
    ensures { out.new ≡ residues q (length out.old) (mul (length out.old) (naturals t.now) (sparse positions.now signs.now)) }
{
    for (k, place) in out.iter_mut().enumerate() {
        // `as`, since std has no From for it: the check proves that nothing is lost.
        *place = row(t, positions, signs, k).rem_euclid(i64::from(q)) as u32;
    }
}

// out = s · c: n whole coefficients.
pub fn times_bytes(s: &[u8], positions: &[u16], signs: &[i8], out: &mut [i32])
    requires { ByteProduct s.now positions.now signs.now out.old }
    ensures { out.new ≡ table (length out.old) (mul (length out.old) (signed_bytes s.now) (sparse positions.now signs.now)) }
{
    for (k, place) in out.iter_mut().enumerate() {
        *place = row(s, positions, signs, k) as i32;
    }
}
