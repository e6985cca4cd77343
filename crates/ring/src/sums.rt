// Sums and differences of polynomials coefficient by coefficient, in place on lent slices, with no division.
ghost use Rattle.std.specs.Prelude.{◌≡◌, length, pos, ◌+ℤ◌, ◌-ℤ◌};
ghost use Rattle.std.specs.List.{AllZip, zip};
ghost use Rattle.whole.specs.Residue.{residue};
ghost use Rattle.whole.specs.Table.{table};
ghost use Rattle.ring.specs.Lists.{naturals, integers, signed_bytes, residues};
ghost use Rattle.ring.specs.Asks.{Taken, Added, WithBytes, WithSmall, TwoResidues, Summands, Small, Bytes};

use crate::signed_byte;

// a − b modulo q.
fn minus(a: u32, b: u32, q: u32) -> u32
    requires { Taken q a b }
    ensures { result ≡ residue q (pos a -ℤ pos b) }
{
    if b <= a { a - b } else { a + q - b }
}

// v + x modulo q.
fn plus(v: u32, x: i32, q: u32) -> u32
    requires { Added q v x }
    ensures { result ≡ residue q (pos v +ℤ x) }
{
    if x < 0 {
        minus(v, x.unsigned_abs(), q)
    } else {
        let s = v + x.unsigned_abs();
        if s < q { s } else { s - q }
    }
}

// f(x, y) in the place of each x of `to`, with the y of `from` beside it.
fn update<T: Copy, U: Copy, F: Fn(T, U) -> T>(to: &mut [T], from: &[U], f: F)
    requires { AllZip (λ x y. F.pre f x y) to.old from.now }
    ensures { AllZip (λ (p : T × U) z. F.post f p.0 p.1 z) (zip to.old from.now) to.new }
{
    // by place: of what is written through `iter_mut().zip(from)` a proof knows only the length
    for (i, x) in to.iter_mut().enumerate() {
        *x = f(*x, from[i]);
    }
}

// t + e modulo q, in t: t holds residues, e signed bytes.
pub fn add_bytes(t: &mut [u32], e: &[u8], q: u32)
    requires { WithBytes q t.old e.now }
    ensures { t.new ≡ residues q (length t.old) (λ k. naturals t.old k +ℤ signed_bytes e.now k) }
{
    update(t, e, |v, b| plus(v, signed_byte(b), q));
}

// v − x modulo q, in v: v holds residues, x numbers from −q to q.
pub fn subtract_small(v: &mut [u32], x: &[i32], q: u32)
    requires { WithSmall q v.old x.now }
    ensures { v.new ≡ residues q (length v.old) (λ k. naturals v.old k -ℤ integers x.now k) }
{
    update(v, x, |v, x| plus(v, -x, q));
}

// a − b modulo q, in a: both hold residues.
pub fn subtract(a: &mut [u32], b: &[u32], q: u32)
    requires { TwoResidues q a.old b.now }
    ensures { a.new ≡ residues q (length a.old) (λ k. naturals a.old k -ℤ naturals b.now k) }
{
    update(a, b, |a, b| minus(a, b, q));
}

// y + x, not reduced, in y.
pub fn add_exact(y: &mut [i32], x: &[i32])
    requires { Summands y.old x.now }
    ensures { y.new ≡ table (length y.old) (λ k. integers y.old k +ℤ integers x.now k) }
{
    update(y, x, |y, x| y + x);
}

// z modulo q, in out, whatever out held: z holds numbers from −q to q.
pub fn residues_of(z: &[i32], q: u32, out: &mut [u32])
    requires { Small q z.now out.old }
    ensures { out.new ≡ residues q (length out.old) (integers z.now) }
{
    update(out, z, |_, x| plus(0, x, q));
}

// The signed bytes s modulo q, in out, whatever out held.
pub fn residues_of_bytes(s: &[u8], q: u32, out: &mut [u32])
    requires { Bytes q s.now out.old }
    ensures { out.new ≡ residues q (length out.old) (signed_bytes s.now) }
{
    update(out, s, |_, b| plus(0, signed_byte(b), q));
}
