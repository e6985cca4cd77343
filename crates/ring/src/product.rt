// The plain product of two polynomials modulo q, with xⁿ = −1, one coefficient at a time.
ghost use Rattle.std.specs.Prelude.{◌≡◌, ◌+◌, ◌*◌, ◌≤◌, ◌<◌, ◌^◌, length};
ghost use Rattle.whole.specs.Residue.{residue};
ghost use Rattle.ring.specs.Product.{mul};
ghost use Rattle.ring.specs.Lists.{naturals, residues};
ghost use Rattle.ring.specs.Asks.{crossed, Factors, Multiple, Kept, Addend, Foldable, Row};

// sum + x · y, less `multiple` where it comes to that.
fn added(sum: u64, x: u32, y: u32, multiple: u64) -> u64
    requires { Addend multiple sum x y }
    ensures { Kept multiple (sum + x * y) result }
{
    let s = sum + u64::from(x) * u64::from(y);
    if s >= multiple { s - multiple } else { s }
}

// acc + Σ x_i · y_(len−1−i), up to multiples of `multiple`.
fn fold(x: &[u32], y: &[u32], acc: u64, multiple: u64) -> u64
    requires { Foldable multiple acc x.now y.now }
    ensures { Kept multiple (acc + crossed x.now y.now) result }
{
    let mut sum = acc;
    for (a, b) in x.iter().zip(y.iter().rev()) {
        sum = added(sum, *a, *b, multiple);
    }
    sum
}

// Coefficient k of a · b modulo q: Σ a_i · b_(k−i) over i ≤ k, less Σ a_i · b_(n+k−i) over the i above k.
fn row(a: &[u32], b: &[u32], q: u32, multiple: u64, k: usize) -> u32
    requires { Row q multiple a.now b.now k }
    ensures { result ≡ residue q (mul (length a.now) (naturals a.now) (naturals b.now) k) }
{
    let (a_upto, a_above) = a.split_at(k + 1);
    let (b_upto, b_above) = b.split_at(k + 1);
    let wrapped = fold(a_above, b_above, 0, multiple);
    let sum = fold(a_upto, b_upto, multiple - wrapped, multiple);
    // `as`, since std has no From for it: the check proves that nothing is lost.
    (sum % u64::from(q)) as u32
}

// The largest multiple of q that is at most 2^63.
fn multiple_of(q: u32) -> u64
    requires { (0 < q) × (q ≤ 2 ^ 31) }
    ensures { Multiple q result }
{
    (1 << 63) / u64::from(q) * u64::from(q)
}

// out = a · b modulo q: n coefficients from 0 to q − 1, as a and b hold them.
pub fn multiply(a: &[u32], b: &[u32], q: u32, out: &mut [u32])
    requires { Factors q a.now b.now out.old }
    ensures { out.new ≡ residues q (length out.old) (mul (length out.old) (naturals a.now) (naturals b.now)) }
{
    let multiple = multiple_of(q);
    for (k, place) in out.iter_mut().enumerate() {
        *place = row(a, b, q, multiple, k);
    }
}
