// Two's complement at b bits: a polynomial's whole numbers as the values that are packed, and back.
ghost use Rattle.std.specs.Prelude.{◌≡◌, map, ◌^◌, ◌<◌};
ghost use Rattle.whole.specs.Twos.{signed, twos};
ghost use Rattle.packing.specs.Twos.{ToBits, FromBits};

// The b bits of z: z itself, or z + 2^b where z is negative.
fn bits_of(z: i32, b: u32) -> u32
    requires { b < 32 }
    ensures { result ≡ twos b z }
{
    z.cast_unsigned() & ((1 << b) - 1)
}

// What the b bits x stand for: x itself below 2^(b−1), and x − 2^b from there on.
fn value_of(x: u32, b: u32) -> i32
    requires b_nonzero { (0 < b) × (b < 32) }
    requires x_bound { x < 2 ^ b }
    ensures { result ≡ signed b x }
{
    if x < 1 << (b - 1) {
        // `as`, since std has no From for it: the check proves that nothing is lost.
        x as i32
    } else {
        (i64::from(x) - (1 << b)) as i32
    }
}

// out_k = the b bits of z_k.
pub fn to_bits(z: &[i32], b: u32, out: &mut [u32])
    requires { ToBits b z.now out.old }
    ensures { out.new ≡ map (twos b) z.now }
{
    for (k, n) in z.iter().enumerate() {
        out[k] = bits_of(*n, b);
    }
}

// out_k = what the b bits x_k stand for.
pub fn from_bits(x: &[u32], b: u32, out: &mut [i32])
    requires { FromBits b x.now out.old }
    ensures { out.new ≡ map (signed b) x.now }
{
    for (k, bits) in x.iter().enumerate() {
        out[k] = value_of(*bits, b);
    }
}
