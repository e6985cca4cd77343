// A polynomial's values packed at b bits each: coefficient 0 first, lowest bit of the lowest byte first.
#![tactic(auto)]

pub mod twos;

ghost use Rattle.std.specs.Prelude.{◌≡◌, ◌++◌, ◌+◌, ◌*◌, ◌%◌, ◌^◌, ◌≤◌, ◌<◌, length, drop};
ghost use Rattle.packing.specs.Digits.{Packs, Unpacks, bytes_for, packed, unpacked};

// acc, which has fewer than 32 bits, and v above them.
fn above(acc: u64, have: u32, v: u32) -> u64
    requires { (acc < 2 ^ have) × (have < 32) }
    ensures { result ≡ acc + 2 ^ have * v }
{
    acc + (u64::from(v) << have)
}

// The b low bits of acc.
pub fn low(acc: u64, b: u32) -> u32
    requires { b ≤ 32 }
    ensures { result ≡ acc % 2 ^ b }
{
    // `as`, since std has no From for it: the check proves that nothing is lost.
    (acc & ((1 << b) - 1)) as u32
}

// Writes vals at b bits into the front of out, the record from the polynomial's first byte on. What follows stays.
// A value fills at least one byte, so one refill serves.
pub fn pack(vals: &[u32], b: u32, out: &mut [u8])
    requires { Packs b vals.now out.old }
    ensures { out.new ≡ packed b vals.now ++ drop (bytes_for b (length vals.now)) out.old }
{
    let len = (b as usize * vals.len()).div_ceil(8);
    let mut values = vals.iter();
    let mut acc: u64 = 0;
    let mut have: u32 = 0;
    for byte in &mut out[..len] {
        if have < 8 {
            acc = above(acc, have, values.next().copied().unwrap_or(0));
            have += b;
        }
        *byte = (acc & 0xff) as u8;
        acc >>= 8;
        have -= 8;
    }
}

// Reads one polynomial: as many values of b bits as out has places. A byte completes at most one value.
pub fn unpack(src: &[u8], b: u32, out: &mut [u32])
    requires { Unpacks b src.now out.old }
    ensures { out.new ≡ unpacked b (length out.old) src.now }
{
    let mut acc: u64 = 0;
    let mut have: u32 = 0;
    let mut at = 0;
    for byte in src {
        acc = above(acc, have, u32::from(*byte));
        have += 8;
        if b <= have {
            out[at] = low(acc, b);
            at += 1;
            acc >>= b;
            have -= b;
        }
    }
}
