// The round constants, by the shift register of FIPS 202. R is its eight bits, each in a word of 64 bits.
ghost use Rattle.std.specs.Prelude.{◌≡◌, ℕ, ◌<◌, ◌+◌, ◌*◌, get_or};
ghost use Rattle.keccak.specs.Constants.{turn, register, round_constant};

// Algorithm 5, step 3: x · R modulo x⁸ + x⁶ + x⁵ + x⁴ + 1, where R[i] is the coefficient of xⁱ. `top` is the R[8] of that step.
fn turn(r: [u64; 8]) -> [u64; 8]
    ensures { result ≡ turn r }
{
    let top = r[7];
    [
        0 ^ top,
        r[0],
        r[1],
        r[2],
        r[3] ^ top,
        r[4] ^ top,
        r[5] ^ top,
        r[6],
    ]
}

// RC of round i, by Algorithm 6, steps 2 and 3: RC[2^j - 1] = R[0], and a turn, for j from 0 to 6. R goes on to round i + 1.
fn of_round(r: &mut [u64; 8], i: usize) -> u64
    requires i_bound { i < 24 }
    requires r_value { r.old ≡ register (7 * i) }
    ensures constant { result ≡ round_constant i }
    ensures register { r.new ≡ register (7 * (i + 1)) }
{
    let mut constant: u64 = 0;
    for j in 0..7u32 {
        let place: usize = (1 << j) - 1;
        constant |= r[0] << place;
        *r = turn(*r);
    }
    constant
}

// RC of the rounds 0 to 23: one register, carried through the rounds from R = 10000000.
// Three rounds to a pass: a loop of eight passes the compiler computes beforehand, and one of 24 it does not.
pub(crate) fn all() -> [u64; 24]
    ensures { (i : ℕ) → i < 24 → get_or result i 0 ≡ round_constant i }
{
    let mut constants = [0; 24];
    let mut r = [1, 0, 0, 0, 0, 0, 0, 0];
    for i in (0..24).step_by(3) {
        constants[i] = of_round(&mut r, i);
        constants[i + 1] = of_round(&mut r, i + 1);
        constants[i + 2] = of_round(&mut r, i + 2);
    }
    constants
}
