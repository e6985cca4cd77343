// Keccak-f[1600], the permutation of FIPS 202, on 25 lanes of 64 bits: lane (x, y) stands at x + 5 * y.
#![tactic(auto)]

mod constants;

ghost use Rattle.std.specs.Prelude.{◌≡◌};
ghost use Rattle.keccak.specs.Steps.{theta, rho, pi, chi, add_constant, keccak_f};

// Algorithm 1: c0 to c4 are the columns C[x], and d0 to d4 the D[x].
fn theta(a: [u64; 25]) -> [u64; 25]
    ensures { result ≡ theta a }
{
    let c0 = a[0] ^ a[5] ^ a[10] ^ a[15] ^ a[20];
    let c1 = a[1] ^ a[6] ^ a[11] ^ a[16] ^ a[21];
    let c2 = a[2] ^ a[7] ^ a[12] ^ a[17] ^ a[22];
    let c3 = a[3] ^ a[8] ^ a[13] ^ a[18] ^ a[23];
    let c4 = a[4] ^ a[9] ^ a[14] ^ a[19] ^ a[24];
    let d0 = c4 ^ c1.rotate_left(1);
    let d1 = c0 ^ c2.rotate_left(1);
    let d2 = c1 ^ c3.rotate_left(1);
    let d3 = c2 ^ c4.rotate_left(1);
    let d4 = c3 ^ c0.rotate_left(1);
    [
        a[0] ^ d0,
        a[1] ^ d1,
        a[2] ^ d2,
        a[3] ^ d3,
        a[4] ^ d4,
        a[5] ^ d0,
        a[6] ^ d1,
        a[7] ^ d2,
        a[8] ^ d3,
        a[9] ^ d4,
        a[10] ^ d0,
        a[11] ^ d1,
        a[12] ^ d2,
        a[13] ^ d3,
        a[14] ^ d4,
        a[15] ^ d0,
        a[16] ^ d1,
        a[17] ^ d2,
        a[18] ^ d3,
        a[19] ^ d4,
        a[20] ^ d0,
        a[21] ^ d1,
        a[22] ^ d2,
        a[23] ^ d3,
        a[24] ^ d4,
    ]
}

// Algorithms 2 and 3: each lane turned by its offset, and put where pi has it.
fn rho_pi(a: [u64; 25]) -> [u64; 25]
    ensures { result ≡ pi (rho a) }
{
    [
        a[0],
        a[6].rotate_left(44),
        a[12].rotate_left(43),
        a[18].rotate_left(21),
        a[24].rotate_left(14),
        a[3].rotate_left(28),
        a[9].rotate_left(20),
        a[10].rotate_left(3),
        a[16].rotate_left(45),
        a[22].rotate_left(61),
        a[1].rotate_left(1),
        a[7].rotate_left(6),
        a[13].rotate_left(25),
        a[19].rotate_left(8),
        a[20].rotate_left(18),
        a[4].rotate_left(27),
        a[5].rotate_left(36),
        a[11].rotate_left(10),
        a[17].rotate_left(15),
        a[23].rotate_left(56),
        a[2].rotate_left(62),
        a[8].rotate_left(55),
        a[14].rotate_left(39),
        a[15].rotate_left(41),
        a[21].rotate_left(2),
    ]
}

// Algorithm 4.
fn chi(a: [u64; 25]) -> [u64; 25]
    ensures { result ≡ chi a }
{
    [
        a[0] ^ (!a[1] & a[2]),
        a[1] ^ (!a[2] & a[3]),
        a[2] ^ (!a[3] & a[4]),
        a[3] ^ (!a[4] & a[0]),
        a[4] ^ (!a[0] & a[1]),
        a[5] ^ (!a[6] & a[7]),
        a[6] ^ (!a[7] & a[8]),
        a[7] ^ (!a[8] & a[9]),
        a[8] ^ (!a[9] & a[5]),
        a[9] ^ (!a[5] & a[6]),
        a[10] ^ (!a[11] & a[12]),
        a[11] ^ (!a[12] & a[13]),
        a[12] ^ (!a[13] & a[14]),
        a[13] ^ (!a[14] & a[10]),
        a[14] ^ (!a[10] & a[11]),
        a[15] ^ (!a[16] & a[17]),
        a[16] ^ (!a[17] & a[18]),
        a[17] ^ (!a[18] & a[19]),
        a[18] ^ (!a[19] & a[15]),
        a[19] ^ (!a[15] & a[16]),
        a[20] ^ (!a[21] & a[22]),
        a[21] ^ (!a[22] & a[23]),
        a[22] ^ (!a[23] & a[24]),
        a[23] ^ (!a[24] & a[20]),
        a[24] ^ (!a[20] & a[21]),
    ]
}

// Algorithm 6, with the round's constant.
fn iota(mut a: [u64; 25], constant: u64) -> [u64; 25]
    ensures { result ≡ add_constant a constant }
{
    a[0] ^= constant;
    a
}

// A round, section 3.3, with its constant.
fn round(a: [u64; 25], constant: u64) -> [u64; 25]
    ensures { result ≡ add_constant (chi (pi (rho (theta a)))) constant }
{
    iota(chi(rho_pi(theta(a))), constant)
}

// Keccak-f[1600].
pub fn permute(lanes: [u64; 25]) -> [u64; 25]
    ensures { result ≡ keccak_f lanes }
{
    constants::all().iter().copied().fold(lanes, round)
}
