// The numbers of a set of parameters with the fresh sponges of its streams, the lengths and limits that no set changes, and the two sets:
// set I, qTESLA-p-I, and set III, qTESLA-p-III. The entries work in set I; no entry takes set III yet.
#![tactic(auto)]

ghost use Rattle.std.specs.Prelude.{◌≡◌, ◌<◌};
ghost use Rattle.std.specs.Coded.{Coded-set};
ghost use Rattle.sets.specs.Good.{Good};
ghost use Rattle.sets.specs.Known.{Known, known_prop};
ghost use Rattle.sets.specs.Marks.{stream_number, fresh};
ghost use Rattle.sets.specs.SetI.{set_i, set_i_good};
ghost use Rattle.sets.specs.SetIII.{set_iii, set_iii_good};

use shake::Sponge;

// Seeds, r, rand and c' have 32 bytes, G of the message and g have 40.
pub const SEED_BYTES: usize = 32;

pub const DIGEST_BYTES: usize = 40;

// The longest message, in bytes.
pub const MESSAGE_LIMIT: usize = 32768;

// The longest roster of an envelope, in bytes: the two of its team number are signed with it.
pub const ROSTER_LIMIT: usize = 32766;

// The largest budget of counters.
pub const BUDGET_LIMIT: u32 = 1024;

// What a part of the scheme takes from its set. That they are good is a clause of the functions that need it, and not a fact of the type:
// others take any numbers.
#[derive(Clone, Copy)]
pub struct Numbers {
    // coefficients of a polynomial
    pub n: usize,
    // polynomials a_i, e_i, t_i
    pub k: usize,
    // the modulus
    pub q: u32,
    // entries of c that are +1 or −1
    pub h: usize,
    // the bound of checkE
    pub e: u32,
    // the bound of checkS
    pub s: u32,
    // y runs from −b to b
    pub b: u32,
    // a low part is taken by 2^d
    pub d: u32,
    // bits of a coefficient of t and of a
    pub t_bits: u32,
    // bits of a coefficient of z and of y
    pub z_bits: u32,
    // bits of a position
    pub position_bits: u32,
    // the first digit of the second byte of each mark, a number since the marks hold it
    pub digit: u8,
}

// The streams of SHAKE256, each of which begins with a mark of its own.
#[derive(Clone, Copy, Debug, PartialEq, Eq)]
pub enum Stream {
    // a_1..a_k from seed_a
    A,
    // y from rand and the counter
    Y,
    // rand
    Rand,
    // G of the message
    Message,
    // g of the packed t_1..t_k
    Key,
    // c' of the high parts
    Challenge,
    // Enc of c'
    Enc,
}

impl From<Stream> for u8 {
    // The number of the stream, the second digit of its mark's second byte.
    ghost from_gives = { λ stream r. r ≡ stream_number stream };

    fn from(stream: Stream) -> u8 {
        match stream {
            Stream::A => 1,
            Stream::Y => 2,
            Stream::Rand => 3,
            Stream::Message => 4,
            Stream::Key => 5,
            Stream::Challenge => 6,
            Stream::Enc => 7,
        }
    }
}

impl Numbers {
    // The fresh sponge of the stream: it has absorbed the stream's mark in this set.
    pub fn fresh(self, stream: Stream) -> Sponge
        requires { self.digit < 16 }
        ensures { result ≡ fresh self.digit (stream_number stream) }
    {
        let mark = [0x53, 16 * self.digit + u8::from(stream)];
        Sponge::blank().absorb(&mark)
    }
}

// A set of parameters as a type: the numbers stand with it, and are good.
pub trait Parameters {
    ghost use Rattle.sets.specs.declared.Numbers.{Numbers};

    ghost SET: { Numbers };

    // Its numbers as one value.
    const SET: Numbers;

    fn numbers() -> Numbers
        ensures { result ≡ SET }
    {
        Self::SET
    }

    // The fresh sponge of one of its streams. Nothing is asked: `good` says that the digit fits a mark.
    fn fresh(stream: Stream) -> Sponge
        ensures { result ≡ fresh SET.digit (stream_number stream) }
    {
        Self::numbers().fresh(stream)
    }

    ghost good: { Good SET };
}

// qTESLA-p-I.
#[derive(Drop)]
pub struct SetI {}

impl SetI {
    pub const N: usize = 1024;

    pub const K: usize = 4;

    // the coefficients of k polynomials in a row
    pub const KN: usize = SetI::K * SetI::N;

    pub const Q: u32 = 343576577;

    pub const H: usize = 25;

    pub const E: u32 = 554;

    pub const S: u32 = 554;

    pub const B: u32 = 524287;

    pub const D: u32 = 22;

    pub const T_BITS: u32 = 29;

    pub const Z_BITS: u32 = 20;

    pub const POSITION_BITS: u32 = 10;

    pub const DIGIT: u8 = 1;
}

impl Parameters for SetI {
    ghost SET = { set_i };

    ghost good = { set_i_good };

    const SET: Numbers = Numbers {
        n: SetI::N,
        k: SetI::K,
        q: SetI::Q,
        h: SetI::H,
        e: SetI::E,
        s: SetI::S,
        b: SetI::B,
        d: SetI::D,
        t_bits: SetI::T_BITS,
        z_bits: SetI::Z_BITS,
        position_bits: SetI::POSITION_BITS,
        digit: SetI::DIGIT,
    };
}

// qTESLA-p-III.
#[derive(Drop)]
pub struct SetIII {}

impl SetIII {
    pub const N: usize = 2048;

    pub const K: usize = 5;

    pub const KN: usize = SetIII::K * SetIII::N;

    pub const Q: u32 = 856145921;

    pub const H: usize = 40;

    pub const E: u32 = 901;

    pub const S: u32 = 901;

    pub const B: u32 = 2097151;

    pub const D: u32 = 24;

    pub const T_BITS: u32 = 30;

    pub const Z_BITS: u32 = 22;

    pub const POSITION_BITS: u32 = 11;

    pub const DIGIT: u8 = 3;
}

impl Parameters for SetIII {
    ghost SET = { set_iii };

    ghost good = { set_iii_good };

    const SET: Numbers = Numbers {
        n: SetIII::N,
        k: SetIII::K,
        q: SetIII::Q,
        h: SetIII::H,
        e: SetIII::E,
        s: SetIII::S,
        b: SetIII::B,
        d: SetIII::D,
        t_bits: SetIII::T_BITS,
        z_bits: SetIII::Z_BITS,
        position_bits: SetIII::POSITION_BITS,
        digit: SetIII::DIGIT,
    };
}

// One of the sets that the entries work in. Where scratch is made the set is chosen by its digit: an enum beside it would say the same twice.
#[derive(Clone, Copy)]
pub struct Set {
    pub numbers: Numbers,
    ghost good: { Good numbers },
    ghost known: { Known numbers } by { known_prop numbers (Coded-set numbers-code) },
}

impl Set {
    // Set I.
    pub fn i() -> Set
        ensures { result.numbers ≡ set_i }
    {
        Set {
            numbers: SetI::numbers(),
        }
    }
}
