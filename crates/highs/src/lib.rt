// What H takes first: the high parts of polynomials, one signed byte each, absorbed one polynomial after another. The signer has those of
// v_1..v_k, the receiver those of w_1..w_k.
#![tactic(auto)]

ghost use Rattle.std.specs.Prelude.{◌≡◌, []};
ghost use Rattle.sets.specs.Good.{Good};
ghost use Rattle.sampling.specs.Residues.{Residues};
ghost use Rattle.highs.specs.Highs.{Held, Adds, Hashes};
ghost use Rattle.highs.specs.Asks.{Absorbs};

use sets::{Numbers, SEED_BYTES, Set, SetI, Stream};
use shake::Sponge;

#[derive(Drop)]
pub struct Highs {
    // the state of stream 6 that has absorbed them
    pub state: Sponge,
    // whether each of them fits a signed byte; the state is promised either way, so this is no Option
    pub fit: bool,
}

// None of them yet.
pub fn no_highs(set: Numbers) -> Highs
    requires { Good set }
    ensures { Held set [] result }
{
    Highs {
        state: set.fresh(Stream::Challenge),
        fit: true,
    }
}

// Those of one polynomial more. bytes takes them.
fn add_highs_in(set: Numbers, highs: Highs, v: &[u32], bytes: &mut [u8]) -> Highs
    requires { Absorbs set v.now bytes.old }
    ensures { Adds set highs v.now result }
{
    let state = highs.state;
    let fit = highs.fit;
    let fits = rounding::polynomial::high_bytes(v, set.q, set.d, bytes);
    Highs {
        state: state.absorb(bytes),
        fit: fit & fits,
    }
}

// The same with scratch of its own.
fn add_highs_of<const N: usize>(set: Set, highs: Highs, v: &[u32]) -> Highs
    requires n_is { set.numbers.n ≡ N }
    requires residues { Residues set.numbers v.now }
    ensures { Adds set.numbers highs v.now result }
{
    let mut bytes = [0u8; N];
    add_highs_in(set.numbers, highs, v, &mut bytes)
}

// The same in every set that there is.
#[tactic(auto, using(sets::specs::Known::n_i, sets::specs::Known::no_other))]
pub fn add_highs(set: Set, highs: Highs, v: &[u32]) -> Highs
    requires { Residues set.numbers v.now }
    ensures { Adds set.numbers highs v.now result }
{
    match set.numbers.digit {
        1 => add_highs_of::<{ SetI::N }>(set, highs, v),
        _ => unreachable!(),
    }
}

// c' of the high parts, G of the message and g.
pub fn hash(set: Numbers, highs: Highs, digest: &[u8], g: &[u8], c: &mut [u8; SEED_BYTES])
    requires { Good set }
    ensures { Hashes set highs digest.now g.now c.new }
{
    let state = highs.state;
    sampling::digests::challenge_of(state, digest, g, c);
}
