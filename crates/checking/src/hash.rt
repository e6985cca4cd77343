// The core of checking: w_i = a_i z − t_i c for one t_i after another, wherever it comes from, the high parts absorbed, and H against c'.
ghost use Rattle.std.specs.Prelude.{◌≡◌};
ghost use Rattle.whole.specs.Every.{same_bytes};
ghost use Rattle.answers.specs.Answers.{number_of};
ghost use Rattle.sets.specs.Good.{Good};
ghost use Rattle.checking.specs.Asks.{ForW, ForT, ForTIn};
ghost use Rattle.checking.specs.Steps.{IsW, Begun, OneMore, Judged};

use answers::Refusal;
use highs::Highs;
use sampling::drawn::DrawA;
use sets::{DIGEST_BYTES, Numbers, SEED_BYTES, Set, SetI};

// The receiver on its way through t_1..t_k.
#[derive(Drop)]
pub struct Walk {
    // stream 1, which gives a_(i + 1) next
    pub draw: DrawA,
    // the high parts of w_1..w_i
    pub highs: Highs,
}

// Before the first t_i.
pub(crate) fn begin(set: Numbers, seed_a: &[u8]) -> Walk
    requires { Good set }
    ensures { Begun set seed_a.now result }
{
    Walk {
        draw: sampling::drawn::start_a(set, seed_a),
        highs: highs::no_highs(set),
    }
}

// w = a z − t c modulo q, where zr holds z modulo q. a holds a, and takes t c.
fn one_w(
    set: Numbers,
    t: &[u32],
    zr: &[u32],
    positions: &[u16],
    signs: &[i8],
    a: &mut [u32],
    w: &mut [u32],
)
    requires { ForW set t.now zr.now positions.now signs.now a.old w.old }
    ensures { IsW set a.old t.now zr.now positions.now signs.now w.new }
{
    ring::product::multiply(a, zr, set.q, w);
    ring::sparse::times(t, set.q, positions, signs, a);
    ring::sums::subtract(w, a, set.q);
}

// The next t_i: t holds it, and zr holds z modulo q. a takes its a_i, w its w_i.
fn add_t_in(
    set: Set,
    walk: Walk,
    t: &[u32],
    zr: &[u32],
    positions: &[u16],
    signs: &[i8],
    a: &mut [u32],
    w: &mut [u32],
) -> Walk
    requires { ForTIn set.numbers walk.draw t.now zr.now positions.now signs.now a.old w.old }
    ensures { OneMore set.numbers walk t.now zr.now positions.now signs.now result }
{
    let before = walk.draw;
    let highs = walk.highs;
    let draw = sampling::drawn::next_a(set.numbers, before, a);
    one_w(set.numbers, t, zr, positions, signs, a, w);
    Walk {
        draw,
        highs: highs::add_highs(set, highs, w),
    }
}

// The same with scratch of its own.
fn add_t_of<const N: usize>(
    set: Set,
    walk: Walk,
    t: &[u32],
    zr: &[u32],
    positions: &[u16],
    signs: &[i8],
) -> Walk
    requires n_is { set.numbers.n ≡ N }
    requires for_t { ForT set.numbers walk.draw t.now zr.now positions.now signs.now }
    ensures { OneMore set.numbers walk t.now zr.now positions.now signs.now result }
{
    let mut a = [0u32; N];
    let mut w = [0u32; N];
    add_t_in(set, walk, t, zr, positions, signs, &mut a, &mut w)
}

// The same in every set that there is.
#[tactic(auto, using(sets::specs::Known::n_i, sets::specs::Known::no_other))]
pub(crate) fn add_t(
    set: Set,
    walk: Walk,
    t: &[u32],
    zr: &[u32],
    positions: &[u16],
    signs: &[i8],
) -> Walk
    requires { ForT set.numbers walk.draw t.now zr.now positions.now signs.now }
    ensures { OneMore set.numbers walk t.now zr.now positions.now signs.now result }
{
    match set.numbers.digit {
        1 => add_t_of::<{ SetI::N }>(set, walk, t, zr, positions, signs),
        _ => unreachable!(),
    }
}

// Whether a and b hold the same bytes.
#[tactic(auto, using(crate::proofs::Same::same_is))]
fn same_bytes(a: &[u8], b: &[u8]) -> bool
    ensures { result ≡ same_bytes a.now b.now }
{
    a == b
}

// The tests 10 and 11: every high part fits its byte, and H of them, of G of the message and of g is c'.
pub(crate) fn judge(
    set: Numbers,
    highs: Highs,
    digest: &[u8; DIGEST_BYTES],
    g: &[u8; DIGEST_BYTES],
    c: &[u8],
) -> Result<(), Refusal>
    requires { Good set }
    ensures { Judged set highs digest.now g.now c.now (number_of result) }
{
    let fit = highs.fit;
    if !fit {
        return Err(Refusal::High);
    }
    let mut found = [0u8; SEED_BYTES];
    highs::hash(set, highs, digest, g, &mut found);
    if !same_bytes(&found, c) {
        return Err(Refusal::Hash);
    }
    Ok(())
}
