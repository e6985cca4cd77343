// Commitment: y of the counter, v_i = a_i y, and the high parts of v_1..v_k.
ghost use Rattle.std.specs.Prelude.{◌≡◌};
ghost use Rattle.whole.specs.Table.{joined};
ghost use Rattle.sampling.specs.Streams.{highs_of};
ghost use Rattle.records.specs.Layout.{polynomial};
ghost use Rattle.highs.specs.Highs.{Held};
ghost use Rattle.attempts.specs.Steps.{product_of};
ghost use Rattle.attempts.specs.Promises.{Committed};
ghost use Rattle.attempts.specs.Asks.{Multiplies, Absorbs, Commits};

use highs::Highs;
use sets::{Numbers, SEED_BYTES, Set};

// v_1..v_k in a row, v_i = a_i y modulo q: yr holds y modulo q.
fn products(set: Numbers, a: &[u32], yr: &[u32], v: &mut [u32])
    requires { Multiplies set a.now yr.now v.old }
    ensures { v.new ≡ joined set.k (product_of set a.now yr.now) }
{
    // By index: the contract of `chunks_exact_mut` does not say what v holds afterwards.
    let n = set.n;
    for i in 0..set.k {
        let start = n * i;
        let end = start + n;
        ring::product::multiply(&a[start..end], yr, set.q, &mut v[start..end]);
    }
}

// The high parts of v_1..v_k, i then coefficient, absorbed.
fn absorb_highs(set: Set, v: &[u32]) -> Highs
    requires { Absorbs set.numbers v.now }
    ensures { Held set.numbers (highs_of set.numbers (λ i. polynomial set.numbers.n i v.now)) result }
{
    let mut highs = highs::no_highs(set.numbers);
    for v_i in v.chunks_exact(set.numbers.n) {
        highs = highs::add_highs(set, highs, v_i);
    }
    highs
}

// What is made before c' is known: y of the counter, v_1..v_k, and the high parts of v_1..v_k, absorbed. yr takes y modulo q.
pub(crate) fn commit(
    set: Set,
    a: &[u32],
    rand: &[u8; SEED_BYTES],
    counter: u16,
    y: &mut [i32],
    yr: &mut [u32],
    v: &mut [u32],
) -> Highs
    requires { Commits set.numbers a.now y.old yr.old v.old }
    ensures { Committed set.numbers a.now rand.now counter y.new v.new result }
{
    sampling::drawn::draw_y(set.numbers, rand, counter, y);
    ring::sums::residues_of(y, set.numbers.q, yr);
    products(set.numbers, a, yr, v);
    absorb_highs(set, v)
}
