// t_i = a_i s + e_i, one i after another, each into its own stretch of the public record.
ghost use Rattle.std.specs.Prelude.{◌≡◌};
ghost use Rattle.keys.specs.Asks.{Places, ForT, ForNext, ForOne, ForPut, ForPublic};
ghost use Rattle.keys.specs.Key.{sum_of, public_of};
ghost use Rattle.keys.specs.Promises.{OneMore, PutsOne, PutsT};

use sampling::drawn::DrawA;
use sets::{Numbers, Set, SetI};

// t = a s + e modulo q. sr takes s modulo q.
fn sum_of(set: Numbers, a: &[u32], s: &[u8], e: &[u8], sr: &mut [u32], t: &mut [u32])
    requires { ForT set a.now s.now e.now sr.old t.old }
    ensures { t.new ≡ sum_of set a.now s.now e.now }
{
    ring::sums::residues_of_bytes(s, set.q, sr);
    ring::product::multiply(a, sr, set.q, t);
    ring::sums::add_bytes(t, e, set.q);
}

// t = a s + e modulo q for the stream's next a, and the stream after it. a takes that a, sr takes s modulo q.
fn next_t(
    set: Numbers,
    draw: DrawA,
    s: &[u8],
    e: &[u8],
    a: &mut [u32],
    sr: &mut [u32],
    t: &mut [u32],
) -> DrawA
    requires for_next { ForNext set draw s.now e.now }
    requires places { Places set a.old sr.old t.old }
    ensures { OneMore set draw s.now e.now t.new result }
{
    let next = sampling::drawn::next_a(set, draw, a);
    sum_of(set, a, s, e, sr, t);
    next
}

// Writes t = a s + e for the stream's next a, packed into the stretch of t_(i + 1), and answers the stream after it. a, sr and t take
// the polynomials.
fn put_next_in(
    set: Numbers,
    draw: DrawA,
    s: &[u8],
    e: &[u8],
    i: usize,
    a: &mut [u32],
    sr: &mut [u32],
    t: &mut [u32],
    public: &mut [u8],
) -> DrawA
    requires for_one { ForOne set draw s.now e.now i public.old }
    requires places { Places set a.old sr.old t.old }
    ensures { PutsOne set draw s.now e.now i public.old public.new result }
{
    let next = next_t(set, draw, s, e, a, sr, t);
    records::public::pack_t(set, t, i, public);
    next
}

// The same with places of its own for the polynomials.
fn put_next_of<const N: usize>(
    set: Set,
    draw: DrawA,
    s: &[u8],
    e: &[u8],
    i: usize,
    public: &mut [u8],
) -> DrawA
    requires n_is { set.numbers.n ≡ N }
    requires for_one { ForOne set.numbers draw s.now e.now i public.old }
    ensures { PutsOne set.numbers draw s.now e.now i public.old public.new result }
{
    let mut a = [0u32; N];
    let mut sr = [0u32; N];
    let mut t = [0u32; N];
    put_next_in(set.numbers, draw, s, e, i, &mut a, &mut sr, &mut t, public)
}

// The same in every set that there is.
#[tactic(auto, using(sets::specs::Known::n_i, sets::specs::Known::no_other))]
fn put_next(set: Set, draw: DrawA, s: &[u8], e: &[u8], i: usize, public: &mut [u8]) -> DrawA
    requires { ForOne set.numbers draw s.now e.now i public.old }
    ensures { PutsOne set.numbers draw s.now e.now i public.old public.new result }
{
    match set.numbers.digit {
        1 => put_next_of::<{ SetI::N }>(set, draw, s, e, i, public),
        _ => unreachable!(),
    }
}

// Writes t_1..t_k, each packed into its own stretch of the public record. The mark and what follows stay.
fn put_t(set: Set, s: &[u8], e: &[u8], seed_a: &[u8], public: &mut [u8])
    requires { ForPut set.numbers s.now e.now public.old }
    ensures { PutsT set.numbers s.now e.now seed_a.now public.old public.new }
{
    let mut draw = sampling::drawn::start_a(set.numbers, seed_a);
    for (i, e_i) in e.chunks_exact(set.numbers.n).enumerate() {
        draw = put_next(set, draw, s, e_i, i, public);
    }
}

// Writes the public record of s, e_1..e_k and seed_a.
pub(crate) fn put_public(set: Set, s: &[u8], e: &[u8], seed_a: &[u8], public: &mut [u8])
    requires { ForPublic set.numbers s.now e.now seed_a.now public.old }
    ensures { public.new ≡ public_of set.numbers s.now e.now seed_a.now }
{
    records::pieces::write_mark(set.numbers, 1, public);
    put_t(set, s, e, seed_a, public);
    records::pieces::copy_at(seed_a, public, records::public::seed_start(set.numbers));
}
