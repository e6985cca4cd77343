// The public record: mark 1, t_1..t_k at their width, seed_a.
ghost use Rattle.std.specs.Prelude.{◌≡◌, ◌++◌, ◌+◌, ◌*◌, take, drop};
ghost use Rattle.answers.specs.Answers.{number_of};
ghost use Rattle.answers.specs.Tests.{Answered};
ghost use Rattle.packing.specs.Digits.{packed};
ghost use Rattle.sets.specs.Good.{Good};
ghost use Rattle.records.specs.Layout.{t_bytes, public_bytes};
ghost use Rattle.records.specs.Public.{public_record, packed_t, t_of, all_t, t_in_range, public_tests, read_public_tests, write_public_tests};
ghost use Rattle.records.specs.Asks.{StartsT, ReadsT, PacksT, ScansT, LongPublic, ReadsAllT, PacksAllT, PutsPublic, TakesPublic};
ghost use Rattle.records.specs.Promises.{TookPublic, WritesPublic, ReadsPublic};

use crate::pieces;
use answers::Refusal;
use sets::{Numbers, SEED_BYTES, Set, SetI};

// The bytes of one packed t_i.
pub fn t_bytes(set: Numbers) -> usize
    requires { Good set }
    ensures { result ≡ t_bytes set }
{
    // `as`, since std has no From for it: the check proves that nothing is lost.
    (set.t_bits as usize * set.n).div_ceil(8)
}

// Where packed t_(i + 1) starts: after the mark and t_1..t_i.
fn t_start(set: Numbers, i: usize) -> usize
    requires { StartsT set i }
    ensures { result ≡ 2 + t_bytes set * i }
{
    2 + t_bytes(set) * i
}

// Where seed_a starts: after the mark and t_1..t_k.
pub fn seed_start(set: Numbers) -> usize
    requires { Good set }
    ensures { result ≡ 2 + set.k * t_bytes set }
{
    t_start(set, set.k)
}

// The bytes of a public record.
pub fn public_bytes(set: Numbers) -> usize
    requires { Good set }
    ensures { result ≡ public_bytes set }
{
    seed_start(set) + SEED_BYTES
}

// Whether every coefficient of t is from 0 to q − 1.
pub fn t_in_range(set: Numbers, t: &[u32]) -> bool
    ensures { result ≡ t_in_range set t.now }
{
    t.iter().all(|v| *v < set.q)
}

// out = t_(i + 1), read from its own stretch of the record.
#[tactic(auto, unfolding(crate::specs::Public::t_of))]
pub fn unpack_t(set: Numbers, public: &[u8], i: usize, out: &mut [u32])
    requires { ReadsT set public.now i out.old }
    ensures { out.new ≡ t_of set public.now i }
{
    let start = t_start(set, i);
    let end = start + t_bytes(set);
    packing::unpack(&public[start..end], set.t_bits, out);
}

// Writes t_(i + 1) into its own stretch of the record. What stands before and after it stays.
pub fn pack_t(set: Numbers, t: &[u32], i: usize, public: &mut [u8])
    requires { PacksT set t.now i public.old }
    ensures { public.new ≡ take (2 + t_bytes set * i) public.old ++ (packed set.t_bits t.now ++ drop (2 + t_bytes set * i + t_bytes set) public.old) }
{
    let start = t_start(set, i);
    packing::pack(t, set.t_bits, &mut public[start..]);
}

// Whether every coefficient of t_(i + 1) is from 0 to q − 1. scratch takes the polynomial.
fn passes(set: Numbers, public: &[u8], i: usize, scratch: &mut [u32]) -> bool
    requires { ReadsT set public.now i scratch.old }
    ensures { result ≡ t_in_range set (t_of set public.now i) }
{
    unpack_t(set, public, i, scratch);
    t_in_range(set, scratch)
}

// Whether every coefficient of the record's t_1..t_k is from 0 to q − 1. scratch takes one polynomial at a time.
fn t_passes_in(set: Numbers, public: &[u8], scratch: &mut [u32]) -> bool
    requires { ScansT set public.now scratch.old }
    ensures { result ≡ t_in_range set (all_t set public.now) }
{
    for i in 0..set.k {
        if !passes(set, public, i, scratch) {
            return false;
        }
    }
    true
}

// The same with scratch of its own, of N places.
fn t_passes_of<const N: usize>(set: Set, public: &[u8]) -> bool
    requires n_is { set.numbers.n ≡ N }
    requires long_public { LongPublic set.numbers public.now }
    ensures { result ≡ t_in_range set.numbers (all_t set.numbers public.now) }
{
    let mut scratch = [0u32; N];
    t_passes_in(set.numbers, public, &mut scratch)
}

// The same in every set that there is.
#[tactic(auto, using(sets::specs::Known::n_i, sets::specs::Known::no_other))]
pub fn t_passes(set: Set, public: &[u8]) -> bool
    requires { LongPublic set.numbers public.now }
    ensures { result ≡ t_in_range set.numbers (all_t set.numbers public.now) }
{
    match set.numbers.digit {
        1 => t_passes_of::<{ SetI::N }>(set, public),
        _ => unreachable!(),
    }
}

// The tests of a lent public record: its length, its mark, the range of t.
fn test_public(set: Set, public: &[u8]) -> Result<(), Refusal>
    ensures { Answered (public_tests set.numbers public.now) (number_of result) }
{
    if public.len() != public_bytes(set.numbers) {
        return Err(Refusal::Length);
    }
    if !pieces::is_marked(set.numbers, 1, public) {
        return Err(Refusal::Mark);
    }
    if !t_passes(set, public) {
        return Err(Refusal::Value);
    }
    Ok(())
}

// t = t_1..t_k of the record, in a row.
fn unpack_all(set: Numbers, public: &[u8], t: &mut [u32])
    requires { ReadsAllT set public.now t.old }
    ensures { t.new ≡ all_t set public.now }
{
    // By index: the contract of `chunks_exact_mut` does not say what t holds afterwards.
    let n = set.n;
    for i in 0..set.k {
        unpack_t(set, public, i, &mut t[n * i..n * i + n]);
    }
}

// Writes t_1..t_k, which stand in a row, each into its own stretch of the record. The mark and what follows stay.
fn pack_all(set: Numbers, t: &[u32], public: &mut [u8])
    requires { PacksAllT set t.now public.old }
    ensures { public.new ≡ take 2 public.old ++ (packed_t set t.now ++ drop (2 + set.k * t_bytes set) public.old) }
{
    for (i, t_i) in t.chunks_exact(set.n).enumerate() {
        pack_t(set, t_i, i, public);
    }
}

// Writes the record of t and seed_a.
fn put(set: Numbers, t: &[u32], seed_a: &[u8], public: &mut [u8])
    requires { PutsPublic set t.now seed_a.now public.old }
    ensures { public.new ≡ public_record set t.now seed_a.now }
{
    pieces::write_mark(set, 1, public);
    pack_all(set, t, public);
    pieces::copy_at(seed_a, public, seed_start(set));
}

// The tests of writing a record, the output by its length.
fn test_write(set: Numbers, t: &[u32], seed_a: &[u8], public: usize) -> Result<(), Refusal>
    requires { Good set }
    ensures { Answered (write_public_tests set t.now seed_a.now public) (number_of result) }
{
    if t.len() != set.k * set.n {
        return Err(Refusal::Length);
    }
    if seed_a.len() != SEED_BYTES {
        return Err(Refusal::Length);
    }
    if public != public_bytes(set) {
        return Err(Refusal::Length);
    }
    if !t_in_range(set, t) {
        return Err(Refusal::Value);
    }
    Ok(())
}

// Tests t, seed_a and the record's length, and writes the record.
pub(crate) fn write(
    set: Numbers,
    t: &[u32],
    seed_a: &[u8],
    public: &mut [u8],
) -> Result<(), Refusal>
    requires { Good set }
    ensures { WritesPublic set t.now seed_a.now public.old public.new (number_of result) }
{
    test_write(set, t, seed_a, public.len())?;
    put(set, t, seed_a, public);
    Ok(())
}

// The tests of reading a record into t and seed_a of these lengths.
fn test_read(set: Set, public: &[u8], t: usize, seed_a: usize) -> Result<(), Refusal>
    ensures { Answered (read_public_tests set.numbers public.now t seed_a) (number_of result) }
{
    if t != set.numbers.k * set.numbers.n {
        return Err(Refusal::Length);
    }
    if seed_a != SEED_BYTES {
        return Err(Refusal::Length);
    }
    test_public(set, public)
}

// t and seed_a of the record.
fn take_out(set: Numbers, public: &[u8], t: &mut [u32], seed_a: &mut [u8])
    requires { TakesPublic set public.now t.old seed_a.old }
    ensures { TookPublic set public.now t.new seed_a.new }
{
    unpack_all(set, public, t);
    pieces::copy_out(public, seed_start(set), seed_a);
}

// Tests the record and the lengths of t and seed_a, and reads the record into them.
pub(crate) fn read(set: Set, public: &[u8], t: &mut [u32], seed_a: &mut [u8]) -> Result<(), Refusal>
    ensures { ReadsPublic set.numbers public.now t.old t.new seed_a.old seed_a.new (number_of result) }
{
    test_read(set, public, t.len(), seed_a.len())?;
    take_out(set.numbers, public, t, seed_a);
    Ok(())
}
