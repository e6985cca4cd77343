// The tests of key making, all made before the first write; those of s and e_1..e_k are signing's too.
ghost use Rattle.std.specs.Prelude.{◌≡◌};
ghost use Rattle.answers.specs.Answers.{number_of};
ghost use Rattle.answers.specs.Tests.{Answered};
ghost use Rattle.ring.specs.Largest.{sum_passes};
ghost use Rattle.sets.specs.Good.{Good};
ghost use Rattle.keys.specs.Asks.{LongE};
ghost use Rattle.keys.specs.Key.{each_e_passes, secrets_tests, make_key_tests};

use answers::Refusal;
use sets::{Numbers, SEED_BYTES};

// Whether the h largest of one polynomial sum to at most the bound. Makes the places for them.
fn sum_passes(set: Numbers, bytes: &[u8], bound: u32) -> bool
    requires { Good set }
    ensures { result ≡ sum_passes set.h bound bytes.now }
{
    let mut slots = [0u32; 256];
    ring::largest::sum_passes(bytes, &mut slots[..set.h], bound)
}

// Whether checkE passes for every e_i.
fn each_e_passes(set: Numbers, e: &[u8]) -> bool
    requires { LongE set e.now }
    ensures { result ≡ each_e_passes set e.now }
{
    e.chunks_exact(set.n).all(|e_i| sum_passes(set, e_i, set.e))
}

// The tests 5, 6 and 7, of s and e_1..e_k.
pub fn test_secrets(set: Numbers, s: &[u8], e: &[u8]) -> Result<(), Refusal>
    requires { LongE set e.now }
    ensures { Answered (secrets_tests set s.now e.now) (number_of result) }
{
    if !records::secret::in_byte_range(s) {
        return Err(Refusal::Value);
    }
    if !records::secret::in_byte_range(e) {
        return Err(Refusal::Value);
    }
    if !sum_passes(set, s, set.s) {
        return Err(Refusal::SumS);
    }
    if !each_e_passes(set, e) {
        return Err(Refusal::SumE);
    }
    Ok(())
}

// The tests of key making, the outputs by their lengths.
pub(crate) fn test_inputs(
    set: Numbers,
    s: &[u8],
    e: &[u8],
    seed_a: &[u8],
    seed_y: &[u8],
    public: usize,
    secret: usize,
) -> Result<(), Refusal>
    requires { Good set }
    ensures { Answered (make_key_tests set s.now e.now seed_a.now seed_y.now public secret) (number_of result) }
{
    if s.len() != set.n {
        return Err(Refusal::Length);
    }
    if e.len() != set.k * set.n {
        return Err(Refusal::Length);
    }
    if seed_a.len() != SEED_BYTES {
        return Err(Refusal::Length);
    }
    if seed_y.len() != SEED_BYTES {
        return Err(Refusal::Length);
    }
    if public != records::public::public_bytes(set) {
        return Err(Refusal::Length);
    }
    if secret != records::secret::secret_bytes(set) {
        return Err(Refusal::Length);
    }
    test_secrets(set, s, e)
}
