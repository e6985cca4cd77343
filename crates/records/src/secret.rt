// The secret record: mark 2, s and e_1..e_k one signed byte each, seed_a, seed_y, g.
ghost use Rattle.std.specs.Prelude.{◌≡◌, ◌++◌, ◌+◌, ◌*◌, take};
ghost use Rattle.answers.specs.Answers.{number_of};
ghost use Rattle.answers.specs.Tests.{Answered};
ghost use Rattle.sets.specs.Limits.{seed_bytes};
ghost use Rattle.sets.specs.Good.{Good};
ghost use Rattle.records.specs.Layout.{secret_bytes};
ghost use Rattle.records.specs.Secret.{secret_record, in_byte_range, byte_tests, secret_tests, read_secret_tests, write_secret_tests};
ghost use Rattle.records.specs.Asks.{SecretPlaces, TailPlaces};
ghost use Rattle.records.specs.Promises.{TookTail, TookSecret, WritesSecret, ReadsSecret};

use crate::pieces;
use answers::Refusal;
use sets::{DIGEST_BYTES, Numbers, SEED_BYTES};

// Where e_1 starts: after the mark and s.
pub fn e_start(set: Numbers) -> usize
    requires { Good set }
    ensures { result ≡ 2 + set.n }
{
    2 + set.n
}

// Where seed_a starts: after the mark, s and e_1..e_k.
pub fn seed_a_start(set: Numbers) -> usize
    requires { Good set }
    ensures { result ≡ 2 + set.n + set.k * set.n }
{
    2 + set.n + set.k * set.n
}

// Where seed_y starts.
pub fn seed_y_start(set: Numbers) -> usize
    requires { Good set }
    ensures { result ≡ 2 + set.n + set.k * set.n + seed_bytes }
{
    seed_a_start(set) + SEED_BYTES
}

// Where g starts.
pub fn g_start(set: Numbers) -> usize
    requires { Good set }
    ensures { result ≡ 2 + set.n + set.k * set.n + seed_bytes + seed_bytes }
{
    seed_y_start(set) + SEED_BYTES
}

// The bytes of a secret record.
pub fn secret_bytes(set: Numbers) -> usize
    requires { Good set }
    ensures { result ≡ secret_bytes set }
{
    g_start(set) + DIGEST_BYTES
}

// Whether no byte is −128.
#[tactic(auto, using(crate::proofs::Scans::every_not), unfolding(crate::specs::Secret::in_byte_range))]
pub fn in_byte_range(bytes: &[u8]) -> bool
    ensures { result ≡ in_byte_range bytes.now }
{
    !bytes.contains(&128)
}

// The tests of s and e_1..e_k: no byte is −128.
fn test_bytes(s: &[u8], e: &[u8]) -> Result<(), Refusal>
    ensures { Answered (byte_tests s.now e.now) (number_of result) }
{
    if !in_byte_range(s) {
        return Err(Refusal::Value);
    }
    if !in_byte_range(e) {
        return Err(Refusal::Value);
    }
    Ok(())
}

// Writes seed_a, seed_y and g to the end of the record. What stands before them stays.
fn put_tail(set: Numbers, seed_a: &[u8], seed_y: &[u8], g: &[u8], secret: &mut [u8])
    requires { TailPlaces set secret.old seed_a.now seed_y.now g.now }
    ensures { secret.new ≡ take (2 + set.n + set.k * set.n) secret.old ++ (seed_a.now ++ (seed_y.now ++ g.now)) }
{
    pieces::copy_at(seed_a, secret, seed_a_start(set));
    pieces::copy_at(seed_y, secret, seed_y_start(set));
    pieces::copy_at(g, secret, g_start(set));
}

// Writes the record of s, e, seed_a, seed_y and g.
pub fn put(
    set: Numbers,
    s: &[u8],
    e: &[u8],
    seed_a: &[u8],
    seed_y: &[u8],
    g: &[u8],
    secret: &mut [u8],
)
    requires { SecretPlaces set secret.old s.now e.now seed_a.now seed_y.now g.now }
    ensures { secret.new ≡ secret_record set s.now e.now seed_a.now seed_y.now g.now }
{
    pieces::write_mark(set, 2, secret);
    pieces::copy_at(s, secret, 2);
    pieces::copy_at(e, secret, e_start(set));
    put_tail(set, seed_a, seed_y, g, secret);
}

// The tests of writing a record, the output by its length.
fn test_write(
    set: Numbers,
    s: &[u8],
    e: &[u8],
    seed_a: &[u8],
    seed_y: &[u8],
    g: &[u8],
    secret: usize,
) -> Result<(), Refusal>
    requires { Good set }
    ensures { Answered (write_secret_tests set s.now e.now seed_a.now seed_y.now g.now secret) (number_of result) }
{
    if s.len() != set.n {
        return Err(Refusal::Length);
    }
    if e.len() != set.k * set.n {
        return Err(Refusal::Length);
    }
    if seed_a.len() != SEED_BYTES {
        return Err(Refusal::Length);
    }
    if seed_y.len() != SEED_BYTES {
        return Err(Refusal::Length);
    }
    if g.len() != DIGEST_BYTES {
        return Err(Refusal::Length);
    }
    if secret != secret_bytes(set) {
        return Err(Refusal::Length);
    }
    test_bytes(s, e)
}

// Tests the values and the record's length, and writes the record.
pub(crate) fn write(
    set: Numbers,
    s: &[u8],
    e: &[u8],
    seed_a: &[u8],
    seed_y: &[u8],
    g: &[u8],
    secret: &mut [u8],
) -> Result<(), Refusal>
    requires { Good set }
    ensures { WritesSecret set s.now e.now seed_a.now seed_y.now g.now secret.old secret.new (number_of result) }
{
    test_write(set, s, e, seed_a, seed_y, g, secret.len())?;
    put(set, s, e, seed_a, seed_y, g, secret);
    Ok(())
}

// The tests of a lent secret record: its length, its mark, the range of s and e.
fn test_secret(set: Numbers, secret: &[u8]) -> Result<(), Refusal>
    requires { Good set }
    ensures { Answered (secret_tests set secret.now) (number_of result) }
{
    if secret.len() != secret_bytes(set) {
        return Err(Refusal::Length);
    }
    if !pieces::is_marked(set, 2, secret) {
        return Err(Refusal::Mark);
    }
    let middle = e_start(set);
    let end = seed_a_start(set);
    test_bytes(&secret[2..middle], &secret[middle..end])
}

// The tests of reading a record into outputs of these lengths.
fn test_read(
    set: Numbers,
    secret: &[u8],
    s: usize,
    e: usize,
    seed_a: usize,
    seed_y: usize,
    g: usize,
) -> Result<(), Refusal>
    requires { Good set }
    ensures { Answered (read_secret_tests set secret.now s e seed_a seed_y g) (number_of result) }
{
    if s != set.n {
        return Err(Refusal::Length);
    }
    if e != set.k * set.n {
        return Err(Refusal::Length);
    }
    if seed_a != SEED_BYTES {
        return Err(Refusal::Length);
    }
    if seed_y != SEED_BYTES {
        return Err(Refusal::Length);
    }
    if g != DIGEST_BYTES {
        return Err(Refusal::Length);
    }
    test_secret(set, secret)
}

// seed_a, seed_y and g of the record.
fn take_tail(set: Numbers, secret: &[u8], seed_a: &mut [u8], seed_y: &mut [u8], g: &mut [u8])
    requires { TailPlaces set secret.now seed_a.old seed_y.old g.old }
    ensures { TookTail set secret.now seed_a.new seed_y.new g.new }
{
    pieces::copy_out(secret, seed_a_start(set), seed_a);
    pieces::copy_out(secret, seed_y_start(set), seed_y);
    pieces::copy_out(secret, g_start(set), g);
}

// s, e, seed_a, seed_y and g of the record.
fn take_out(
    set: Numbers,
    secret: &[u8],
    s: &mut [u8],
    e: &mut [u8],
    seed_a: &mut [u8],
    seed_y: &mut [u8],
    g: &mut [u8],
)
    requires { SecretPlaces set secret.now s.old e.old seed_a.old seed_y.old g.old }
    ensures { TookSecret set secret.now s.new e.new seed_a.new seed_y.new g.new }
{
    pieces::copy_out(secret, 2, s);
    pieces::copy_out(secret, e_start(set), e);
    take_tail(set, secret, seed_a, seed_y, g);
}

// Tests the record and the lengths of the outputs, and reads the record into them.
pub(crate) fn read(
    set: Numbers,
    secret: &[u8],
    s: &mut [u8],
    e: &mut [u8],
    seed_a: &mut [u8],
    seed_y: &mut [u8],
    g: &mut [u8],
) -> Result<(), Refusal>
    requires { Good set }
    ensures { ReadsSecret set secret.now s.old s.new e.old e.new seed_a.old seed_a.new seed_y.old seed_y.new g.old g.new (number_of result) }
{
    test_read(
        set,
        secret,
        s.len(),
        e.len(),
        seed_a.len(),
        seed_y.len(),
        g.len(),
    )?;
    take_out(set, secret, s, e, seed_a, seed_y, g);
    Ok(())
}
