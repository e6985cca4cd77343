// The signature record: mark 3, z at its width in two's complement, c'.

#![tactic(auto)]

ghost use Rattle.std.specs.Prelude.{◌≡◌, ◌++◌, map, ◌-◌, nat_abs};
ghost use Rattle.whole.specs.Every.{every};
ghost use Rattle.whole.specs.Twos.{signed};
ghost use Rattle.answers.specs.Answers.{number_of};
ghost use Rattle.answers.specs.Tests.{Answered};
ghost use Rattle.packing.specs.Digits.{packed};
ghost use Rattle.rounding.specs.Tests.{z_passes};
ghost use Rattle.sets.specs.Good.{Good};
ghost use Rattle.sets.specs.SetI.{set_i};
ghost use Rattle.records.specs.Layout.{mark, z_bytes, signature_bytes};
ghost use Rattle.signatures.specs.Signature.{signature_record, z_bits_of, z_of, z_in_range, signature_tests, read_signature_tests, write_signature_tests};
ghost use Rattle.signatures.specs.Asks.{SizesBits, RangesBits, LongSignature, ScansZ, UnpacksZ, TakesZ, TakesSignature, WritesPieces, WritesChecked, PutsSignature};
ghost use Rattle.signatures.specs.Promises.{TookSignature, WritesSignature, ReadsSignature};

use answers::Refusal;
use packing::twos;
use records::pieces;
use sets::{Numbers, SEED_BYTES, Set, SetI};

// The bytes of packed z.
fn z_bytes(set: Numbers) -> usize
    requires { Good set }
    ensures { result ≡ z_bytes set }
{
    // `as`, since std has no From for it: the check proves that nothing is lost.
    (set.z_bits as usize * set.n).div_ceil(8)
}

// The bytes of a signature record.
pub fn signature_bytes(set: Numbers) -> usize
    requires { Good set }
    ensures { result ≡ signature_bytes set }
{
    2 + (z_bytes(set) + SEED_BYTES)
}

// b − s, the bound of z.
fn z_bound(set: Numbers) -> u32
    requires { Good set }
    ensures { result ≡ set.b - set.s }
{
    set.b - set.s
}

// Whether every z is from −(b − s) to b − s. No z is reduced.
pub fn z_in_range(set: Numbers, z: &[i32]) -> bool
    requires { Good set }
    ensures { result ≡ z_in_range set z.now }
{
    let bound = z_bound(set);
    z.iter().all(|z| z.unsigned_abs() <= bound)
}

// |z| of the z that the b bits x stand for: x, or what it lacks to 2^b.
#[tactic(auto, using(crate::proofs::Sizes::size_least))]
fn size_of_bits(x: u32, b: u32) -> u32
    requires { SizesBits b x }
    ensures { result ≡ nat_abs (signed b x) }
{
    x.min((1 << b) - x)
}

// Whether every z that the b bits x_k stand for is from −bound to bound.
fn bits_in_range(x: &[u32], b: u32, bound: u32) -> bool
    requires { RangesBits b x.now }
    ensures { result ≡ every (z_passes bound) (map (signed b) x.now) }
{
    x.iter().all(|x| size_of_bits(*x, b) <= bound)
}

// bits = the bits of each z, read from their stretch of the record.
fn unpack_bits(set: Numbers, signature: &[u8], bits: &mut [u32])
    requires { ScansZ set signature.now bits.old }
    ensures { bits.new ≡ z_bits_of set signature.now }
{
    let end = 2 + z_bytes(set);
    packing::unpack(&signature[2..end], set.z_bits, bits);
}

// Whether every z of the record is from −(b − s) to b − s. scratch takes the bits of each z.
fn z_passes_in(set: Numbers, signature: &[u8], scratch: &mut [u32]) -> bool
    requires { ScansZ set signature.now scratch.old }
    ensures { result ≡ z_in_range set (z_of set signature.now) }
{
    let bound = z_bound(set);
    unpack_bits(set, signature, scratch);
    bits_in_range(scratch, set.z_bits, bound)
}

// The same with scratch of its own.
fn z_passes_of<const N: usize>(set: Set, signature: &[u8]) -> bool
    requires n_is { set.numbers.n ≡ N }
    requires long_signature { LongSignature set.numbers signature.now }
    ensures { result ≡ z_in_range set.numbers (z_of set.numbers signature.now) }
{
    let mut scratch = [0u32; N];
    z_passes_in(set.numbers, signature, &mut scratch)
}

// The same in every set that there is.
#[tactic(auto, using(sets::specs::Known::n_i, sets::specs::Known::no_other))]
pub fn z_passes(set: Set, signature: &[u8]) -> bool
    requires { LongSignature set.numbers signature.now }
    ensures { result ≡ z_in_range set.numbers (z_of set.numbers signature.now) }
{
    match set.numbers.digit {
        1 => z_passes_of::<{ SetI::N }>(set, signature),
        _ => unreachable!(),
    }
}

// The tests of a lent signature record: its length, its mark, the range of z.
fn test_signature(set: Set, signature: &[u8]) -> Result<(), Refusal>
    ensures { Answered (signature_tests set.numbers signature.now) (number_of result) }
{
    if signature.len() != signature_bytes(set.numbers) {
        return Err(Refusal::Length);
    }
    if !pieces::is_marked(set.numbers, 3, signature) {
        return Err(Refusal::Mark);
    }
    if !z_passes(set, signature) {
        return Err(Refusal::Z);
    }
    Ok(())
}

// Writes the mark, the bits of each z and c', each after the other.
fn write_pieces(set: Numbers, bits: &[u32], c: &[u8], signature: &mut [u8])
    requires { WritesPieces set bits.now c.now signature.old }
    ensures { signature.new ≡ mark set 3 ++ (packed set.z_bits bits.now ++ c.now) }
{
    let start = 2 + z_bytes(set);
    pieces::write_mark(set, 3, signature);
    packing::pack(bits, set.z_bits, &mut signature[2..]);
    pieces::copy_at(c, signature, start);
}

// Writes the record of z and c', which were tested. scratch takes the bits of each z.
pub fn write_checked(set: Numbers, z: &[i32], c: &[u8], signature: &mut [u8], scratch: &mut [u32])
    requires { WritesChecked set z.now c.now signature.old scratch.old }
    ensures { signature.new ≡ signature_record set z.now c.now }
{
    twos::to_bits(z, set.z_bits, scratch);
    write_pieces(set, scratch, c, signature);
}

// The same with scratch of its own.
fn put_of<const N: usize>(set: Set, z: &[i32], c: &[u8], signature: &mut [u8])
    requires n_is { set.numbers.n ≡ N }
    requires puts_signature { PutsSignature set.numbers z.now c.now signature.old }
    ensures { signature.new ≡ signature_record set.numbers z.now c.now }
{
    let mut scratch = [0u32; N];
    write_checked(set.numbers, z, c, signature, &mut scratch);
}

// The same in every set that there is.
#[tactic(auto, using(sets::specs::Known::n_i, sets::specs::Known::no_other))]
fn put(set: Set, z: &[i32], c: &[u8], signature: &mut [u8])
    requires { PutsSignature set.numbers z.now c.now signature.old }
    ensures { signature.new ≡ signature_record set.numbers z.now c.now }
{
    match set.numbers.digit {
        1 => put_of::<{ SetI::N }>(set, z, c, signature),
        _ => unreachable!(),
    }
}

// The tests of writing a record, the output by its length.
fn test_write(set: Numbers, z: &[i32], c: &[u8], signature: usize) -> Result<(), Refusal>
    requires { Good set }
    ensures { Answered (write_signature_tests set z.now c.now signature) (number_of result) }
{
    if z.len() != set.n {
        return Err(Refusal::Length);
    }
    if c.len() != SEED_BYTES {
        return Err(Refusal::Length);
    }
    if signature != signature_bytes(set) {
        return Err(Refusal::Length);
    }
    if !z_in_range(set, z) {
        return Err(Refusal::Z);
    }
    Ok(())
}

// Tests z, c' and the record's length, and writes the record.
fn write(set: Set, z: &[i32], c: &[u8], signature: &mut [u8]) -> Result<(), Refusal>
    ensures { WritesSignature set.numbers z.now c.now signature.old signature.new (number_of result) }
{
    test_write(set.numbers, z, c, signature.len())?;
    put(set, z, c, signature);
    Ok(())
}

// z of the record. scratch takes the bits of each z.
pub fn unpack_z(set: Numbers, signature: &[u8], z: &mut [i32], scratch: &mut [u32])
    requires { UnpacksZ set signature.now z.old scratch.old }
    ensures { z.new ≡ z_of set signature.now }
{
    unpack_bits(set, signature, scratch);
    twos::from_bits(scratch, set.z_bits, z);
}

// The same with scratch of its own.
fn take_z_of<const N: usize>(set: Set, signature: &[u8], z: &mut [i32])
    requires n_is { set.numbers.n ≡ N }
    requires takes_z { TakesZ set.numbers signature.now z.old }
    ensures { z.new ≡ z_of set.numbers signature.now }
{
    let mut scratch = [0u32; N];
    unpack_z(set.numbers, signature, z, &mut scratch);
}

// The same in every set that there is.
#[tactic(auto, using(sets::specs::Known::n_i, sets::specs::Known::no_other))]
fn take_z(set: Set, signature: &[u8], z: &mut [i32])
    requires { TakesZ set.numbers signature.now z.old }
    ensures { z.new ≡ z_of set.numbers signature.now }
{
    match set.numbers.digit {
        1 => take_z_of::<{ SetI::N }>(set, signature, z),
        _ => unreachable!(),
    }
}

// z and c' of the record.
fn take_out(set: Set, signature: &[u8], z: &mut [i32], c: &mut [u8])
    requires { TakesSignature set.numbers signature.now z.old c.old }
    ensures { TookSignature set.numbers signature.now z.new c.new }
{
    let start = 2 + z_bytes(set.numbers);
    take_z(set, signature, z);
    pieces::copy_out(signature, start, c);
}

// The tests of reading a record into z and c' of these lengths.
fn test_read(set: Set, signature: &[u8], z: usize, c: usize) -> Result<(), Refusal>
    ensures { Answered (read_signature_tests set.numbers signature.now z c) (number_of result) }
{
    if z != set.numbers.n {
        return Err(Refusal::Length);
    }
    if c != SEED_BYTES {
        return Err(Refusal::Length);
    }
    test_signature(set, signature)
}

// Tests the record and the lengths of z and c', and reads the record into them.
fn read(set: Set, signature: &[u8], z: &mut [i32], c: &mut [u8]) -> Result<(), Refusal>
    ensures { ReadsSignature set.numbers signature.now z.old z.new c.old c.new (number_of result) }
{
    test_read(set, signature, z.len(), c.len())?;
    take_out(set, signature, z, c);
    Ok(())
}

// Set I: writes the record of z and c'.
pub fn write_signature(z: &[i32], c: &[u8], signature: &mut [u8]) -> Result<(), Refusal>
    ensures { WritesSignature set_i z.now c.now signature.old signature.new (number_of result) }
{
    write(Set::i(), z, c, signature)
}

// Set I: z and c' of a signature record.
pub fn read_signature(signature: &[u8], z: &mut [i32], c: &mut [u8]) -> Result<(), Refusal>
    ensures { ReadsSignature set_i signature.now z.old z.new c.old c.new (number_of result) }
{
    read(Set::i(), signature, z, c)
}
