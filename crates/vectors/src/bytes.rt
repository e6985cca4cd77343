// Numbers and parts of bytes, and bytes, values and answers written in hexadecimal. What does not stand there is taken for 0, or left out.
use answers::Refusal;
use shake::Sponge;
use std::convert::AsSlice;

// ---- numbers and parts

// Number i of the bytes.
pub fn word(s: &[u8], i: usize) -> u32 {
    s.as_chunks()
        .0
        .get(i)
        .copied()
        .map_or(0, u32::from_le_bytes)
}

// The same modulo 65,536.
pub fn short(s: &[u8], i: usize) -> u16 {
    // `as`, since std has no From for it: the check proves that nothing is lost.
    (word(s, i) & 0xffff) as u16
}

// The same as a length or a place.
pub fn number(s: &[u8], i: usize) -> usize {
    word(s, i) as usize
}

// The bytes from start on.
pub fn rest(s: &[u8], start: usize) -> &[u8] {
    &s[start.min(s.len())..]
}

// The len bytes from start on, or as many of them as there are.
pub fn part(s: &[u8], start: usize, len: usize) -> &[u8] {
    let s = rest(s, start);
    &s[..len.min(s.len())]
}

// Copies the bytes into `to` from start on, as many as there is room for.
pub fn copy(from: &[u8], to: &mut [u8], start: usize) {
    for (t, f) in to.iter_mut().skip(start).zip(from) {
        *t = *f;
    }
}

// As many places of the room as number i says, or all of them where it has fewer.
pub fn lend<'a, T>(given: &[u8], i: usize, room: &'a mut [T]) -> &'a mut [T] {
    let n = number(given, i).min(room.len());
    &mut room[..n]
}

// The values of the bytes, as many as there is room for.
pub fn values<'a, T: Copy, F: Fn([u8; 4]) -> T>(
    bytes: &[u8],
    room: &'a mut [T],
    from_bytes: F,
) -> &'a [T]
    requires { F.IsAlwaysCallable from_bytes }
{
    let (given, _) = bytes.as_chunks();
    let n = given.len().min(room.len());
    let values = &mut room[..n];
    for (v, b) in values.iter_mut().zip(given) {
        *v = from_bytes(*b);
    }
    values
}

// ---- written

// Two digits a byte, by the kit's `io`: std's `print!` rests on one axiom more.
pub fn print(bytes: &[u8]) {
    for b in bytes {
        io::print_hex(1, u64::from(*b), 2);
    }
}

// The bytes of the values.
pub fn print_values<T: Copy, A: AsSlice<u8> + Drop, F: Fn(T) -> A>(values: &[T], to_bytes: F)
    requires { F.IsAlwaysCallable to_bytes }
{
    for v in values {
        print(to_bytes(*v).as_slice());
    }
}

// The hash of what the sponge has absorbed.
pub fn print_squeezed(sponge: Sponge) {
    let mut hash = [0; 32];
    sponge.squeeze(&mut hash);
    print(&hash);
}

// The hash of the bytes.
pub fn print_hash(bytes: &[u8]) {
    print_squeezed(Sponge::blank().absorb(bytes));
}

// Absorbs the bytes of the values.
pub fn absorb_values<T: Copy, A: AsSlice<u8> + Drop, F: Fn(T) -> A>(
    mut sponge: Sponge,
    values: &[T],
    to_bytes: F,
) -> Sponge
    requires { F.IsAlwaysCallable to_bytes }
{
    for v in values {
        sponge = sponge.absorb(to_bytes(*v).as_slice());
    }
    sponge
}

// The hash of the bytes of the values.
pub fn print_values_hash<T: Copy, A: AsSlice<u8> + Drop, F: Fn(T) -> A>(values: &[T], to_bytes: F)
    requires { F.IsAlwaysCallable to_bytes }
{
    print_squeezed(absorb_values(Sponge::blank(), values, to_bytes));
}

// Document 01's number, as a byte.
pub fn print_answer<T>(answer: &Result<T, Refusal>) {
    print(&[answers::number(answer)]);
}
