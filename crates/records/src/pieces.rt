// What the records are made of: marks, and bytes that are copied into their place.
ghost use Rattle.std.specs.Prelude.{◌≡◌, ◌++◌, ◌+◌, ◌≤◌, length, get_or, take, drop};
ghost use Rattle.records.specs.Layout.{mark, marked, stretch};
ghost use Rattle.records.specs.Asks.{CopiesAt, CopiesOut, Marks};

// Copies from into the front of to. What follows stays.
fn copy_in(from: &[u8], to: &mut [u8])
    requires { length from.now ≤ length to.old }
    ensures { to.new ≡ from.now ++ drop (length from.now) to.old }
{
    // A loop: `copy_from_slice` of a length that the compiler does not know is a call of `memmove`, which the archive for C must not ask for.
    for (i, byte) in from.iter().enumerate() {
        to[i] = *byte;
    }
}

// Copies from into to, from index at on. What stands before and after it stays.
pub fn copy_at(from: &[u8], to: &mut [u8], at: usize)
    requires { CopiesAt from.now to.old at }
    ensures { to.new ≡ take at to.old ++ (from.now ++ drop (at + length from.now) to.old) }
{
    copy_in(from, &mut to[at..]);
}

// Fills to with the bytes of from, from index at on.
pub fn copy_out(from: &[u8], at: usize, to: &mut [u8])
    requires { CopiesOut from.now at to.old }
    ensures { to.new ≡ stretch at (length to.old) from.now }
{
    let len = to.len();
    copy_in(&from[at..at + len], to);
}

// Writes the mark of record j into the front of out. What follows stays. j is a number, since the promise is of every j that fits the mark.
pub fn write_mark(set: sets::Numbers, j: u8, out: &mut [u8])
    requires { Marks set j out.old }
    ensures { out.new ≡ mark set j ++ drop 2 out.old }
{
    out[..2].copy_from_slice(&[0x51, 16 * set.digit + j]);
}

// The byte at index i, and 0 past the last one.
pub fn byte_at(bytes: &[u8], i: usize) -> u8
    ensures { result ≡ get_or bytes.now i 0 }
{
    bytes.get(i).copied().unwrap_or(0)
}

// Whether bytes begin with the mark of record j: of any number j, as the promise has it.
#[tactic(auto, unfolding(crate::specs::Layout::marked))]
pub fn is_marked(set: sets::Numbers, j: u8, bytes: &[u8]) -> bool
    ensures { result ≡ marked set j bytes.now }
{
    // The second byte that is wanted may be past 255.
    let second = 16 * u32::from(set.digit) + u32::from(j);
    byte_at(bytes, 0) == 0x51 && u32::from(byte_at(bytes, 1)) == second
}
