// SHAKE256 as a sponge that is handed on by value.
#![tactic(auto)]

ghost use Rattle.std.specs.Prelude.{◌≡◌, Bool, [], ◌∷◌, ◌<◌, length};
ghost use Rattle.keccak.specs.Steps.{keccak_f};
ghost use Rattle.shake.specs.Sponge.{xor_at, byte_at, blank, passed, absorbable, absorbed, ended, squeezable, squeezed, after_squeeze};

// bytes of a block
const RATE: usize = 136;

#[derive(Drop)]
pub struct Sponge {
    // the state of the permutation
    pub lanes: [u64; 25],
    // the place in the block of the byte that comes next, 0 to 135
    pub place: usize,
    // whether absorbing has ended: a value and no type, since every method takes every state
    pub squeezing: bool,
}

// A squeezed byte, and the state after it.
#[derive(Drop)]
pub struct OneByte {
    pub state: Sponge,
    pub byte: u8,
}

// 136 squeezed bytes, and the state after them.
#[derive(Drop)]
pub struct Block {
    pub state: Sponge,
    pub bytes: [u8; RATE],
}

// Byte p of the state ⊕ b: byte p % 8 of lane p / 8, lowest first.
fn xor_at(lanes: &mut [u64; 25], p: usize, b: u8)
    requires { p < RATE }
    ensures { lanes.new ≡ xor_at lanes.old p b }
{
    lanes[p / 8] ^= u64::from(b) << (8 * (p % 8));
}

// Byte p of the state.
fn byte_at(lanes: &[u64; 25], p: usize) -> u8
    requires { p < RATE }
    ensures { result ≡ byte_at lanes.now p }
{
    // `as`, since std has no From for it: the check proves that nothing is lost.
    (lanes[p / 8] >> (8 * (p % 8)) & 0xff) as u8
}

// The permutation, in place. It stands by itself for speed: a function that holds a call's array clears that array whenever it begins,
// and `pass` begins at every byte.
fn permute(lanes: &mut [u64; 25])
    ensures { lanes.new ≡ keccak_f lanes.old }
{
    *lanes = keccak::permute(*lanes);
}

// The place after p. At the end of the block that is 0, and the lanes are permuted.
fn pass(lanes: &mut [u64; 25], p: usize) -> usize
    requires { p < RATE }
    ensures { (squeezing : Bool) → passed lanes.old p squeezing
        ≡ record { lanes = lanes.new; place = result; squeezing = squeezing } }
{
    if p + 1 == RATE {
        permute(lanes);
        0
    } else {
        p + 1
    }
}

impl Sponge {
    // The sponge that has absorbed nothing.
    pub fn blank() -> Sponge
        ensures { result ≡ blank }
    {
        Sponge {
            lanes: [0; 25],
            place: 0,
            squeezing: false,
        }
    }

    // What an absorb acts on.
    fn absorbable(self) -> Sponge
        ensures { result ≡ absorbable self }
    {
        if self.place < RATE && !self.squeezing {
            self
        } else {
            Self::blank()
        }
    }

    // Absorbs the byte b.
    pub fn absorb_byte(mut self, b: u8) -> Sponge
        ensures { result ≡ absorbed self (b ∷ []) }
    {
        self.absorb(&[b])
    }

    // Absorbs the bytes, the first of them first.
    pub fn absorb(mut self, bytes: &[u8]) -> Sponge
        ensures { result ≡ absorbed self bytes.now }
    {
        let Sponge {
            mut lanes,
            mut place,
            squeezing,
        } = self.absorbable();
        for b in bytes {
            xor_at(&mut lanes, place, *b);
            place = pass(&mut lanes, place);
        }
        Sponge {
            lanes,
            place,
            squeezing,
        }
    }

    // Absorbing ends: suffix and padding, and the permutation.
    fn ended(mut self) -> Sponge
        requires { self.place < RATE }
        ensures { result ≡ ended self }
    {
        xor_at(&mut self.lanes, self.place, 0x1F);
        xor_at(&mut self.lanes, RATE - 1, 0x80);
        Sponge {
            lanes: keccak::permute(self.lanes),
            place: 0,
            squeezing: true,
        }
    }

    // What a squeeze acts on.
    fn squeezable(self) -> Sponge
        ensures { result ≡ squeezable self }
    {
        if self.place < RATE && self.squeezing {
            self
        } else {
            self.absorbable().ended()
        }
    }

    // Squeezes one byte.
    pub fn squeeze_byte(mut self) -> OneByte
        ensures byte { (result.byte ∷ []) ≡ squeezed 1 self }
        ensures state { result.state ≡ after_squeeze 1 self }
    {
        let mut bytes = [0];
        let state = self.squeeze(&mut bytes);
        OneByte {
            state,
            byte: bytes[0],
        }
    }

    // Squeezes 136 bytes, as many as a block has, from whatever place the state is at.
    pub fn squeeze_block(mut self) -> Block
        ensures bytes { result.bytes ≡ squeezed 136 self }
        ensures state { result.state ≡ after_squeeze 136 self }
    {
        let mut bytes = [0; RATE];
        let state = self.squeeze(&mut bytes);
        Block { state, bytes }
    }

    // Squeezes as many bytes as out has places, into out.
    pub fn squeeze(mut self, out: &mut [u8]) -> Sponge
        ensures state { result ≡ after_squeeze (length out.old) self }
        ensures bytes { out.new ≡ squeezed (length out.old) self }
    {
        let Sponge {
            mut lanes,
            mut place,
            squeezing,
        } = self.squeezable();
        for byte in out {
            *byte = byte_at(&lanes, place);
            place = pass(&mut lanes, place);
        }
        Sponge {
            lanes,
            place,
            squeezing,
        }
    }
}
