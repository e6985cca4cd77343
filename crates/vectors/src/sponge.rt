// The sponge, which stays between the cases:
//     <  bytes      absorbs the bytes at once
//     (  bytes      absorbs them one at a time
//     >  length     squeezes as many bytes at once, at most 4,096, and writes them
//     )  length     squeezes them one at a time
//     =             squeezes 136 bytes, and writes them
// Any other begins anew with a blank sponge.
use crate::bytes;
use shake::{Block, OneByte, Sponge};

fn absorb_each(mut sponge: Sponge, bytes: &[u8]) -> Sponge {
    for b in bytes {
        sponge = sponge.absorb_byte(*b);
    }
    sponge
}

fn squeeze_each(mut sponge: Sponge, n: usize) -> Sponge {
    for _ in 0..n {
        let OneByte { state, byte } = sponge.squeeze_byte();
        bytes::print(&[byte]);
        sponge = state;
    }
    sponge
}

fn squeeze(sponge: Sponge, given: &[u8]) -> Sponge {
    let mut room = [0; 4096];
    let out = bytes::lend(given, 0, &mut room);
    let after = sponge.squeeze(out);
    bytes::print(out);
    after
}

fn squeeze_block(sponge: Sponge) -> Sponge {
    let Block { state, bytes } = sponge.squeeze_block();
    bytes::print(&bytes);
    state
}

pub fn run(letter: u8, given: &[u8], state: Sponge) -> Sponge {
    match letter {
        b'<' => state.absorb(given),
        b'(' => absorb_each(state, given),
        b'>' => squeeze(state, given),
        b')' => squeeze_each(state, bytes::number(given, 0)),
        b'=' => squeeze_block(state),
        _ => Sponge::blank(),
    }
}
