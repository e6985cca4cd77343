// The candidate rules over a lent stream, and SHAKE256.
ghost use Rattle.sets.specs.SetI.{set_i};
ghost use Rattle.sampling.specs.Promises.{TakesA, TakesY, TakesPositions};
ghost use Rattle.maesikkong.specs.Promises.{Shakes};

use answers::number;

// Values for a, as many as out has places. 0, 1.
#[unsafe(no_mangle)]
pub extern "C" fn maesikkong_take_a(stream: &[u8], out: &mut [u32]) -> u8
    ensures { TakesA set_i stream.now out.old out.new result }
{
    number(&sampling::take_a(stream, out))
}

// Values for y, as many as out has places. 0, 1.
#[unsafe(no_mangle)]
pub extern "C" fn maesikkong_take_y(stream: &[u8], out: &mut [i32]) -> u8
    ensures { TakesY set_i stream.now out.old out.new result }
{
    number(&sampling::take_y(stream, out))
}

// Positions with their signs, as many as there are places for both. 0, 1.
#[unsafe(no_mangle)]
pub extern "C" fn maesikkong_take_positions(
    stream: &[u8],
    positions: &mut [u16],
    signs: &mut [i8],
) -> u8
    ensures { TakesPositions set_i stream.now positions.old signs.old positions.new signs.new result }
{
    number(&sampling::take_positions(stream, positions, signs))
}

// SHAKE256 of the message, as many bytes as out has places. 0.
#[unsafe(no_mangle)]
pub extern "C" fn maesikkong_shake256(message: &[u8], out: &mut [u8]) -> u8
    ensures { Shakes message.now out.old out.new result }
{
    shake::Sponge::blank().absorb(message).squeeze(out);
    0
}
