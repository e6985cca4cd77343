// The signature record: written from its values and read into them.
ghost use Rattle.sets.specs.SetI.{set_i};
ghost use Rattle.signatures.specs.Promises.{WritesSignature, ReadsSignature};

use answers::number;

// The signature record of z and c'. 0, 1, 9.
#[unsafe(no_mangle)]
pub extern "C" fn maesikkong_write_signature(z: &[i32], c: &[u8], signature: &mut [u8]) -> u8
    ensures { WritesSignature set_i z.now c.now signature.old signature.new result }
{
    number(&signatures::write_signature(z, c, signature))
}

// z and c' of a signature record. 0, 1, 2, 9.
#[unsafe(no_mangle)]
pub extern "C" fn maesikkong_read_signature(signature: &[u8], z: &mut [i32], c: &mut [u8]) -> u8
    ensures { ReadsSignature set_i signature.now z.old z.new c.old c.new result }
{
    number(&signatures::read_signature(signature, z, c))
}
