// The parts of an envelope, as stretches of the lent bytes.
ghost use Rattle.std.specs.Prelude.{◌≡◌, ◌+◌};
ghost use Rattle.sets.specs.Good.{Good};
ghost use Rattle.records.specs.Layout.{stretch, signature_bytes};
ghost use Rattle.envelope.specs.Envelope.{head_bytes};

use crate::head::HEAD_BYTES;
use sets::Numbers;

// The size bytes from start on, as many of them as there are.
pub(crate) fn stretch_of(bytes: &[u8], start: usize, size: usize) -> &[u8]
    ensures { result.now ≡ stretch start size bytes.now }
{
    let rest = &bytes[start.min(bytes.len())..];
    &rest[..size.min(rest.len())]
}

// The signature record after a roster of len bytes. What follows the head is taken first, so that no sum with len is made.
pub(crate) fn signature_in(set: Numbers, envelope: &[u8], len: usize) -> &[u8]
    requires { Good set }
    ensures { result.now ≡ stretch (head_bytes + len) (signature_bytes set) envelope.now }
{
    let size = signatures::signature_bytes(set);
    let body = stretch_of(envelope, HEAD_BYTES, envelope.len());
    stretch_of(body, len, size)
}
