// The digests: what is hashed by streams 3 to 6, each squeezed straight into the caller's bytes.
ghost use Rattle.std.specs.Prelude.{◌≡◌, ◌++◌, length};
ghost use Rattle.shake.specs.Sponge.{absorbed, squeezed};
ghost use Rattle.sets.specs.Limits.{seed_bytes, digest_bytes};
ghost use Rattle.sampling.specs.Streams.{rand_of, message_digest, key_digest};
ghost use Rattle.sampling.specs.Asks.{Digest};
ghost use Rattle.sampling.specs.Promises.{ClosesMessage};

use sets::{Numbers, Stream};
use shake::Sponge;

// G of the message that state has absorbed, in whatever pieces, after the mark of stream 4: into out.
pub fn close_message(set: Numbers, state: Sponge, out: &mut [u8])
    requires { Digest set digest_bytes (length out.old) }
    ensures { ClosesMessage set state out.new }
{
    state.squeeze(out);
}

// G of a message in two pieces, front and then rest, into out. No buffer joins them.
pub fn joined_digest(set: Numbers, front: &[u8], rest: &[u8], out: &mut [u8])
    requires { Digest set digest_bytes (length out.old) }
    ensures { out.new ≡ message_digest set (front.now ++ rest.now) }
{
    close_message(
        set,
        set.fresh(Stream::Message).absorb(front).absorb(rest),
        out,
    )
}

// G of the message, into out.
pub fn message_digest(set: Numbers, message: &[u8], out: &mut [u8])
    requires { Digest set digest_bytes (length out.old) }
    ensures { out.new ≡ message_digest set message.now }
{
    joined_digest(set, &[], message, out)
}

// g of the packed t_1..t_k, into out.
pub fn key_digest(set: Numbers, packed_t: &[u8], out: &mut [u8])
    requires { Digest set digest_bytes (length out.old) }
    ensures { out.new ≡ key_digest set packed_t.now }
{
    set.fresh(Stream::Key).absorb(packed_t).squeeze(out);
}

// rand of seed_y, r and G of the message, into out.
pub fn rand_of(set: Numbers, seed_y: &[u8], r: &[u8], digest: &[u8], out: &mut [u8])
    requires { Digest set seed_bytes (length out.old) }
    ensures { out.new ≡ rand_of set seed_y.now r.now digest.now }
{
    set.fresh(Stream::Rand)
        .absorb(seed_y)
        .absorb(r)
        .absorb(digest)
        .squeeze(out);
}

// c', into out: highs has absorbed the high parts, and G of the message and g follow them.
pub fn challenge_of(highs: Sponge, digest: &[u8], g: &[u8], out: &mut [u8])
    requires { length out.old ≡ seed_bytes }
    ensures { out.new ≡ squeezed seed_bytes (absorbed (absorbed highs digest.now) g.now) }
{
    highs.absorb(digest).absorb(g).squeeze(out);
}
