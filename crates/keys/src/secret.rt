// The secret record of a key, with g of the public record that was written.
ghost use Rattle.std.specs.Prelude.{◌≡◌, ◌*◌};
ghost use Rattle.sampling.specs.Streams.{key_digest};
ghost use Rattle.records.specs.Layout.{stretch, t_bytes};
ghost use Rattle.records.specs.Secret.{secret_record};
ghost use Rattle.keys.specs.Asks.{ForSecret};

use sets::Numbers;

// Writes the secret record, with g of the packed t_1..t_k that stand in the public record.
pub(crate) fn put_secret(
    set: Numbers,
    s: &[u8],
    e: &[u8],
    seed_a: &[u8],
    seed_y: &[u8],
    public: &[u8],
    secret: &mut [u8],
)
    requires { ForSecret set s.now e.now seed_a.now seed_y.now public.now secret.old }
    ensures { secret.new ≡ secret_record set s.now e.now seed_a.now seed_y.now (key_digest set (stretch 2 (set.k * t_bytes set) public.now)) }
{
    let end = records::public::seed_start(set);
    let mut g = [0u8; sets::DIGEST_BYTES];
    sampling::digests::key_digest(set, &public[2..end], &mut g);
    records::secret::put(set, s, e, seed_a, seed_y, &g, secret);
}
