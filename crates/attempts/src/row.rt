// a_1..a_k of the secret record's seed_a, in a row.
ghost use Rattle.std.specs.Prelude.{◌≡◌};
ghost use Rattle.sampling.specs.Streams.{all_a};
ghost use Rattle.records.specs.Secret.{secret_seed_a};
ghost use Rattle.attempts.specs.Asks.{DrawsRow, DrawsKey};

use sets::Numbers;

// a_1..a_k of seed_a.
fn draw_row(set: Numbers, seed_a: &[u8], a: &mut [u32])
    requires { DrawsRow set a.old }
    ensures { a.new ≡ all_a set seed_a.now }
{
    // By index: the contract of `chunks_exact_mut` does not say what a holds afterwards.
    let n = set.n;
    let mut stream = sampling::drawn::start_a(set, seed_a);
    for i in 0..set.k {
        stream = sampling::drawn::next_a(set, stream, &mut a[n * i..n * i + n]);
    }
}

// The same with the record's seed_a.
pub fn draw_key(set: Numbers, secret: &[u8], a: &mut [u32])
    requires { DrawsKey set secret.now a.old }
    ensures { a.new ≡ all_a set (secret_seed_a set secret.now) }
{
    let start = records::secret::seed_a_start(set);
    let end = records::secret::seed_y_start(set);
    draw_row(set, &secret[start..end], a);
}
