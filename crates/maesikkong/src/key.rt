// Key making.
ghost use Rattle.sets.specs.SetI.{set_i};
ghost use Rattle.keys.specs.Promises.{MakesKey};

use answers::number;

// Makes the public and the secret record of s, e_1..e_k in a row, seed_a and seed_y. 0, 1, 5, 6, 7.
#[unsafe(no_mangle)]
pub extern "C" fn maesikkong_make_key(
    s: &[u8],
    e: &[u8],
    seed_a: &[u8],
    seed_y: &[u8],
    public: &mut [u8],
    secret: &mut [u8],
) -> u8
    ensures { MakesKey set_i s.now e.now seed_a.now seed_y.now public.old public.new secret.old secret.new result }
{
    number(&keys::make_key(s, e, seed_a, seed_y, public, secret))
}
