// Signing.
ghost use Rattle.sets.specs.SetI.{set_i};
ghost use Rattle.sampling.specs.Streams.{roster_message};
ghost use Rattle.signing.specs.Promises.{Signs};

use answers::number;

// Signs the message with the secret record and r. counter is the smallest that passes, 0 on refusal. 0 to 8, 10.
#[unsafe(no_mangle)]
pub extern "C" fn maesikkong_sign(
    secret: &[u8],
    message: &[u8],
    r: &[u8],
    budget: u32,
    signature: &mut [u8],
    counter: &mut u16,
) -> u8
    ensures { Signs set_i secret.now message.now r.now budget signature.old signature.new result counter.new }
{
    let signed = signing::sign(secret, message, r, budget, signature);
    *counter = signed.unwrap_or(0);
    number(&signed)
}

// Signs a roster under its team number: the two bytes of the number, low first, then the roster. The rest as `maesikkong_sign`. 0 to 8, 10.
#[unsafe(no_mangle)]
pub extern "C" fn maesikkong_sign_roster(
    secret: &[u8],
    team: u16,
    roster: &[u8],
    r: &[u8],
    budget: u32,
    signature: &mut [u8],
    counter: &mut u16,
) -> u8
    ensures { Signs set_i secret.now (roster_message team roster.now) r.now budget signature.old signature.new result counter.new }
{
    let signed = signing::sign_roster(secret, team, roster, r, budget, signature);
    *counter = signed.unwrap_or(0);
    number(&signed)
}
