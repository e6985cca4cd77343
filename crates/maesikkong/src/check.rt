// Checking.
ghost use Rattle.answers.specs.Tests.{Answered};
ghost use Rattle.sets.specs.SetI.{set_i};
ghost use Rattle.checking.specs.Check.{check_tests};

use answers::number;

// Checks the signature record on the message with the public record. 0, 1, 2, 3, 5, 9, 10, 11.
#[unsafe(no_mangle)]
pub extern "C" fn maesikkong_check(public: &[u8], message: &[u8], signature: &[u8]) -> u8
    ensures { Answered (check_tests set_i public.now message.now signature.now) result }
{
    number(&checking::check(public, message, signature))
}
