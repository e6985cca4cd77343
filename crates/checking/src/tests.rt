// The tests of checking's inputs, in document 01's order.
ghost use Rattle.answers.specs.Answers.{number_of};
ghost use Rattle.answers.specs.Tests.{Answered};
ghost use Rattle.checking.specs.Check.{input_tests};

use answers::Refusal;
use sets::Set;

// The tests 1, 2, 3, 5 and 9, the message by its length.
pub(crate) fn test_inputs(
    set: Set,
    public: &[u8],
    message: usize,
    signature: &[u8],
) -> Result<(), Refusal>
    ensures { Answered (input_tests set.numbers public.now message signature.now) (number_of result) }
{
    if public.len() != records::public::public_bytes(set.numbers) {
        return Err(Refusal::Length);
    }
    if signature.len() != signatures::signature_bytes(set.numbers) {
        return Err(Refusal::Length);
    }
    if !records::pieces::is_marked(set.numbers, 1, public) {
        return Err(Refusal::Mark);
    }
    if !records::pieces::is_marked(set.numbers, 3, signature) {
        return Err(Refusal::Mark);
    }
    if sets::MESSAGE_LIMIT < message {
        return Err(Refusal::Message);
    }
    if !records::public::t_passes(set, public) {
        return Err(Refusal::Value);
    }
    if !signatures::z_passes(set, signature) {
        return Err(Refusal::Z);
    }
    Ok(())
}
