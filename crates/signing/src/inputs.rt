// The tests of what is lent to a signer, in document 01's order.
ghost use Rattle.std.specs.Prelude.{◌≡◌, ◌+◌, leb};
ghost use Rattle.answers.specs.Answers.{number_of};
ghost use Rattle.answers.specs.Tests.{Answered};
ghost use Rattle.sets.specs.Good.{Good};
ghost use Rattle.sets.specs.Limits.{message_limit};
ghost use Rattle.signing.specs.Sign.{begin_tests, sign_tests};

use answers::Refusal;
use sets::{Numbers, SEED_BYTES};

// Whether a message in two pieces of so many bytes is within the limit, by a difference: no sum is made that could leave a word.
fn is_short(front: usize, rest: usize) -> bool
    ensures { result ≡ leb (front + rest) message_limit }
{
    front <= sets::MESSAGE_LIMIT && rest <= sets::MESSAGE_LIMIT - front
}

// The tests 1 to 7: of a secret record, of a message in two pieces and of r by their lengths, and of the budget.
fn test_begin(
    set: Numbers,
    secret: &[u8],
    front: usize,
    rest: usize,
    r: usize,
    budget: u32,
) -> Result<(), Refusal>
    requires { Good set }
    ensures { Answered (begin_tests set secret.now (front + rest) r budget) (number_of result) }
{
    if secret.len() != records::secret::secret_bytes(set) {
        return Err(Refusal::Length);
    }
    if r != SEED_BYTES {
        return Err(Refusal::Length);
    }
    if !records::pieces::is_marked(set, 2, secret) {
        return Err(Refusal::Mark);
    }
    if !is_short(front, rest) {
        return Err(Refusal::Message);
    }
    if budget < 1 {
        return Err(Refusal::Budget);
    }
    if sets::BUDGET_LIMIT < budget {
        return Err(Refusal::Budget);
    }
    let middle = records::secret::e_start(set);
    let end = records::secret::seed_a_start(set);
    keys::tests::test_secrets(set, &secret[2..middle], &secret[middle..end])
}

// All tests, with a signature of so many bytes.
pub(crate) fn test_inputs(
    set: Numbers,
    secret: &[u8],
    front: usize,
    rest: usize,
    r: usize,
    budget: u32,
    signature: usize,
) -> Result<(), Refusal>
    requires { Good set }
    ensures { Answered (sign_tests set secret.now (front + rest) r budget signature) (number_of result) }
{
    if signature != signatures::signature_bytes(set) {
        return Err(Refusal::Length);
    }
    test_begin(set, secret, front, rest, r, budget)
}
