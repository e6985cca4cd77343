// What comes back: document 01's numbers, one refusal for each but 0, whichever entry gives it. Which of them an entry can give is said by
// its list of tests; signing's 8 and 10 come from its search.
#![tactic(auto)]

ghost use Rattle.std.specs.Prelude.{◌≡◌};
ghost use Rattle.answers.specs.Answers.{refusal_number, number_of};

// Why an entry refuses.
#[derive(Clone, Copy, Debug, PartialEq, Eq)]
pub enum Refusal {
    // 1: a length is not the one named, or a stream has too few candidates
    Length,
    // 2: a mark is wrong
    Mark,
    // 3: the message, or L, is over its limit
    Message,
    // 4: the budget is outside 1 to 1,024
    Budget,
    // 5: a secret byte is −128, or a t coefficient is not from 0 to q − 1
    Value,
    // 6: checkS does not pass
    SumS,
    // 7: checkE does not pass for some e_i
    SumE,
    // 8: no counter from 1 to the budget passes
    None,
    // 9: some z is outside −(B − S) to B − S
    Z,
    // 10: a high part does not fit a signed byte
    High,
    // 11: the hash differs
    Hash,
}

impl From<Refusal> for u8 {
    // Document 01's number.
    ghost from_gives = { λ refusal r. r ≡ refusal_number refusal };

    fn from(refusal: Refusal) -> u8 {
        match refusal {
            Refusal::Length => 1,
            Refusal::Mark => 2,
            Refusal::Message => 3,
            Refusal::Budget => 4,
            Refusal::Value => 5,
            Refusal::SumS => 6,
            Refusal::SumE => 7,
            Refusal::None => 8,
            Refusal::Z => 9,
            Refusal::High => 10,
            Refusal::Hash => 11,
        }
    }
}

// Document 01's number of what an entry answers: 0 where nothing was refused.
pub fn number<T>(answer: &Result<T, Refusal>) -> u8
    ensures { result ≡ number_of answer.now }
{
    match answer {
        Ok(_) => 0,
        Err(refusal) => u8::from(*refusal),
    }
}
