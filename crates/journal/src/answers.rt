// What is answered.
ghost use Rattle.std.specs.Prelude.{◌≡◌};
ghost use Rattle.journal.specs.Steps.{entry_answer, spend_answer};
ghost use Rattle.journal.specs.Telling.{told};

use meter::answers::{Spent, Taken};
use refusal::Refusal;

// A number that was drawn, and is in hand from now on.
#[derive(Clone, Copy)]
pub struct Drawn {
    pub number: u32,
}

// A slip that was issued: its eighty bytes, of which the first are digits, and how many these are, as a till fills and answers them.
#[derive(Clone, Copy)]
pub struct Issued {
    pub slip: [u8; 80],
    pub length: usize,
}

// The answer to any call.
#[derive(Clone, Copy)]
pub enum Answer {
    Drawn(Drawn),
    Issued(Issued),
    Voided,
    Taken(Taken),
    Spent(Spent),
    // The number to be issued or voided is not in hand, so neither till nor meter was asked.
    NotInHand,
    Refused(Refusal),
}

// As at a meter alone, a conversion for each kind of success. No one case holds a meter's answer: its refusal would then be another
// case than a till's.
impl From<Result<Taken, Refusal>> for Answer {
    ghost from_gives = { λ entered answer. answer ≡ entry_answer entered };

    fn from(entered: Result<Taken, Refusal>) -> Answer {
        match entered {
            Ok(taken) => Answer::Taken(taken),
            Err(refusal) => Answer::Refused(refusal),
        }
    }
}

impl From<Result<Spent, Refusal>> for Answer {
    ghost from_gives = { λ spent answer. answer ≡ spend_answer spent };

    fn from(spent: Result<Spent, Refusal>) -> Answer {
        match spent {
            Ok(spent) => Answer::Spent(spent),
            Err(refusal) => Answer::Refused(refusal),
        }
    }
}

impl Answer {
    // 0 where the call was performed, the number of the refusal where it was refused, and none where the till was not asked: the number
    // that is listed for an answer, beside its case and not in place of it.
    pub fn number(self) -> Option<u8>
        ensures { result ≡ (told self).number }
    {
        match self {
            Answer::Drawn(_) | Answer::Issued(_) | Answer::Voided => Some(0),
            Answer::Taken(_) | Answer::Spent(_) => Some(0),
            Answer::NotInHand => None,
            Answer::Refused(refusal) => Some(refusal.number()),
        }
    }
}
