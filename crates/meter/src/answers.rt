// What a meter in service answers.
ghost use Rattle.std.specs.Prelude.{◌≡◌};
ghost use Rattle.meter.specs.Telling.{told, entry_answer, spend_answer};

use refusal::Refusal;

// An entry that was taken: its number, its amount and the credit after it, both in minor units.
#[derive(Clone, Copy, PartialEq, Eq, Debug)]
pub struct Taken {
    pub number: u32,
    pub amount: u32,
    pub credit: u32,
}

// A spend that was performed: its amount and the credit after it, in minor units.
#[derive(Clone, Copy, PartialEq, Eq, Debug)]
pub struct Spent {
    pub amount: u32,
    pub credit: u32,
}

// The answer to any call.
#[derive(Clone, Copy, PartialEq, Eq, Debug)]
pub enum Answer {
    Taken(Taken),
    Spent(Spent),
    Refused(Refusal),
}

// A conversion for each kind of success: one over both would need a third type that tells them apart, and that is the answer itself.
impl From<Result<Taken, Refusal>> for Answer {
    ghost from_gives = { λ entered answer. answer ≡ entry_answer entered };

    fn from(entered: Result<Taken, Refusal>) -> Answer {
        match entered {
            Ok(taken) => Answer::Taken(taken),
            Err(refusal) => Answer::Refused(refusal),
        }
    }
}

impl From<Result<Spent, Refusal>> for Answer {
    ghost from_gives = { λ spent answer. answer ≡ spend_answer spent };

    fn from(spent: Result<Spent, Refusal>) -> Answer {
        match spent {
            Ok(spent) => Answer::Spent(spent),
            Err(refusal) => Answer::Refused(refusal),
        }
    }
}

impl Answer {
    // 0 where the call was performed, else the number of the refusal: the number that is listed for an answer, beside its case and not in
    // place of it.
    pub fn number(self) -> u8
        ensures { result ≡ (told self).number }
    {
        match self {
            Answer::Taken(_) | Answer::Spent(_) => 0,
            Answer::Refused(refusal) => refusal.number(),
        }
    }
}
