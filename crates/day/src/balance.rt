// What the lines of a journal come to, and whether till and meter agree with it.
ghost use Rattle.std.specs.Prelude.{◌≡◌};
ghost use Rattle.day.specs.Balances.{share_of, balance_of, Small, agreeing};

use crate::sums::{Balance, Share};
use journal::answers::Answer;
use journal::calls::Line;
use till::counts::Counts;

// What one line adds to each sum.
fn share(line: &Line) -> Share
    ensures { result ≡ share_of line.now }
{
    let none = Share {
        taken: 0,
        spent: 0,
        draws: 0,
        issues: 0,
        voids: 0,
    };
    match line.answer {
        Answer::Taken(taken) => Share {
            taken: taken.amount,
            ..none
        },
        Answer::Spent(spent) => Share {
            spent: spent.amount,
            ..none
        },
        Answer::Drawn(_) => Share { draws: 1, ..none },
        Answer::Issued(_) => Share { issues: 1, ..none },
        Answer::Voided => Share { voids: 1, ..none },
        Answer::NotInHand | Answer::Refused(_) => none,
    }
}

// The sums over all lines. Five sums in one walk, each with its name; a fold would hand the five on as one value and build it anew at
// each line.
pub fn balance(lines: &[Line]) -> Balance
    ensures value { result ≡ balance_of lines.now }
    ensures small { Small result }
{
    let mut taken: u128 = 0;
    let mut spent: u128 = 0;
    let mut draws: u128 = 0;
    let mut issues: u128 = 0;
    let mut voids: u128 = 0;
    for line in lines {
        let share = share(line);
        taken += u128::from(share.taken);
        spent += u128::from(share.spent);
        draws += u128::from(share.draws);
        issues += u128::from(share.issues);
        voids += u128::from(share.voids);
    }
    Balance {
        taken,
        spent,
        draws,
        issues,
        voids,
    }
}

// Whether the credit is the opening credit with what was taken and less what was spent, the till's counts are those of the lines, and
// every number drawn was issued or voided or is in hand.
pub(crate) fn agree(opened: u32, credit: u32, counts: Counts, in_hand: usize, b: &Balance) -> bool
    requires { Small b.now }
    ensures { result ≡ agreeing opened credit counts in_hand b.now }
{
    let money = u128::from(credit) + b.spent == u128::from(opened) + b.taken;
    let counted = u128::from(counts.draws()) == b.draws
        && u128::from(counts.issues()) == b.issues
        && u128::from(counts.voids()) == b.voids;
    money && counted && b.draws == b.issues + b.voids + in_hand as u128
}
