// The line that answers a request.
ghost use Rattle.std.specs.Prelude.{◌≡◌, [], ◌∷◌, ◌++◌, IfOk, string_bytes, codes};
ghost use Rattle.lines.specs.Answering.{spaced, answer_text};

use meter::answers::{Answer, Spent, Taken};
use std::alloc::{AllocError, Global};

fn taken_line(heap: Global, taken: Taken) -> Result<String, AllocError>
    ensures { IfOk result (λ line. string_bytes line ≡ codes "A" ++ spaced (taken.number ∷ taken.amount ∷ taken.credit ∷ [])) }
{
    let Taken {
        number,
        amount,
        credit,
    } = taken;
    format!(in heap; "A {number} {amount} {credit}")
}

fn spent_line(heap: Global, spent: Spent) -> Result<String, AllocError>
    ensures { IfOk result (λ line. string_bytes line ≡ codes "S" ++ spaced (spent.amount ∷ spent.credit ∷ [])) }
{
    let Spent { amount, credit } = spent;
    format!(in heap; "S {amount} {credit}")
}

fn refused_line(heap: Global, number: u8, credit: u32) -> Result<String, AllocError>
    ensures { IfOk result (λ line. string_bytes line ≡ codes "R" ++ spaced (number ∷ credit ∷ [])) }
{
    format!(in heap; "R {number} {credit}")
}

// The line without its newline. A refusal does not carry the credit, so the caller adds what the meter has after the call, and an
// answer has no Display of its own.
pub fn answer_line(heap: Global, answer: Answer, credit: u32) -> Result<String, AllocError>
    ensures { IfOk result (λ line. string_bytes line ≡ answer_text answer credit) }
{
    match answer {
        Answer::Taken(taken) => taken_line(heap, taken),
        Answer::Spent(spent) => spent_line(heap, spent),
        Answer::Refused(refusal) => refused_line(heap, refusal.number(), credit),
    }
}
