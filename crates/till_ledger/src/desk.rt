// Single calls at a till with numbers in hand.
ghost use Rattle.std.specs.Prelude.{◌≡◌, ℕ, ◌<◌, vec_len, vec_capacity};
ghost use Rattle.record.specs.declared.Record.{Record};
ghost use Rattle.sealing.specs.Suites.{Suite};
ghost use Rattle.till.specs.Tills.{with_desk, till_suite};
ghost use Rattle.journal.specs.declared.calls.Call.TheVariants.{Draw, Issue, Void};
ghost use Rattle.journal.specs.Steps.{Performed};
ghost use Rattle.till_ledger.specs.Ledgers.{desk_world};

use crate::hand::{put, take_from};
use authenticator::Authenticator;
use cipher::Cipher;
use journal::answers::{Answer, Drawn, Issued};
use journal::calls::{Cancellation, Order};
use till::drawn::{DrawnNumber, NotIssued};
use till::selling::Till;

// None of these calls touches a meter: what they promise holds beside any record and writes left. Till and hand stay two parameters, as
// they are two parts of a ledger of which its law speaks apart.
pub(crate) fn draw<C, A>(till: &mut Till<C, A>, hand: &mut Vec<DrawnNumber>) -> Answer
    requires { vec_len hand.old < vec_capacity hand.old }
    ensures did { (t s : Suite) (kept : Record) (writes : ℕ) → Performed t s Draw result (desk_world kept writes till.old hand.old.items) (desk_world kept writes till.new hand.new.items) }
    ensures same { till.new ≡ with_desk till.old till.new.index till.new.counts }
    ensures capacity { vec_capacity hand.new ≡ vec_capacity hand.old }
{
    match till.draw() {
        Ok(drawn) => {
            let number = drawn.number();
            put(hand, drawn);
            Answer::Drawn(Drawn { number })
        }
        Err(refusal) => Answer::Refused(refusal),
    }
}

pub(crate) fn issue<C: Cipher, A: Authenticator>(
    till: &mut Till<C, A>,
    hand: &mut Vec<DrawnNumber>,
    order: &Order,
) -> Answer
    ensures did { (s : Suite) (kept : Record) (writes : ℕ) → Performed (till_suite C.enciphered C.deciphered A.tagged till.old) s (Issue order.now) result (desk_world kept writes till.old hand.old.items) (desk_world kept writes till.new hand.new.items) }
    ensures same { till.new ≡ with_desk till.old till.new.index till.new.counts }
    ensures capacity { vec_capacity hand.new ≡ vec_capacity hand.old }
{
    let Some(drawn) = take_from(hand, order.number) else {
        return Answer::NotInHand;
    };
    let mut slip = [0; 80];
    match till.issue(drawn, &order.sale, &mut slip) {
        Ok(length) => Answer::Issued(Issued { slip, length }),
        Err(refused) => {
            let NotIssued {
                refusal,
                drawn: back,
            } = refused;
            put(hand, back);
            Answer::Refused(refusal)
        }
    }
}

pub(crate) fn void<C, A>(
    till: &mut Till<C, A>,
    hand: &mut Vec<DrawnNumber>,
    cancellation: &Cancellation,
) -> Answer
    ensures did { (t s : Suite) (kept : Record) (writes : ℕ) → Performed t s (Void cancellation.now) result (desk_world kept writes till.old hand.old.items) (desk_world kept writes till.new hand.new.items) }
    ensures same { till.new ≡ with_desk till.old till.new.index till.new.counts }
    ensures capacity { vec_capacity hand.new ≡ vec_capacity hand.old }
{
    match take_from(hand, cancellation.number) {
        Some(drawn) => {
            till.void(drawn);
            Answer::Voided
        }
        None => Answer::NotInHand,
    }
}
