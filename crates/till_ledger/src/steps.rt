// Single calls at a meter, and any call.
ghost use Rattle.std.specs.Prelude.{◌≡◌, ℕ, ◌<◌, vec_len, vec_capacity};
ghost use Rattle.meter.specs.Meters.{with_store, suite_at};
ghost use Rattle.till.specs.Tills.{with_desk, till_suite};
ghost use Rattle.journal.specs.Steps.{Performed};
ghost use Rattle.till_ledger.specs.Ledgers.{world_of};

use crate::desk::{draw, issue, void};
use authenticator::Authenticator;
use cipher::Cipher;
use journal::answers::Answer;
use journal::calls::Call;
use meter::service::Meter;
use store::Store;
use till::drawn::DrawnNumber;
use till::selling::Till;

// One call: what it did to till, hand and meter, and that it left all else of till and meter as it was.
pub(crate) fn perform_at<S: Store, C: Cipher, A: Authenticator>(
    till: &mut Till<C, A>,
    hand: &mut Vec<DrawnNumber>,
    meter: &mut Meter<S, C, A>,
    call: &Call,
) -> Answer
    requires { vec_len hand.old < vec_capacity hand.old }
    ensures did { Performed (till_suite C.enciphered C.deciphered A.tagged till.old) (suite_at C.enciphered C.deciphered A.tagged meter.old) call.now result (world_of S.kept S.writes till.old hand.old.items meter.old) (world_of S.kept S.writes till.new hand.new.items meter.new) }
    ensures meter { meter.new ≡ with_store meter.old meter.new.parts.store }
    ensures till { till.new ≡ with_desk till.old till.new.index till.new.counts }
    ensures capacity { vec_capacity hand.new ≡ vec_capacity hand.old }
{
    match call {
        Call::Draw => draw(till, hand),
        Call::Issue(order) => issue(till, hand, order),
        Call::Void(cancellation) => void(till, hand, cancellation),
        Call::Enter(entry) => meter.enter(&entry.text).into(),
        Call::Spend(used) => meter.spend(used.amount).into(),
    }
}
