// Single calls at a meter.
ghost use Rattle.std.specs.Prelude.{◌≡◌, ℕ};
ghost use Rattle.meter.specs.Meters.{with_store, suite_at};
ghost use Rattle.ledger.specs.Steps.{Performed};

use crate::calls::Call;
use authenticator::Authenticator;
use cipher::Cipher;
use meter::answers::Answer;
use meter::service::Meter;
use store::Store;

// One call: what it did to the record and the writes left, and that it left all but the store as it was.
pub(crate) fn perform_at<S: Store, C: Cipher, A: Authenticator>(
    meter: &mut Meter<S, C, A>,
    call: &Call,
) -> Answer
    ensures did { Performed (suite_at C.enciphered C.deciphered A.tagged meter.old) call.now result (S.kept meter.old.parts.store) (S.writes meter.old.parts.store) (S.kept meter.new.parts.store) (S.writes meter.new.parts.store) }
    ensures same { meter.new ≡ with_store meter.old meter.new.parts.store }
{
    match call {
        Call::Enter(entry) => meter.enter(&entry.text).into(),
        Call::Spend(used) => meter.spend(used.amount).into(),
    }
}
