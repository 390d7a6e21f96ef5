// A whole list of calls at a meter, and the law over it.
ghost use Rattle.std.specs.Prelude.{◌≡◌, ◌<◌, vec_len, MatchResult, OnErr};
ghost use Rattle.meter.specs.Meters.{with_store, suite_at};
ghost use Rattle.ledger.specs.Steps.{AllPerformed};
ghost use Rattle.ledger.specs.Ledgers.{journal_of, calls_of, NewMeterKeeps};

use crate::calls::Call;
use crate::ledger::Ledger;
use authenticator::Authenticator;
use cipher::Cipher;
use meter::service::Meter;
use std::alloc::Global;
use store::Store;

// Performs the calls in their order, each noted on one line, at any meter. For a new one the law holds over all of them. Want of
// memory is found before the first call: then the meter comes back as it was.
pub fn run<S: Store, C: Cipher, A: Authenticator>(
    meter: Meter<S, C, A>,
    calls: Vec<Call>,
    heap: Global,
) -> Result<Ledger<S, C, A>, Meter<S, C, A>>
    ensures calls { MatchResult result (λ l. calls_of (journal_of l) ≡ calls.items) (λ m. m ≡ meter) }
    ensures same { MatchResult result (λ l. l.meter ≡ with_store meter l.meter.parts.store) (λ m. m ≡ meter) }
    ensures performed { MatchResult result (λ l. AllPerformed (suite_at C.enciphered C.deciphered A.tagged meter) (S.kept meter.parts.store) (S.writes meter.parts.store) (journal_of l) (S.kept l.meter.parts.store) (S.writes l.meter.parts.store)) (λ m. m ≡ meter) }
    ensures opening { MatchResult result (λ l. l.opening.kept ≡ S.kept meter.parts.store) (λ m. m ≡ meter) }
    ensures writes { MatchResult result (λ l. l.opening.writes ≡ S.writes meter.parts.store) (λ m. m ≡ meter) }
    ensures memory { OnErr result (0 < vec_len calls) }
    ensures law { MatchResult result (λ l. NewMeterKeeps (suite_at C.enciphered C.deciphered A.tagged meter) (S.kept meter.parts.store) (S.writes meter.parts.store) (journal_of l) (S.kept l.meter.parts.store) (S.writes l.meter.parts.store)) (λ m. m ≡ meter) }
{
    let mut ledger = Ledger::open(meter, heap);
    if ledger.lines.reserve(calls.len()).is_err() {
        return Err(ledger.into_meter());
    }
    for call in calls {
        ledger.note(call);
    }
    Ok(ledger)
}
