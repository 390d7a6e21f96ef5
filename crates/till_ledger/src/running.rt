// A whole list of calls at a till and a meter, and the law over it.
ghost use Rattle.std.specs.Prelude.{◌≡◌, ◌<◌, [], vec_len, MatchResult, OnErr};
ghost use Rattle.meter.specs.Meters.{with_store, suite_at};
ghost use Rattle.till.specs.Tills.{with_desk, till_suite};
ghost use Rattle.journal.specs.Law.{Law};
ghost use Rattle.journal.specs.Standings.{NewWorld};
ghost use Rattle.journal.specs.Steps.{AllPerformed};
ghost use Rattle.till_ledger.specs.Ledgers.{world_of, journal_of, calls_of, start_of, world_at};

use crate::closing::Closed;
use crate::ledger::Ledger;
use authenticator::Authenticator;
use cipher::Cipher;
use journal::calls::Call;
use meter::service::Meter;
use std::alloc::Global;
use store::Store;
use till::selling::Till;

// Till and meter of a ledger with nothing in hand.
fn untouched<S: Store, C: Cipher, A: Authenticator>(
    ledger: Ledger<S, C, A>,
) -> (Till<C, A>, Meter<S, C, A>)
    requires { vec_len ledger.hand ≡ 0 }
    ensures { result ≡ (ledger.till, ledger.meter) }
{
    let Closed { till, meter, hand } = ledger.close();
    hand.destroy_empty();
    (till, meter)
}

// Performs the calls in their order, each noted on one line, at any till and meter. For a new till and a new meter that share
// settings and the meanings of cipher and authenticator the law holds over all of them. Want of memory is found before the first
// call: then till and meter come back as they were.
pub fn run<S: Store, C: Cipher, A: Authenticator>(
    till: Till<C, A>,
    meter: Meter<S, C, A>,
    calls: Vec<Call>,
    heap: Global,
) -> Result<Ledger<S, C, A>, (Till<C, A>, Meter<S, C, A>)>
    ensures calls { MatchResult result (λ l. calls_of (journal_of l) ≡ calls.items) (λ back. back ≡ (till, meter)) }
    ensures meter { MatchResult result (λ l. l.meter ≡ with_store meter l.meter.parts.store) (λ back. back ≡ (till, meter)) }
    ensures till { MatchResult result (λ l. l.till ≡ with_desk till l.till.index l.till.counts) (λ back. back ≡ (till, meter)) }
    ensures start { MatchResult result (λ l. start_of l ≡ world_of S.kept S.writes till [] meter) (λ back. back ≡ (till, meter)) }
    ensures performed { MatchResult result (λ l. AllPerformed (till_suite C.enciphered C.deciphered A.tagged till) (suite_at C.enciphered C.deciphered A.tagged meter) (world_of S.kept S.writes till [] meter) (journal_of l) (world_at S.kept S.writes l)) (λ back. back ≡ (till, meter)) }
    ensures memory { OnErr result (0 < vec_len calls) }
    ensures law { MatchResult result (λ l. NewWorld (world_of S.kept S.writes till [] meter) → till_suite C.enciphered C.deciphered A.tagged till ≡ suite_at C.enciphered C.deciphered A.tagged meter → Law (suite_at C.enciphered C.deciphered A.tagged meter) (world_of S.kept S.writes till [] meter) (journal_of l) (world_at S.kept S.writes l)) (λ back. back ≡ (till, meter)) }
{
    let mut ledger = Ledger::open(till, meter, heap);
    if ledger.lines.reserve(calls.len()).is_err() {
        return Err(untouched(ledger));
    }
    if ledger.hand.reserve(calls.len()).is_err() {
        return Err(untouched(ledger));
    }
    for call in calls {
        ledger.note(call);
    }
    Ok(ledger)
}
