// Opening a ledger, and performing calls one by one: each call carries the law over the whole journal on.
ghost use Rattle.std.specs.Prelude.{◌≡◌, ◌<◌, [], ◌∷◌, ◌++◌, IfOk, vec_len, vec_capacity, MatchResult, OnErr};
ghost use Rattle.meter.specs.Meters.{with_store, suite_at};
ghost use Rattle.ledger.specs.Steps.{Performed};
ghost use Rattle.ledger.specs.Ledgers.{journal_of, line_of, Lawful};

use crate::calls::{Call, Line};
use crate::ledger::{Ledger, Opening};
use crate::steps::perform_at;
use authenticator::Authenticator;
use cipher::Cipher;
use meter::answers::Answer;
use meter::service::Meter;
use std::alloc::{AllocError, Global};
use store::Store;

impl<S: Store, C: Cipher, A: Authenticator> Ledger<S, C, A> {
    // A ledger in which nothing is noted yet. It keeps the law.
    pub fn open(meter: Meter<S, C, A>, heap: Global) -> Ledger<S, C, A>
        ensures meter { result.meter ≡ meter }
        ensures opening { result.opening.kept ≡ S.kept meter.parts.store }
        ensures writes { result.opening.writes ≡ S.writes meter.parts.store }
        ensures journal { journal_of result ≡ [] }
        ensures lawful { Lawful (suite_at C.enciphered C.deciphered A.tagged result.meter) result (S.kept result.meter.parts.store) (S.writes result.meter.parts.store) }
    {
        let mut meter = meter;
        let kept = meter.read();
        let writes = meter.writes_left();
        Ledger {
            meter,
            opening: Opening { kept, writes },
            lines: Vec::new(heap),
        }
    }

    // Performs one call and notes it, in memory that is there already.
    pub(crate) fn note(&mut self, call: Call) -> Answer
        requires { vec_len self.old.lines < vec_capacity self.old.lines }
        ensures did { Performed (suite_at C.enciphered C.deciphered A.tagged self.old.meter) call result (S.kept self.old.meter.parts.store) (S.writes self.old.meter.parts.store) (S.kept self.new.meter.parts.store) (S.writes self.new.meter.parts.store) }
        ensures noted { journal_of self.new ≡ journal_of self.old ++ line_of call result (S.writes self.new.meter.parts.store) ∷ [] }
        ensures same { self.new.meter ≡ with_store self.old.meter self.new.meter.parts.store }
        ensures opening { self.new.opening ≡ self.old.opening }
        ensures lawful { Lawful (suite_at C.enciphered C.deciphered A.tagged self.old.meter) self.old (S.kept self.old.meter.parts.store) (S.writes self.old.meter.parts.store) → Lawful (suite_at C.enciphered C.deciphered A.tagged self.new.meter) self.new (S.kept self.new.meter.parts.store) (S.writes self.new.meter.parts.store) }
        ensures capacity { vec_capacity self.new.lines ≡ vec_capacity self.old.lines }
    {
        let answer = perform_at(&mut self.meter, &call);
        let writes = self.meter.writes_left();
        self.lines.push_reserved(Line {
            call,
            answer,
            writes,
        });
        answer
    }

    // Performs one call and notes it. Want of memory is found before the call, where the journal has no room left, and leaves meter
    // and journal as they were.
    pub fn perform(&mut self, call: Call) -> Result<Answer, AllocError>
        ensures did { IfOk result (λ answer. Performed (suite_at C.enciphered C.deciphered A.tagged self.old.meter) call answer (S.kept self.old.meter.parts.store) (S.writes self.old.meter.parts.store) (S.kept self.new.meter.parts.store) (S.writes self.new.meter.parts.store)) }
        ensures noted { MatchResult result (λ answer. journal_of self.new ≡ journal_of self.old ++ line_of call answer (S.writes self.new.meter.parts.store) ∷ []) (λ _. (journal_of self.new ≡ journal_of self.old) × (self.new.meter ≡ self.old.meter)) }
        ensures memory { OnErr result (vec_capacity self.old.lines ≡ vec_len self.old.lines) }
        ensures same { self.new.meter ≡ with_store self.old.meter self.new.meter.parts.store }
        ensures opening { self.new.opening ≡ self.old.opening }
        ensures lawful { Lawful (suite_at C.enciphered C.deciphered A.tagged self.old.meter) self.old (S.kept self.old.meter.parts.store) (S.writes self.old.meter.parts.store) → Lawful (suite_at C.enciphered C.deciphered A.tagged self.new.meter) self.new (S.kept self.new.meter.parts.store) (S.writes self.new.meter.parts.store) }
    {
        self.lines.reserve(1)?;
        Ok(self.note(call))
    }

    // The credit of the meter, in minor units.
    pub fn credit(&mut self) -> u32
        ensures value { result ≡ (S.kept self.old.meter.parts.store).credit }
        ensures same { self.new ≡ self.old }
    {
        self.meter.credit()
    }

    // The journal, in the order of the calls.
    pub fn lines(&self) -> &[Line]
        ensures { result.now ≡ journal_of self.now }
    {
        self.lines.as_slice()
    }

    // The meter again, as it is.
    pub fn into_meter(self) -> Meter<S, C, A>
        ensures { result ≡ self.meter }
    {
        let Ledger {
            meter,
            opening: _,
            lines: _,
        } = self;
        meter
    }
}
