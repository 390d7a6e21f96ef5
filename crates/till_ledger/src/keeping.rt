// Opening a ledger, and performing calls one by one: each call carries the law over the whole journal on.
ghost use Rattle.std.specs.Prelude.{◌≡◌, ◌<◌, ◌⊎◌, [], ◌∷◌, ◌++◌, vec_len, vec_capacity, MatchResult, OnErr};
ghost use Rattle.meter.specs.Meters.{with_store, suite_at};
ghost use Rattle.till.specs.Tills.{with_desk, till_suite};
ghost use Rattle.journal.specs.Steps.{Performed};
ghost use Rattle.till_ledger.specs.Closing.{closed_of};
ghost use Rattle.till_ledger.specs.Ledgers.{world_of, line_of, journal_of, start_of, world_at, Lawful};

use crate::closing::Closed;
use crate::ledger::{Ledger, Opening};
use crate::steps::perform_at;
use authenticator::Authenticator;
use cipher::Cipher;
use journal::answers::Answer;
use journal::calls::{Call, Line};
use meter::service::Meter;
use std::alloc::{AllocError, Global};
use store::Store;
use till::counts::Counts;
use till::drawn::DrawnNumber;
use till::selling::Till;

impl<S: Store, C: Cipher, A: Authenticator> Ledger<S, C, A> {
    // A ledger in which nothing is noted yet, with nothing in hand. It keeps the law.
    pub fn open(till: Till<C, A>, meter: Meter<S, C, A>, heap: Global) -> Ledger<S, C, A>
        ensures till { result.till ≡ till }
        ensures meter { result.meter ≡ meter }
        ensures hand { result.hand.items ≡ [] }
        ensures start { start_of result ≡ world_of S.kept S.writes till [] meter }
        ensures journal { journal_of result ≡ [] }
        ensures lawful { Lawful S.kept S.writes C.enciphered C.deciphered A.tagged result }
    {
        let mut meter = meter;
        let kept = meter.read();
        let writes = meter.writes_left();
        let opening = Opening {
            kept,
            writes,
            counts: till.counts(),
            index: till.index(),
        };
        Ledger {
            till,
            meter,
            hand: Vec::new(heap),
            opening,
            lines: Vec::new(heap),
        }
    }

    // Performs one call and notes it, in memory that is there already.
    pub(crate) fn note(&mut self, call: Call) -> Answer
        requires room { vec_len self.old.lines < vec_capacity self.old.lines }
        requires place { vec_len self.old.hand < vec_capacity self.old.hand }
        ensures did { Performed (till_suite C.enciphered C.deciphered A.tagged self.old.till) (suite_at C.enciphered C.deciphered A.tagged self.old.meter) call result (world_at S.kept S.writes self.old) (world_at S.kept S.writes self.new) }
        ensures noted { journal_of self.new ≡ journal_of self.old ++ line_of call result (S.writes self.new.meter.parts.store) ∷ [] }
        ensures meter { self.new.meter ≡ with_store self.old.meter self.new.meter.parts.store }
        ensures till { self.new.till ≡ with_desk self.old.till self.new.till.index self.new.till.counts }
        ensures opening { self.new.opening ≡ self.old.opening }
        ensures lawful { Lawful S.kept S.writes C.enciphered C.deciphered A.tagged self.old → Lawful S.kept S.writes C.enciphered C.deciphered A.tagged self.new }
        ensures capacity { vec_capacity self.new.lines ≡ vec_capacity self.old.lines }
        ensures hand_capacity { vec_capacity self.new.hand ≡ vec_capacity self.old.hand }
    {
        let answer = perform_at(&mut self.till, &mut self.hand, &mut self.meter, &call);
        let writes = self.meter.writes_left();
        self.lines.push_reserved(Line {
            call,
            answer,
            writes,
        });
        answer
    }

    // Performs one call and notes it. Want of memory is found before the call, where the journal or the hand has no room left, and
    // leaves till, meter, hand and journal as they were.
    pub fn perform(&mut self, call: Call) -> Result<Answer, AllocError>
        ensures did { MatchResult result (λ answer. Performed (till_suite C.enciphered C.deciphered A.tagged self.old.till) (suite_at C.enciphered C.deciphered A.tagged self.old.meter) call answer (world_at S.kept S.writes self.old) (world_at S.kept S.writes self.new)) (λ _. world_at S.kept S.writes self.new ≡ world_at S.kept S.writes self.old) }
        ensures noted { MatchResult result (λ answer. journal_of self.new ≡ journal_of self.old ++ line_of call answer (S.writes self.new.meter.parts.store) ∷ []) (λ _. (journal_of self.new ≡ journal_of self.old) × (self.new.meter ≡ self.old.meter)) }
        ensures memory { OnErr result ((vec_capacity self.old.lines ≡ vec_len self.old.lines) ⊎ (vec_capacity self.old.hand ≡ vec_len self.old.hand)) }
        ensures meter { self.new.meter ≡ with_store self.old.meter self.new.meter.parts.store }
        ensures till { self.new.till ≡ with_desk self.old.till self.new.till.index self.new.till.counts }
        ensures opening { self.new.opening ≡ self.old.opening }
        ensures lawful { Lawful S.kept S.writes C.enciphered C.deciphered A.tagged self.old → Lawful S.kept S.writes C.enciphered C.deciphered A.tagged self.new }
    {
        self.lines.reserve(1)?;
        self.hand.reserve(1)?;
        Ok(self.note(call))
    }

    // The credit of the meter, in minor units.
    pub fn credit(&mut self) -> u32
        ensures value { result ≡ (S.kept self.old.meter.parts.store).credit }
        ensures same { self.new ≡ self.old }
    {
        self.meter.credit()
    }
}

impl<S, C, A> Ledger<S, C, A> {
    // The till's counts.
    pub fn counts(&self) -> Counts
        ensures { result ≡ self.now.till.counts }
    {
        self.till.counts()
    }

    // The numbers in hand.
    pub fn hand(&self) -> &[DrawnNumber]
        ensures { result.now ≡ self.now.hand.items }
    {
        self.hand.as_slice()
    }

    // The journal, in the order of the calls.
    pub fn lines(&self) -> &[Line]
        ensures { result.now ≡ journal_of self.now }
    {
        self.lines.as_slice()
    }

    // Till, meter and hand again, as they are.
    pub fn close(self) -> Closed<S, C, A>
        ensures { result ≡ closed_of self }
    {
        let Ledger {
            till,
            meter,
            hand,
            opening: _,
            lines: _,
        } = self;
        Closed { till, meter, hand }
    }
}
