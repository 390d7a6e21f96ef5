// A meter in service: it takes entries, spends and questions, and no keys.
ghost use Rattle.std.specs.Prelude.{◌≡◌, ℕ, if◌then◌else◌, Ok, Err, nat_lt};
ghost use Rattle.refusal.specs.Checks.{provided};
ghost use Rattle.refusal.specs.declared.Refusal.TheVariants.{NoWrites};
ghost use Rattle.entry.specs.Judging.{judged};
ghost use Rattle.meter.specs.Meters.{in_service, with_store, suite_at};
ghost use Rattle.meter.specs.Answering.{taking, entry_obeyed, spend_judged, spending, spend_obeyed};

use crate::answers::{Spent, Taken};
use crate::parts::Parts;
use authenticator::Authenticator;
use cipher::Cipher;
use entry::judge;
use record::Record;
use refusal::Refusal;
use store::Store;

// The most that one spend may take.
const LARGEST_SPEND: u32 = 1_000_000;

#[derive(Drop)]
pub struct Meter<S, C, A> {
    parts: Parts<S, C, A>,
}

// Writes the record, if the store has a write left. An if turns the store's answer into a result; `then_some(()).ok_or(..)` would say
// it with a unit on the way.
fn keep<S: Store>(store: &mut S, next: Record) -> Result<(), Refusal>
    ensures answer { result ≡ provided (nat_lt 0 (S.writes store.old)) NoWrites (Ok tt) }
    ensures after { store.new ≡ (if nat_lt 0 (S.writes store.old) then S.after store.old next else store.old) }
{
    if store.write(next) {
        Ok(())
    } else {
        Err(Refusal::NoWrites)
    }
}

impl<S, C, A> Meter<S, C, A> {
    pub(crate) fn new(parts: Parts<S, C, A>) -> Meter<S, C, A>
        ensures { result ≡ in_service parts }
    {
        Meter { parts }
    }

    // The parts again, as they are.
    pub fn into_parts(self) -> Parts<S, C, A>
        ensures { result ≡ self.parts }
    {
        let Meter { parts } = self;
        parts
    }
}

impl<S: Store, C: Cipher, A: Authenticator> Meter<S, C, A> {
    // Takes the digits of a slip, or refuses them and stays as it was.
    #[tactic(auto, using(crate::proofs::Ways::refused_at, crate::proofs::Ways::unwritable, crate::proofs::Ways::taken_at, crate::proofs::Ways::done, crate::proofs::Ways::undone))]
    pub fn enter(&mut self, text: &[u8]) -> Result<Taken, Refusal>
        ensures answer { result ≡ taking (judged (suite_at C.enciphered C.deciphered A.tagged self.old) (S.kept self.old.parts.store) (S.writes self.old.parts.store) text.now) }
        ensures after { self.new ≡ with_store self.old (entry_obeyed S.after (judged (suite_at C.enciphered C.deciphered A.tagged self.old) (S.kept self.old.parts.store) (S.writes self.old.parts.store) text.now) self.old.parts.store) }
    {
        let kept = self.parts.store.read();
        let sealer = &self.parts.sealer;
        let worth = judge(
            &sealer.settings,
            &sealer.cipher,
            &sealer.authenticator,
            kept,
            text,
        )?;
        keep(&mut self.parts.store, worth.next)?;
        Ok(Taken {
            number: worth.number,
            amount: worth.amount,
            credit: worth.next.credit,
        })
    }

    // Lowers the credit, or refuses to and stays as it was.
    #[tactic(auto, unfolding(crate::specs::Answering::spend_judged))]
    pub fn spend(&mut self, amount: u32) -> Result<Spent, Refusal>
        ensures answer { result ≡ spending amount (spend_judged (S.kept self.old.parts.store) (S.writes self.old.parts.store) amount) }
        ensures after { self.new ≡ with_store self.old (spend_obeyed S.after (spend_judged (S.kept self.old.parts.store) (S.writes self.old.parts.store) amount) self.old.parts.store) }
    {
        if amount == 0 || amount > LARGEST_SPEND {
            return Err(Refusal::SpendAmount);
        }
        let kept = self.parts.store.read();
        let next = kept.spending(amount).ok_or(Refusal::SpendAboveCredit)?;
        keep(&mut self.parts.store, next)?;
        Ok(Spent {
            amount,
            credit: next.credit,
        })
    }

    // The record that the store means.
    pub fn read(&mut self) -> Record
        ensures value { result ≡ S.kept self.old.parts.store }
        ensures same { self.new ≡ self.old }
    {
        self.parts.store.read()
    }

    // The credit, in minor units.
    pub fn credit(&mut self) -> u32
        ensures value { result ≡ (S.kept self.old.parts.store).credit }
        ensures same { self.new ≡ self.old }
    {
        self.parts.store.read().credit
    }

    // How many writes the store has left.
    pub fn writes_left(&mut self) -> u32
        ensures value { result ≡ S.writes self.old.parts.store }
        ensures same { self.new ≡ self.old }
    {
        self.parts.store.writes_left()
    }
}
