// Stores of one record. What a store means is a record and a count of writes left.
#![tactic(auto)]

ghost use Rattle.std.specs.Prelude.{◌≡◌, ℕ, ◌-◌, ◌<◌, ◌≤◌, nat_lt, if◌then◌else◌};
ghost use Rattle.record.specs.declared.Record.{Record};

pub mod plain;

pub use plain::PlainStore;
use record::Record;

// The project requires this form of a store: each question is a call on &mut self, and a write answers whether it was done.
pub trait Store {
    // The record that the store means.
    ghost kept: { Self → Record };

    // How many writes are left.
    ghost writes: { Self → ℕ };

    // The store after a write that is done.
    ghost after: { Self → Record → Self };

    fn read(&mut self) -> Record
        ensures value { result ≡ kept self.old }
        ensures same { self.new ≡ self.old };

    fn writes_left(&mut self) -> u32
        ensures value { result ≡ writes self.old }
        ensures same { self.new ≡ self.old };

    // Replaces the whole record, and answers whether that was done: it is done exactly when writes are left.
    fn write(&mut self, r: Record) -> bool
        ensures test { result ≡ nat_lt 0 (writes self.old) }
        ensures after { self.new ≡ (if nat_lt 0 (writes self.old) then after self.old r else self.old) };

    // It then means the record written.
    ghost holds: { (s : Self) (r : Record) → 0 < writes s → kept (after s r) ≡ r };

    // A write lowers the count by one or none.
    ghost most: { (s : Self) (r : Record) → 0 < writes s → writes (after s r) ≤ writes s };

    ghost least: { (s : Self) (r : Record) → 0 < writes s → writes s - 1 ≤ writes (after s r) };
}
