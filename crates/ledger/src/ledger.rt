// A ledger: a meter in service with the journal of all that was asked of it.
use crate::calls::Line;
use meter::service::Meter;
use record::Record;

// What the store meant and had left when the ledger was opened.
#[derive(Clone, Copy)]
pub struct Opening {
    pub(crate) kept: Record,
    pub(crate) writes: u32,
}

// That it keeps the law is a clause of its methods and no ghost field: such a field holds only a fact with one proof, which the law is
// not, and cut down to one it would promise less. Nor is it one ledger with that of `till_ledger`, over any desk: the law would then be
// a member of a trait, and the contract of `run` would no longer show it.
#[derive(Drop)]
pub struct Ledger<S, C, A> {
    pub(crate) meter: Meter<S, C, A>,
    pub(crate) opening: Opening,
    pub(crate) lines: Vec<Line>,
}
