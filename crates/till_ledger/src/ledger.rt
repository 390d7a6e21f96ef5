// A ledger: a till and a meter in service, the numbers in hand, and the journal of all that was asked.
use journal::calls::Line;
use meter::service::Meter;
use record::Record;
use till::counts::Counts;
use till::drawn::DrawnNumber;
use till::selling::Till;

// Where till and meter stood when the ledger was opened.
#[derive(Clone, Copy)]
pub struct Opening {
    pub(crate) kept: Record,
    pub(crate) writes: u32,
    pub(crate) counts: Counts,
    pub(crate) index: u16,
}

// It cannot be let go while numbers may be in hand: `close` takes it apart. That it keeps the law is a clause of its methods, and it is no
// twin of the ledger of a meter alone, for the reasons that stand there.
pub struct Ledger<S, C, A> {
    pub(crate) till: Till<C, A>,
    pub(crate) meter: Meter<S, C, A>,
    // Numbers that were drawn and neither issued nor voided yet.
    pub(crate) hand: Vec<DrawnNumber>,
    pub(crate) opening: Opening,
    pub(crate) lines: Vec<Line>,
}
