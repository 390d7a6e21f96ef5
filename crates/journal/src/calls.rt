// What is asked of a till and of a meter in service, and the journal of it.
use crate::answers::Answer;
pub use meter::calls::{Entry, Usage};
use sale::orders::Sale;

// A slip to be issued for a number in hand.
#[derive(Clone, Copy)]
pub struct Order {
    pub number: u32,
    pub sale: Sale,
}

// A number in hand that is to be voided.
#[derive(Clone, Copy)]
pub struct Cancellation {
    pub number: u32,
}

#[derive(Drop)]
pub enum Call {
    Draw,
    Issue(Order),
    Void(Cancellation),
    Enter(Entry),
    Spend(Usage),
}

pub type Line = meter::calls::Line<Call, Answer>;
