// What is asked of a meter in service, and the journal of it.
use meter::answers::Answer;
pub use meter::calls::{Entry, Usage};

#[derive(Drop)]
pub enum Call {
    Enter(Entry),
    Spend(Usage),
}

pub type Line = meter::calls::Line<Call, Answer>;
