// What an entry that keeps the rules does.
use record::Record;

#[derive(Clone, Copy)]
pub struct Worth {
    pub number: u32,
    // In minor units.
    pub amount: u32,
    // The record once the entry is counted.
    pub next: Record,
}
