// Sums over a journal.
use till::counts::Counts;

// What was taken and spent, in minor units, and how many numbers were drawn, issued and voided. What a line
// adds has 32 bits and a journal has fewer than 2^64 lines, so these sums fit whatever it is.
#[derive(Clone, Copy)]
pub struct Balance {
    pub taken: u128,
    pub spent: u128,
    pub draws: u128,
    pub issues: u128,
    pub voids: u128,
}

// What one line adds to them.
#[derive(Clone, Copy)]
pub struct Share {
    pub taken: u32,
    pub spent: u32,
    pub draws: u32,
    pub issues: u32,
    pub voids: u32,
}

// The end of a day: what the meter opened with and what it has, the sums over the journal, the till's counts, and how many numbers are
// in hand.
#[derive(Clone, Copy)]
pub struct Closing {
    pub opened: u32,
    pub credit: u32,
    pub balance: Balance,
    pub counts: Counts,
    pub in_hand: usize,
    // Whether all of them agree.
    pub agrees: bool,
}
