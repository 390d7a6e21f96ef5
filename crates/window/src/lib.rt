// Numbers that are counted once: the window round the highest one, the marks of those counted, and the number that ten
// bits stand for.
#![tactic(auto)]

ghost use Rattle.std.specs.Prelude.{◌≡◌, ◌+◌, ◌<◌, ◌≤◌, true, false};
ghost use Rattle.window.specs.Limits.{room};
ghost use Rattle.window.specs.Recovery.{lowest, uppermost, in_window, span, recovered_in, Lowest, Only, recovered, Recovers};
ghost use Rattle.window.specs.Marks.{blank_window, window_of, marked, counted, Counted};
ghost use Rattle.window.specs.Replay.{NoReplay};

pub(crate) mod bits;
pub mod state;

use bits::{is_set, moved, with};
pub use state::Window;
use std::cmp::Ordering;

// The lowest of the `count` numbers from `first` on that ends in the ten bits `low`, if there is one. Among at most 1,024
// numbers it is the only one.
pub fn recover_in(first: u32, count: u32, low: u16) -> Option<u32>
    ensures value { result ≡ recovered_in first count low }
    ensures lowest { Lowest first count low result }
    ensures only { count ≤ 1024 → Only first count low result }
{
    if low >= 1024 {
        return None;
    }
    let step = (u32::from(low) + 1024 - first % 1024) % 1024;
    if step >= count {
        return None;
    }
    first.checked_add(step)
}

// How many marks a window with this highest number has: one for each of the 126 numbers below it, and none below 1.
fn mark_count(highest: u32) -> u32
    ensures value { result ≡ room highest }
    ensures most { result ≤ 126 }
{
    highest.saturating_sub(1).min(126)
}

impl Window {
    // Nothing was counted yet.
    pub fn blank() -> Window
        ensures { result ≡ blank_window }
    {
        Window {
            highest: 0,
            marks: 0,
        }
    }

    // None where a mark lies outside the 126 numbers below the highest, or is for a number below 1. An if, as there is a window only
    // where the test holds.
    pub fn new(highest: u32, marks: u128) -> Option<Window>
        ensures { result ≡ window_of highest marks }
    {
        if marks >> mark_count(highest) == 0 {
            Some(Window { highest, marks })
        } else {
            None
        }
    }

    // The highest number counted, 0 where there is none.
    pub fn highest(&self) -> u32
        ensures { result ≡ self.now.highest }
    {
        self.highest
    }

    // The marks below the highest number: bit k is for the number highest - 1 - k.
    pub fn marks(&self) -> u128
        ensures { result ≡ self.now.marks }
    {
        self.marks
    }

    // The window's first number.
    pub fn first(&self) -> u32
        ensures { result ≡ lowest self.now.highest }
    {
        self.highest.saturating_sub(126).max(1)
    }

    // The window's last number.
    pub fn last(&self) -> u32
        ensures { result ≡ uppermost self.now.highest }
    {
        self.highest.saturating_add(128)
    }

    // How many numbers the window has.
    fn size(&self) -> u32
        ensures { result ≡ span self.now.highest }
    {
        self.last() - self.first() + 1
    }

    // Whether the number lies in the window.
    pub fn holds(&self, n: u32) -> bool
        ensures { result ≡ in_window self.now.highest n }
    {
        self.first() <= n && n <= self.last()
    }

    // The one number of the window that ends in the ten bits `low`, if there is one.
    #[tactic(auto, unfolding(crate::specs::Recovery::number_for, crate::specs::Recovery::in_reach))]
    pub fn recover(&self, low: u16) -> Option<u32>
        ensures value { result ≡ recovered self.now.highest low }
        ensures only { Recovers self.now.highest low result }
    {
        recover_in(self.first(), self.size(), low)
    }

    // Whether the number was counted, as far as the window tells: the highest is marked, unless it is 0.
    pub fn is_marked(&self, n: u32) -> bool
        ensures { result ≡ marked self.now n }
    {
        match n.cmp(&self.highest) {
            Ordering::Less => {
                let place = self.highest - 1 - n;
                place < 126 && is_set(self.marks, place)
            }
            Ordering::Equal => n > 0,
            Ordering::Greater => false,
        }
    }

    // Counts a number of the window.
    fn counting(self, n: u32) -> Window
        requires some { 0 < n }
        requires near { self.highest ≤ n + 126 }
        ensures { Counted self n result }
    {
        let highest = n.max(self.highest);
        let left = mark_count(highest);
        let marks = match n.cmp(&self.highest) {
            Ordering::Less => with(self.marks, self.highest - 1 - n, left),
            Ordering::Equal => self.marks,
            Ordering::Greater => moved(self.marks, n - self.highest, self.highest > 0, left),
        };
        Window { highest, marks }
    }

    // Counts the number: it is marked then, and the highest is the greater of the two. A number outside the window changes
    // nothing.
    #[tactic(auto, using(crate::proofs::Counting::not_counted))]
    pub fn count(self, n: u32) -> Window
        ensures value { result ≡ counted self n }
        ensures counts { in_window self.highest n ≡ true → Counted self n result }
        ensures other { in_window self.highest n ≡ false → result ≡ self }
    {
        if !self.holds(n) {
            return self;
        }
        self.counting(n)
    }
}

// No number is counted twice: the law is this function's contract.
#[tactic(auto, using(crate::proofs::Replay::no_replay))]
pub fn no_replay() -> u8
    ensures { NoReplay }
{
    0
}
