// Slips as digits: groups of twenty decimal digits, nineteen that spell a number and a check digit, and the blocks that they carry.
#![tactic(auto)]

ghost use Rattle.decimal.specs.Laws.{NoticesSwap, NoticesWrongDigit, RoundTrip};

pub mod blocks;
pub mod reading;
pub mod text;
pub mod verhoeff;
pub mod writing;

// Reading undoes writing, and writing undoes reading.
pub fn round_trip() -> u8
    ensures { RoundTrip }
{
    0
}

// One wrong digit anywhere in a slip is noticed.
#[tactic(auto, using(crate::proofs::Noticing::notices_wrong_digit))]
pub fn notices_wrong_digit() -> u8
    ensures { NoticesWrongDigit }
{
    0
}

// Two different neighbours among the nineteen digits of one group, keyed in the wrong order, are noticed.
#[tactic(auto, using(crate::proofs::Noticing::notices_swap))]
pub fn notices_swap() -> u8
    ensures { NoticesSwap }
{
    0
}
