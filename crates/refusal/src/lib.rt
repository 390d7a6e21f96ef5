// The closed list of refusals: why a call was not performed.
#![tactic(auto)]

ghost use Rattle.std.specs.Prelude.{◌≡◌, Some};
ghost use Rattle.refusal.specs.Numbers.{number_of};
ghost use Rattle.refusal.specs.Words.{words_of};

use std::error::Error;
use std::fmt;

// One case for each reason. Callers show the guest or the clerk its number.
#[derive(Clone, Copy, PartialEq, Eq, Debug)]
pub enum Refusal {
    // The entry is not 20, 40, 60 or 80 bytes long.
    Length,
    // A byte of the entry is no decimal digit.
    NotADigit,
    // A check digit is wrong.
    CheckDigit,
    // A number has no block below 2^61.
    NoBlock,
    // The SubClass is none that is served.
    OtherSubClass,
    // The SubClass does not go with so many blocks, or a block names the wrong count of blocks after it.
    WrongBlocks,
    // The meter's function index cannot be raised any more.
    IndexFull,
    // No number of the token window ends in the ten bits of the slip.
    OutsideWindow,
    // The tag of the slip is not the one that the meter computes.
    WrongTag,
    // The number was counted before.
    AlreadyCounted,
    // The slip names a multiplier that is reserved.
    ReservedConfig,
    // A rule of rate prices is broken.
    RatePrices,
    // Credit and amount together pass the ceiling.
    AboveCeiling,
    // The store takes no more writes.
    NoWrites,
    // A spend of nothing, or of more than 1,000,000.
    SpendAmount,
    // A spend of more than the credit.
    SpendAboveCredit,
    // A setting is outside its limits, or every multiplier is reserved.
    Settings,
    // A sale that no slip can carry.
    Sale,
    // The till's function index cannot be raised any more.
    TillIndexFull,
    // Every number was drawn.
    NoMoreNumbers,
    // The memory is shorter than an image.
    ShortMemory,
    // The length of a write-behind layer is outside its limits.
    WriteBehindLength,
}

impl Refusal {
    // The number under which the refusal is listed. Every refusal is told by it, so it is asked for by name and no conversion.
    pub fn number(self) -> u8
        ensures { result ≡ number_of self }
    {
        match self {
            Refusal::Length => 1,
            Refusal::NotADigit => 2,
            Refusal::CheckDigit => 3,
            Refusal::NoBlock => 4,
            Refusal::OtherSubClass => 5,
            Refusal::WrongBlocks => 6,
            Refusal::IndexFull => 7,
            Refusal::OutsideWindow => 8,
            Refusal::WrongTag => 9,
            Refusal::AlreadyCounted => 10,
            Refusal::ReservedConfig => 11,
            Refusal::RatePrices => 12,
            Refusal::AboveCeiling => 13,
            Refusal::NoWrites => 14,
            Refusal::SpendAmount => 15,
            Refusal::SpendAboveCredit => 16,
            Refusal::Settings => 17,
            Refusal::Sale => 18,
            Refusal::TillIndexFull => 19,
            Refusal::NoMoreNumbers => 20,
            Refusal::ShortMemory => 21,
            Refusal::WriteBehindLength => 22,
        }
    }
}

// Why the call was not performed, in a few words.
impl fmt::Display for Refusal {
    ghost output = { λ refusal. Some (words_of refusal) };

    fn fmt<W: fmt::Write>(&self, f: &mut fmt::Formatter<W>) -> fmt::Result {
        f.write_str(match self {
            Refusal::Length => "not 20, 40, 60 or 80 digits",
            Refusal::NotADigit => "a byte is no digit",
            Refusal::CheckDigit => "a check digit is wrong",
            Refusal::NoBlock => "a number has no block",
            Refusal::OtherSubClass => "no such SubClass",
            Refusal::WrongBlocks => "blocks that make no slip",
            Refusal::IndexFull => "the meter's index is at its end",
            Refusal::OutsideWindow => "no such number in the window",
            Refusal::WrongTag => "the tag is wrong",
            Refusal::AlreadyCounted => "the number was counted before",
            Refusal::ReservedConfig => "a reserved multiplier",
            Refusal::RatePrices => "a rule of rate prices is broken",
            Refusal::AboveCeiling => "the credit would pass the ceiling",
            Refusal::NoWrites => "no writes are left",
            Refusal::SpendAmount => "no amount to be spent",
            Refusal::SpendAboveCredit => "more than the credit",
            Refusal::Settings => "settings outside their limits",
            Refusal::Sale => "a sale that no slip can carry",
            Refusal::TillIndexFull => "the till's index is at its end",
            Refusal::NoMoreNumbers => "every number was drawn",
            Refusal::ShortMemory => "too little memory",
            Refusal::WriteBehindLength => "a length outside its limits",
        })
    }
}

impl Error for Refusal {}
