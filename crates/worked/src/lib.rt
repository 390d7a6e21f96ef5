// Slips worked out by hand, held against the definitions, and the settings of the bench that they are worked out on.
#![tactic(auto)]

ghost use Rattle.worked.specs.Worked.{WorkedSlips};

pub mod bench;

// The definitions give what was worked out by hand.
pub fn worked_slips() -> u8
    ensures { WorkedSlips }
{
    0
}
