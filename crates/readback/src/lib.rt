// What a till prints, a meter reads.
#![tactic(auto)]

ghost use Rattle.readback.specs.Back.{SlipsReadBack, SlipsReadBackAnywhere, SlipDigits};

// A slip that a till may issue is read at a meter of the same suite, with its number in the window and its index current, for the
// number, the amount and the prices that were sold.
pub fn slips_read_back() -> u8
    ensures meters { SlipsReadBack }
    ensures standings { SlipsReadBackAnywhere }
    ensures digits { SlipDigits }
{
    0
}
