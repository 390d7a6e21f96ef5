// Printed slips and calls worked out by hand, held against the definitions.
#![tactic(auto)]

ghost use Rattle.worked_sales.specs.Printed.{WorkedPrinting};
ghost use Rattle.worked_sales.specs.Run.{WorkedRun};

// The digits that a till prints are those that the bench enters.
pub fn worked_printing() -> u8
    ensures { WorkedPrinting }
{
    0
}

// A list of calls for which everything holds that the law over runs asks for before an issued slip is taken.
pub fn worked_run() -> u8
    ensures { WorkedRun }
{
    0
}
