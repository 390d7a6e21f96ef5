// Numbers that were drawn.
ghost use Rattle.std.specs.Prelude.{◌≡◌};
ghost use Rattle.till.specs.Drawing.{drawn_as};

use refusal::Refusal;

// A drawn number. Only a till's `draw` makes one, and only `issue` and `void` end one: it cannot be copied, and as it is not `Drop`
// the check refuses a program that lets one go.
pub struct DrawnNumber {
    number: u32,
}

impl DrawnNumber {
    pub(crate) fn new(number: u32) -> DrawnNumber
        ensures { result ≡ drawn_as number }
    {
        DrawnNumber { number }
    }

    // The number itself. It does not issue or void anything.
    pub fn number(&self) -> u32
        ensures { result ≡ self.now.number }
    {
        self.number
    }

    pub(crate) fn end(self) {
        let DrawnNumber { number: _ } = self;
    }
}

// A drawn number that was not issued, given back with the reason.
pub struct NotIssued {
    pub refusal: Refusal,
    pub drawn: DrawnNumber,
}
