// Lengths of write-behind layers, from what a fitter states.
ghost use Rattle.std.specs.Prelude.{◌≡◌};
ghost use Rattle.layers.specs.Lengths.{length_of};

use crate::length::Length;
use refusal::Refusal;

// The greatest length.
const LONGEST: u8 = 64;

impl Length {
    // Refuses 0, and more than 64. It is named as what makes a length, and no `TryFrom`, where a caller would have to look up what is tried.
    pub fn new(value: u8) -> Result<Length, Refusal>
        ensures { result ≡ length_of value }
    {
        if value == 0 || value > LONGEST {
            return Err(Refusal::WriteBehindLength);
        }
        Ok(Length { value })
    }
}
