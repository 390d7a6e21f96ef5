// What a slip is for.
ghost use Rattle.std.specs.Prelude.{◌≡◌};
ghost use Rattle.refusal.specs.Checks.{found};
ghost use Rattle.refusal.specs.declared.Refusal.TheVariants.{OtherSubClass};
ghost use Rattle.token.specs.SubClasses.{code, takes as takes_of, sub_class_of};

use refusal::Refusal;

#[derive(Clone, Copy, PartialEq, Eq, Debug)]
pub enum SubClass {
    // Credit, in clear.
    Clear,
    // Credit, enciphered.
    Enciphered,
    // Credit and rate prices, enciphered.
    Rates,
}

// From the code that a block has for it; refused for a code that is not served.
impl TryFrom<u8> for SubClass {
    type Error = Refusal;

    ghost try_from_gives = { λ n r. r ≡ found (sub_class_of n) OtherSubClass };

    fn try_from(code: u8) -> Result<SubClass, Refusal> {
        match code {
            0 => Ok(SubClass::Clear),
            8 => Ok(SubClass::Enciphered),
            10 => Ok(SubClass::Rates),
            _ => Err(Refusal::OtherSubClass),
        }
    }
}

// The code that a block has for it.
impl From<SubClass> for u8 {
    ghost from_gives = { λ k n. n ≡ code k };

    fn from(subclass: SubClass) -> u8 {
        match subclass {
            SubClass::Clear => 0,
            SubClass::Enciphered => 8,
            SubClass::Rates => 10,
        }
    }
}

impl SubClass {
    // Whether a slip may have so many blocks.
    pub fn takes(self, blocks: usize) -> bool
        ensures { result ≡ takes_of self blocks }
    {
        match self {
            SubClass::Clear | SubClass::Enciphered => blocks == 1,
            SubClass::Rates => 2 <= blocks && blocks <= 4,
        }
    }
}
