// The clear cipher.
ghost use Rattle.std.specs.Prelude.{◌≡◌, ℕ, ◌%◌, ◌^◌, ◌<◌};
ghost use Rattle.cipher.specs.Widths.{bits};
ghost use Rattle.cipher.specs.Clearing.{as_is, clear_for};
ghost use Rattle.cipher.specs.ClearingLaws.{clear_below, clear_within, clear_undone};

use crate::Cipher;
use crate::width::Width;

// Leaves every number as it is, whatever the key.
#[derive(Clone, Copy)]
pub struct Clear;

// The low bits of a number, as many as the width has.
pub fn low_bits(width: Width, n: u64) -> u64
    ensures value { result ≡ n % 2 ^ bits width }
    ensures bound { result < 2 ^ bits width }
{
    n % (1 << width.bits())
}

impl Cipher for Clear {
    ghost enciphered = { as_is };

    ghost deciphered = { as_is };

    ghost keyed = { clear_for };

    ghost below = { clear_below };

    ghost within = { clear_within };

    ghost undone = { clear_undone };

    fn encipher(&self, width: Width, n: u64) -> u64 {
        low_bits(width, n)
    }

    fn decipher(&self, width: Width, n: u64) -> u64 {
        low_bits(width, n)
    }

    fn keyed(_key: &[u8; 16], _meter: u64) -> Clear {
        Clear
    }
}
