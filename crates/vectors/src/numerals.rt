// FF1 on numerals of a radix, and on numbers in bits as a cipher.
ghost use Rattle.vectors.specs.Right.{right_numeral, right_bits};

use crate::agreeing::Vector;
use aes::Aes128;
use cipher::Cipher;
use cipher::width::Width;
use ff1::{Ff1, decipher_numerals, encipher_numerals};

// A number of so many digits.
#[derive(Clone, Copy)]
pub(crate) struct NumeralVector {
    pub(crate) key: u128,
    pub(crate) radix: u32,
    pub(crate) digits: u32,
    pub(crate) tweak: &'static [u8],
    pub(crate) plain: u128,
    pub(crate) enciphered: u128,
}

// A number of 57 or 59 bits.
#[derive(Clone, Copy)]
pub(crate) struct BitsVector {
    pub(crate) key: u128,
    pub(crate) meter: u64,
    pub(crate) width: Width,
    pub(crate) plain: u64,
    pub(crate) enciphered: u64,
}

impl Vector for NumeralVector {
    ghost right = { right_numeral };

    fn agrees(&self) -> bool {
        let aes = Aes128::new(&self.key.to_be_bytes());
        let there = encipher_numerals(&aes, self.radix, self.digits, self.tweak, self.plain);
        let back = decipher_numerals(&aes, self.radix, self.digits, self.tweak, self.enciphered);
        there == Some(self.enciphered) && back == Some(self.plain)
    }
}

impl Vector for BitsVector {
    ghost right = { right_bits };

    fn agrees(&self) -> bool {
        let cipher = Ff1::keyed(&self.key.to_be_bytes(), self.meter);
        let there = cipher.encipher(self.width, self.plain);
        let back = cipher.decipher(self.width, self.enciphered);
        there == self.enciphered && back == self.plain
    }
}
