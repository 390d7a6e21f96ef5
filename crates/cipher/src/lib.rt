// Ciphers on the enciphered parts of blocks: numbers of 57 and of 59 bits.
#![tactic(auto)]

ghost use Rattle.std.specs.Prelude.{List, ◌≡◌, ℕ, ◌%◌, ◌^◌, ◌<◌};
ghost use Rattle.cipher.specs.Widths.{bits};
ghost use Rattle.cipher.specs.declared.width.Width.{Width};

pub mod clear;
pub mod width;

use width::Width;

// Two maps for each width, of which the second undoes the first.
pub trait Cipher {
    // What a number below 2 to the width is enciphered to.
    ghost enciphered: { Self → Width → ℕ → ℕ };

    // What a number below 2 to the width is deciphered to.
    ghost deciphered: { Self → Width → ℕ → ℕ };

    // The cipher of this kind for a key of sixteen bytes and a MeterID.
    ghost keyed: { List ℕ → ℕ → Self };

    // A larger number counts as its low bits.
    fn encipher(&self, width: Width, n: u64) -> u64
        ensures value { result ≡ enciphered self.now width (n % 2 ^ bits width) }
        ensures bound { result < 2 ^ bits width };

    // A larger number counts as its low bits.
    fn decipher(&self, width: Width, n: u64) -> u64
        ensures value { result ≡ deciphered self.now width (n % 2 ^ bits width) }
        ensures bound { result < 2 ^ bits width };

    // One of this kind, for a key and a MeterID.
    fn keyed(key: &[u8; 16], meter: u64) -> Self
        ensures { result ≡ keyed key.now meter };

    ghost below: { (c : Self) (w : Width) (n : ℕ) → n < 2 ^ bits w → enciphered c w n < 2 ^ bits w };

    ghost within: { (c : Self) (w : Width) (n : ℕ) → n < 2 ^ bits w → deciphered c w n < 2 ^ bits w };

    ghost undone: { (c : Self) (w : Width) (n : ℕ) → n < 2 ^ bits w → deciphered c w (enciphered c w n) ≡ n };
}
