// What is computed once for a key and a tweak.
ghost use Rattle.std.specs.Prelude.{◌≡◌, ◌≤◌, length, if◌then◌else◌, Some, None};
ghost use Rattle.aes.specs.Keyed.{key_of};
ghost use Rattle.cipher.specs.Widths.{bits};
ghost use Rattle.ff1.specs.Ff1.{head_block};
ghost use Rattle.ff1.specs.Sizes.{room_for};
ghost use Rattle.ff1.specs.Preparing.{mask_of, rounds_of};

use crate::numerals::Numerals;
use crate::rounds::Rounds;
use crate::sizing::{binary, sizes_of};
use aes::Aes128;
use chaining::{BlockMap, block_of, chain};
use cipher::width::Width;

impl Numerals {
    // The first block of every round.
    #[tactic(auto, using(crate::proofs::Heading::head_is))]
    fn head_block(&self, tweak_len: u8) -> [u8; 16]
        ensures { result ≡ head_block self.now.radix self.now.digits tweak_len }
    {
        let [_, r2, r1, r0] = self.radix.to_be_bytes();
        let [n3, n2, n1, n0] = self.digits.to_be_bytes();
        let half = (self.digits / 2 % 256) as u8;
        [
            1, 2, 1, r2, r1, r0, 10, half, n3, n2, n1, n0, 0, 0, 0, tweak_len,
        ]
    }

    // The blocks of a round that are the same in every round: all before the last are chained, and the tweak's part of the last is added.
    #[tactic(auto, using(crate::proofs::Heading::mask_is))]
    fn mask(&self, aes: &Aes128, tweak: &[u8]) -> u128
        requires { length tweak.now ≤ 255 }
        ensures { result ≡ mask_of self.now.radix self.now.digits (key_of aes.now) tweak.now }
    {
        let head = self.head_block(tweak.len() as u8);
        let leading = (tweak.len() + self.sizes.bytes as usize) / 16 * 16;
        let (front, rest) = tweak.split_at(leading.min(tweak.len()));
        let start = aes.apply(block_of(&head));
        chain(aes, start, front) ^ block_of(rest)
    }

    // What the rounds need beside the key.
    fn rounds(&self, aes: &Aes128, tweak: &[u8]) -> Rounds
        requires { length tweak.now ≤ 255 }
        ensures { result ≡ rounds_of self.now.radix self.now.digits (key_of aes.now) tweak.now }
    {
        let mask = self.mask(aes, tweak);
        Rounds {
            sizes: self.sizes,
            mask,
        }
    }
}

// For a width of a cipher, whose sizes are constants: with those of `rounds_of` enciphering 59 bits took 961 ns in the place of 729.
#[tactic(auto, using(crate::proofs::Joining::width_few))]
pub(crate) fn rounds_for(aes: &Aes128, width: Width, tweak: &[u8; 8]) -> Rounds
    ensures { result ≡ rounds_of 2 (bits width) (key_of aes.now) tweak.now }
{
    let numerals = Numerals {
        radix: 2,
        digits: width.bits(),
        sizes: binary(width),
    };
    numerals.rounds(aes, tweak)
}

// For any radix, length and tweak that there is room for.
pub(crate) fn rounds_of(aes: &Aes128, radix: u32, digits: u32, tweak: &[u8]) -> Option<Rounds>
    ensures { result ≡ (if room_for radix digits tweak.now then Some (rounds_of radix digits (key_of aes.now) tweak.now) else None) }
{
    let sizes = sizes_of(radix, digits)?;
    if tweak.len() > 255 {
        return None;
    }
    let numerals = Numerals {
        radix,
        digits,
        sizes,
    };
    Some(numerals.rounds(aes, tweak))
}
