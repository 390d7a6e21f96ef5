// FF1 of SP 800-38G over AES-128: on numbers of any radix and length that there is room for, and as a cipher.
#![tactic(auto)]

ghost use Rattle.std.specs.Prelude.{◌≡◌, ◌%◌, ◌^◌, if◌then◌else◌, Some, None};
ghost use Rattle.spelling.specs.Spelling.{bytes_of};
ghost use Rattle.aes.specs.Keyed.{key_of};
ghost use Rattle.cipher.specs.Widths.{bits};
ghost use Rattle.ff1.specs.Ff1.{ff1, ff1_back};
ghost use Rattle.ff1.specs.Laws.{Ff1Returns};
ghost use Rattle.ff1.specs.Sizes.{room_for};
ghost use Rattle.ff1.specs.Preparing.{rounds_of};
ghost use Rattle.ff1.specs.Ciphering.{ff1_for, ff1_enciphered, ff1_deciphered};
ghost use Rattle.ff1.specs.CipheringLaws.{ff1_below, ff1_within, ff1_undone};

pub(crate) mod network;
pub(crate) mod numerals;
pub(crate) mod preparing;
pub mod rounds;
pub(crate) mod sizing;
pub mod state;

use aes::Aes128;
use cipher::Cipher;
use cipher::clear::low_bits;
use cipher::width::Width;
use network::Network;
use preparing::{rounds_for, rounds_of};
use rounds::Prepared;
pub use state::Ff1;

// Deciphering undoes enciphering, at every radix, length, key and tweak.
pub fn ff1_law() -> u8
    ensures { Ff1Returns }
{
    0
}

// Enciphers a number of so many digits. None for a radix, a length or a tweak that there is no room for.
pub fn encipher_numerals(
    aes: &Aes128,
    radix: u32,
    digits: u32,
    tweak: &[u8],
    n: u128,
) -> Option<u128>
    ensures { result ≡ (if room_for radix digits tweak.now then Some (ff1 radix digits (key_of aes.now) tweak.now (n % radix ^ digits)) else None) }
{
    let rounds = rounds_of(aes, radix, digits, tweak)?;
    let network = Network {
        aes,
        rounds: &rounds,
    };
    Some(network.forth(network.reduced(n)))
}

// Takes `encipher_numerals` back. The inverse map: one function for both would pass the direction and its contract along.
pub fn decipher_numerals(
    aes: &Aes128,
    radix: u32,
    digits: u32,
    tweak: &[u8],
    n: u128,
) -> Option<u128>
    ensures { result ≡ (if room_for radix digits tweak.now then Some (ff1_back radix digits (key_of aes.now) tweak.now (n % radix ^ digits)) else None) }
{
    let rounds = rounds_of(aes, radix, digits, tweak)?;
    let network = Network {
        aes,
        rounds: &rounds,
    };
    Some(network.back(network.reduced(n)))
}

impl Ff1 {
    // The key, with what was prepared for a width.
    fn network(&self, width: Width) -> Network<'_>
        ensures key { result.aes.now ≡ self.now.aes }
        ensures rounds { result.rounds.now ≡ rounds_of 2 (bits width) (key_of self.now.aes) (bytes_of 8 self.now.meter) }
    {
        Network {
            aes: &self.aes,
            rounds: match width {
                Width::First => &self.prepared.first,
                Width::Further => &self.prepared.further,
            },
        }
    }
}

impl Cipher for Ff1 {
    ghost enciphered = { ff1_enciphered };

    ghost deciphered = { ff1_deciphered };

    ghost keyed = { ff1_for };

    ghost below = { ff1_below };

    ghost within = { ff1_within };

    ghost undone = { ff1_undone };

    fn encipher(&self, width: Width, n: u64) -> u64 {
        self.network(width).forth(u128::from(low_bits(width, n))) as u64
    }

    fn decipher(&self, width: Width, n: u64) -> u64 {
        self.network(width).back(u128::from(low_bits(width, n))) as u64
    }

    fn keyed(key: &[u8; 16], meter: u64) -> Ff1 {
        let aes = Aes128::new(key);
        let tweak = meter.to_be_bytes();
        let first = rounds_for(&aes, Width::First, &tweak);
        let further = rounds_for(&aes, Width::Further, &tweak);
        Ff1 {
            aes,
            meter,
            prepared: Prepared { first, further },
        }
    }
}
