// CMAC of SP 800-38B over AES-128.
#![tactic(auto)]

ghost use Rattle.std.specs.Prelude.{◌≡◌, [], ◌∷◌, ◌++◌, slice_index};
ghost use Rattle.aes.specs.Keyed.{key_of};
ghost use Rattle.chaining.specs.Blocks.{block_of};
ghost use Rattle.cmac.specs.Cmac.{doubled, last_block, cmac};
ghost use Rattle.cmac.specs.Subkeys.{subkeys_of};
ghost use Rattle.cmac.specs.Authenticating.{cmac_for, mac_key, cmac_tag};
ghost use Rattle.cmac.specs.Tags.{cmac_sixteen, cmac_bytes};

pub mod state;
pub mod subkeys;

use aes::Aes128;
use arrayvec::ArrayVec;
use authenticator::Authenticator;
use authenticator::byte_sum::counting_part;
use chaining::{BlockMap, block_of, byte_at, chain};
pub use state::Cmac;
use std::array;
use subkeys::Subkeys;

// A block shifted left by one bit; a bit that falls out adds 0x87. AES and GHASH have products in other fields.
#[tactic(auto, unfolding(crate::specs::Cmac::doubled))]
fn double(n: u128) -> u128
    ensures { result ≡ doubled n }
{
    (n << 1) ^ ((n >> 127) * 0x87)
}

// Both subkeys come from the block of zeros under the key.
#[tactic(auto, unfolding(crate::specs::Cmac::first_subkey, crate::specs::Cmac::second_subkey))]
fn subkeys_of(aes: &Aes128) -> Subkeys
    ensures { result ≡ subkeys_of (key_of aes.now) }
{
    let first = double(aes.apply(0));
    let second = double(first);
    Subkeys { first, second }
}

// The byte at a place, where the byte 0x80 stands behind the last one, and zeros behind that.
fn filled_byte(rest: &[u8], i: usize) -> u8
    ensures { result ≡ slice_index (rest.now ++ (128 ∷ [])) i }
{
    if i == rest.len() {
        0x80
    } else {
        byte_at(rest, i)
    }
}

// Fewer than sixteen bytes as a block, filled up by one set bit and zeros. Beside chaining's `block_of`, which would otherwise take the
// byte at a place as a closure and promise of it what the body says here.
fn filled_block(rest: &[u8]) -> u128
    ensures { result ≡ block_of (rest.now ++ (128 ∷ [])) }
{
    u128::from_be_bytes(array::from_fn(|i| filled_byte(rest, i)))
}

impl Cmac {
    // The last block with its subkey.
    #[tactic(auto, using(crate::proofs::Lasting::whole_last, crate::proofs::Lasting::short_last))]
    fn last_block(&self, rest: &[u8]) -> u128
        ensures { result ≡ last_block (mac_key self.now) rest.now }
    {
        if rest.len() == 16 {
            return block_of(rest) ^ self.subkeys.first;
        }
        filled_block(rest) ^ self.subkeys.second
    }

    // The tag of a message of any length.
    #[tactic(auto, using(crate::proofs::Lasting::tag_is))]
    pub fn mac(&self, message: &[u8]) -> [u8; 16]
        ensures { result ≡ cmac (mac_key self.now) message.now }
    {
        let before = message.len().saturating_sub(1) / 16 * 16;
        let y = chain(&self.aes, 0, &message[..before]);
        let last = self.last_block(&message[before..]);
        self.aes.apply(y ^ last).to_be_bytes()
    }
}

impl Authenticator for Cmac {
    ghost tagged = { cmac_tag };

    ghost keyed = { cmac_for };

    ghost sixteen = { cmac_sixteen };

    ghost bytes = { cmac_bytes };

    fn tag(&self, nonce: &[u8; 12], message: &[u8]) -> [u8; 16] {
        let mut row = ArrayVec::<u8, 76>::new();
        row.try_extend_from_slice(nonce).unwrap();
        row.try_extend_from_slice(counting_part(message)).unwrap();
        self.mac(&row)
    }

    #[tactic(auto, using(crate::proofs::Making::made))]
    fn keyed(key: &[u8; 16], _meter: u64) -> Cmac {
        let aes = Aes128::new(key);
        let subkeys = subkeys_of(&aes);
        Cmac { aes, subkeys }
    }
}
