// GMAC of SP 800-38D over AES-128.
#![tactic(auto)]

ghost use Rattle.std.specs.Prelude.{◌≡◌};
ghost use Rattle.gmac.specs.Gmac.{first_counter};
ghost use Rattle.gmac.specs.Authenticating.{gmac_for, gmac_tag};
ghost use Rattle.gmac.specs.Tags.{gmac_sixteen, gmac_bytes};

pub mod state;

use aes::Aes128;
use authenticator::Authenticator;
use authenticator::byte_sum::counting_part;
use chaining::{BlockMap, block_of, chain};
use ghash::HashKey;
pub use state::Gmac;

// The nonce and a counter that is 1, as a block.
#[tactic(auto, using(crate::proofs::Tagging::room, crate::proofs::Tagging::counter_is))]
fn first_counter(nonce: &[u8; 12]) -> u128
    ensures { result ≡ first_counter nonce.now }
{
    block_of(nonce) + 1
}

impl Authenticator for Gmac {
    ghost tagged = { gmac_tag };

    ghost keyed = { gmac_for };

    ghost sixteen = { gmac_sixteen };

    ghost bytes = { gmac_bytes };

    fn tag(&self, nonce: &[u8; 12], message: &[u8]) -> [u8; 16] {
        let part = counting_part(message);
        let y = chain(&self.hash, 0, part);
        let lengths = (8 * part.len()) as u128 * (1 << 64);
        let hashed = self.hash.apply(y ^ lengths);
        (self.aes.apply(first_counter(nonce)) ^ hashed).to_be_bytes()
    }

    #[tactic(auto, using(crate::proofs::Tagging::made))]
    fn keyed(key: &[u8; 16], _meter: u64) -> Gmac {
        let aes = Aes128::new(key);
        let hash = HashKey::new(aes.apply(0));
        Gmac { aes, hash }
    }
}
