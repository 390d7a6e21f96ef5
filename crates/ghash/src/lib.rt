// Products of blocks as GHASH of SP 800-38D has them.
#![tactic(auto)]

ghost use Rattle.std.specs.Prelude.{◌≡◌};
ghost use Rattle.ghash.specs.Ghash.{times_x, product_from, Multiplies};
ghost use Rattle.ghash.specs.Folding.{times_x4};
ghost use Rattle.ghash.specs.Keyed.{hash_for, times};

pub mod state;

use chaining::BlockMap;
pub use state::HashKey;
use std::array;

const POLYNOMIAL: u128 = 0xe1000000000000000000000000000000;

// What the lowest four bits of a block become when it is multiplied by x four times.
const FOLDED: [u128; 16] = [
    0x00000000000000000000000000000000,
    0x1c200000000000000000000000000000,
    0x38400000000000000000000000000000,
    0x24600000000000000000000000000000,
    0x70800000000000000000000000000000,
    0x6ca00000000000000000000000000000,
    0x48c00000000000000000000000000000,
    0x54e00000000000000000000000000000,
    0xe1000000000000000000000000000000,
    0xfd200000000000000000000000000000,
    0xd9400000000000000000000000000000,
    0xc5600000000000000000000000000000,
    0x91800000000000000000000000000000,
    0x8da00000000000000000000000000000,
    0xa9c00000000000000000000000000000,
    0xb5e00000000000000000000000000000,
];

// The product is that of a field.
#[tactic(auto, using(crate::proofs::Horner::multiplies))]
pub fn product_law() -> u8
    ensures { Multiplies }
{
    0
}

// The product with x. Those of AES and CMAC are in other fields, and move the bits the other way.
#[tactic(auto, unfolding(crate::specs::Ghash::times_x))]
fn times_x(v: u128) -> u128
    ensures { result ≡ times_x v }
{
    (v >> 1) ^ ((v % 2) * POLYNOMIAL)
}

// The product with x, four times.
#[tactic(auto, using(crate::proofs::Horner::four_at_once))]
fn times_x4(v: u128) -> u128
    ensures { result ≡ times_x4 v }
{
    (v >> 4) ^ FOLDED[(v % 16) as usize]
}

// The product of the key with four bits.
fn four_bits(key: u128, n: u128) -> u128
    ensures { result ≡ product_from 4 n key 0 }
{
    let mut v = key;
    let mut z = 0;
    // The place of the bit in the number, and of no element.
    for place in (0..4u32).rev() {
        z ^= ((n >> place) % 2) * v;
        v = times_x(v);
    }
    z
}

impl HashKey {
    // Computes the products with four bits.
    #[tactic(auto, using(crate::proofs::Horner::made))]
    pub fn new(key: u128) -> HashKey
        ensures { result ≡ hash_for key }
    {
        let products = array::from_fn(|n| four_bits(key, n as u128));
        HashKey { key, products }
    }
}

// The product with the key, four bits at a time from the lowest on.
impl BlockMap for HashKey {
    ghost mapped = { times };

    fn apply(&self, block: u128) -> u128 {
        (0..32u32).fold(0, |z, i| {
            let bits = (block >> (4 * i)) % 16;
            times_x4(z) ^ self.products[bits as usize]
        })
    }
}
