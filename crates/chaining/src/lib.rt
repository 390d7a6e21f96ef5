// Cipher blocks of sixteen bytes as numbers of 128 bits, highest byte first: a row of bytes as blocks, and a chain over them.
#![tactic(auto)]

ghost use Rattle.std.specs.Prelude.{◌≡◌, ℕ, slice_index};
ghost use Rattle.aes.specs.Keyed.{key_of};
ghost use Rattle.chaining.specs.Blocks.{aes_block, block_of, blocks_of, chained};

use aes::Aes128;
use std::array;

// A map on blocks.
pub trait BlockMap {
    // What a block comes to.
    ghost mapped: { Self → ℕ → ℕ };

    fn apply(&self, block: u128) -> u128
        ensures { result ≡ mapped self.now block };
}

impl BlockMap for Aes128 {
    ghost mapped = { λ a. aes_block (key_of a) };

    #[tactic(auto, using(crate::proofs::Numbers::number_is), unfolding(crate::specs::Blocks::aes_block))]
    fn apply(&self, block: u128) -> u128 {
        u128::from_be_bytes(self.encrypt(&block.to_be_bytes()))
    }
}

// The byte at a place, and zero past the end. A line of std's methods; `token` has one for its words.
pub fn byte_at(bytes: &[u8], i: usize) -> u8
    ensures { result ≡ slice_index bytes.now i }
{
    bytes.get(i).copied().unwrap_or(0)
}

// The first sixteen bytes as a block, with zeros where there are fewer.
pub fn block_of(bytes: &[u8]) -> u128
    ensures { result ≡ block_of bytes.now }
{
    u128::from_be_bytes(array::from_fn(|i| byte_at(bytes, i)))
}

// Goes through the blocks of a row, the last one filled up with zeros: each is added to what came of those before it, and mapped.
pub fn chain<M: BlockMap>(map: &M, start: u128, bytes: &[u8]) -> u128
    ensures { result ≡ chained (M.mapped map.now) start (blocks_of bytes.now) }
{
    bytes
        .chunks(16)
        .fold(start, |y, block| map.apply(y ^ block_of(block)))
}
