// One operation after another, each on what the one before it gave.
ghost use Rattle.std.specs.Prelude.{◌≡◌, ℕ, take};
ghost use Rattle.spelling.specs.Spelling.{bytes_of};
ghost use Rattle.throughput.specs.Laps.{repeated, block_lap, tag_lap, ff1_lap};

use aes::Aes128;
use authenticator::Authenticator;
use chaining::{BlockMap, block_of};
use cipher::Cipher;
use cipher::width::Width;
use ff1::Ff1;

// An operation on a block.
pub(crate) trait Lap {
    ghost lapped: { Self → ℕ → ℕ };

    fn lap(&self, n: u128) -> u128
        ensures { result ≡ lapped self.now n };
}

// An authenticator as an operation.
#[derive(Clone, Copy)]
pub(crate) struct Tagging<A>(pub(crate) A);

// So many operations, from a start on.
pub(crate) fn laps<L: Lap>(operation: &L, count: u32, start: u128) -> u128
    ensures { result ≡ repeated count (L.lapped operation.now) start }
{
    (0..count).fold(start, |n, _| operation.lap(n))
}

// A nonce from the first twelve bytes of a block.
fn nonce_of(n: u128) -> [u8; 12]
    ensures { result ≡ take 12 (bytes_of 16 n) }
{
    *n.to_be_bytes().first_chunk().unwrap()
}

impl Lap for Aes128 {
    ghost lapped = { block_lap };

    fn lap(&self, n: u128) -> u128 {
        self.apply(n)
    }
}

// An authenticator on a message of 64 zeros, under a nonce from the tag before.
impl<A: Authenticator> Lap for Tagging<A> {
    ghost lapped = { λ t n. tag_lap (A.tagged t.0) n };

    fn lap(&self, n: u128) -> u128 {
        block_of(&self.0.tag(&nonce_of(n), &[0; 64]))
    }
}

// A number of 59 bits.
impl Lap for Ff1 {
    ghost lapped = { ff1_lap };

    fn lap(&self, n: u128) -> u128 {
        u128::from(self.encipher(Width::Further, (n % (1 << 59)) as u64))
    }
}
