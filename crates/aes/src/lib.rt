// AES-128 of FIPS 197, on 32-bit columns with constant tables.
#![tactic(auto)]

ghost use Rattle.std.specs.Prelude.{◌≡◌};
ghost use Rattle.aes.specs.Aes.{aes};
ghost use Rattle.aes.specs.Keyed.{aes_for, key_of};
ghost use Rattle.aes.specs.Examples.{WorkedOut};

pub(crate) mod columns;
pub mod sbox;
pub(crate) mod schedule;
pub mod state;

use columns::{add_key, last_round, load, round, store};
use schedule::{next_key, times_x};
pub use state::Aes128;

impl Aes128 {
    // Expands the key.
    #[tactic(auto, using(crate::proofs::Expanding::made))]
    pub fn new(key: &[u8; 16]) -> Aes128
        ensures { result ≡ aes_for key.now }
    {
        let mut k = load(key);
        let mut constant = 1;
        let mut round_keys = [[0; 4]; 11];
        for round_key in round_keys.iter_mut() {
            *round_key = k;
            k = next_key(&k, constant);
            constant = times_x(constant);
        }
        Aes128 {
            key: *key,
            round_keys,
        }
    }

    // One block under the key.
    #[tactic(auto, using(crate::proofs::Rounding::first_step, crate::proofs::Rounding::round_step))]
    pub fn encrypt(&self, block: &[u8; 16]) -> [u8; 16]
        ensures { result ≡ aes (key_of self.now) block.now }
    {
        let mut s = add_key(&load(block), &self.round_keys[0]);
        for round_key in &self.round_keys[1..10] {
            s = round(&s, round_key);
        }
        store(&last_round(&s, &self.round_keys[10]))
    }
}

// The definitions come to values that the standard works out.
#[tactic(auto, using(crate::proofs::Examples::worked_out))]
pub fn worked_examples() -> u8
    ensures { WorkedOut }
{
    0
}
