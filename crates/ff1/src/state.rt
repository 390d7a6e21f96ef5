// FF1 with what is computed once for a key and a MeterID.
ghost use Rattle.std.specs.Prelude.{◌≡◌};
ghost use Rattle.aes.specs.Keyed.{key_of};
ghost use Rattle.ff1.specs.Preparing.{prepared_for};

use crate::rounds::Prepared;
use aes::Aes128;

#[derive(Clone, Copy)]
pub struct Ff1 {
    pub(crate) aes: Aes128,
    pub(crate) meter: u64,
    pub(crate) prepared: Prepared,
    ghost kept: { prepared ≡ prepared_for (key_of aes) meter },
}
