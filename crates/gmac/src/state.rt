// GMAC with what is computed once for a key.
ghost use Rattle.std.specs.Prelude.{◌≡◌};
ghost use Rattle.aes.specs.Keyed.{key_of};
ghost use Rattle.ghash.specs.Keyed.{hash_for};
ghost use Rattle.gmac.specs.Gmac.{hash_key};

use aes::Aes128;
use ghash::HashKey;

#[derive(Clone, Copy)]
pub struct Gmac {
    pub(crate) aes: Aes128,
    pub(crate) hash: HashKey,
    ghost kept: { hash ≡ hash_for (hash_key (key_of aes)) },
}
