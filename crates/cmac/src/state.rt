// CMAC with what is computed once for a key.
ghost use Rattle.std.specs.Prelude.{◌≡◌};
ghost use Rattle.aes.specs.Keyed.{key_of};
ghost use Rattle.cmac.specs.Subkeys.{subkeys_of};

use crate::subkeys::Subkeys;
use aes::Aes128;

#[derive(Clone, Copy)]
pub struct Cmac {
    pub(crate) aes: Aes128,
    pub(crate) subkeys: Subkeys,
    ghost kept: { subkeys ≡ subkeys_of (key_of aes) },
}
