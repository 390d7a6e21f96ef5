// AES-128 with its round keys at hand.
ghost use Rattle.std.specs.Prelude.{◌≡◌};
ghost use Rattle.aes.specs.Expansion.{expanded};

// A key and what is computed from it once: eleven round keys, a word for each column.
#[derive(Clone, Copy)]
pub struct Aes128 {
    pub(crate) key: [u8; 16],
    pub(crate) round_keys: [[u32; 4]; 11],
    ghost kept: { round_keys ≡ expanded key },
}
