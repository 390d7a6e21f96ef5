// The two subkeys of a key.
#[derive(Clone, Copy)]
pub struct Subkeys {
    // For a last block of sixteen bytes.
    pub(crate) first: u128,
    // For a shorter one.
    pub(crate) second: u128,
}
