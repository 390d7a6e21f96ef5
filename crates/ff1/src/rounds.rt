// What the ten rounds need beside the key.
#[derive(Clone, Copy)]
pub struct Sizes {
    // How many values each half has.
    pub(crate) left: u64,
    pub(crate) right: u64,
    // How many bytes spell a half.
    pub(crate) bytes: u32,
}

#[derive(Clone, Copy)]
pub struct Rounds {
    pub(crate) sizes: Sizes,
    // All of a round's blocks that are the same in every round.
    pub(crate) mask: u128,
}

// For the two widths of a cipher. Named, as an array would want a number for a width.
#[derive(Clone, Copy)]
pub struct Prepared {
    pub(crate) first: Rounds,
    pub(crate) further: Rounds,
}
