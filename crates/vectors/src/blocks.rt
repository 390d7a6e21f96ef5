// AES on single blocks.
ghost use Rattle.vectors.specs.Right.{right_block};

use crate::agreeing::Vector;
use aes::Aes128;
use chaining::BlockMap;

// A block under a key.
#[derive(Clone, Copy)]
pub(crate) struct BlockVector {
    pub(crate) key: u128,
    pub(crate) block: u128,
    pub(crate) enciphered: u128,
}

impl Vector for BlockVector {
    ghost right = { right_block };

    fn agrees(&self) -> bool {
        Aes128::new(&self.key.to_be_bytes()).apply(self.block) == self.enciphered
    }
}
