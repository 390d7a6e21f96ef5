// What an image tells.
use record::Record;

#[derive(Clone, Copy)]
pub struct Image {
    pub kept: Record,
    // How many writes are left.
    pub writes: u32,
}
