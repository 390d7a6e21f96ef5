// What is kept of the numbers that were counted.
ghost use Rattle.std.specs.Prelude.{T};
ghost use Rattle.window.specs.Limits.{markable};

// The highest number counted, 0 at first, and a mark for each of the 126 numbers below it.
#[derive(Clone, Copy)]
pub struct Window {
    pub(crate) highest: u32,
    // Bit k is the mark of the number highest - 1 - k.
    pub(crate) marks: u128,
    ghost ok: { T (markable highest marks) },
}
