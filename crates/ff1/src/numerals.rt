// Numbers of so many digits in a radix, with the sizes of their halves.
ghost use Rattle.std.specs.Prelude.{◌≡◌, ◌≤◌};
ghost use Rattle.ff1.specs.Ff1.{half_bytes};
ghost use Rattle.ff1.specs.Sizes.{sizes_of};

use crate::rounds::Sizes;

#[derive(Clone, Copy)]
pub(crate) struct Numerals {
    pub(crate) radix: u32,
    pub(crate) digits: u32,
    pub(crate) sizes: Sizes,
    ghost halves: { sizes ≡ sizes_of radix digits },
    ghost few: { half_bytes radix digits ≤ 8 },
}
