// How many bits the prices of a tariff have in its data parts.
ghost use Rattle.std.specs.Prelude.{T, nat_le};

// The code of a size of prices: each has as many bits more than eleven.
#[derive(Clone, Copy)]
pub(crate) struct Size {
    pub(crate) code: u8,
    ghost ok: { T (nat_le code 3) },
}
