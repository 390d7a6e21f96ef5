// Rate prices, with their limits.
ghost use Rattle.std.specs.Prelude.{T};
ghost use Rattle.token.specs.Limits.{tariffable};

#[derive(Clone, Copy)]
pub struct Tariff {
    // Whether the tariff is complete with these prices.
    pub complete: bool,
    pub month: u8,
    // The code of the price multiplier.
    pub multiplier: u8,
    // How many prices there are; those after them are zero. A count beside eight places is what an image and the data parts have, and
    // every equation on them speaks of all eight.
    pub count: u8,
    pub prices: [u16; 8],
    ghost ok: { T (tariffable month multiplier count prices) },
}
