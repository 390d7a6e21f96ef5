// Sales as a clerk names them, right or wrong.

// Rate prices with the size code of their fields.
#[derive(Clone, Copy)]
pub struct PriceList {
    // Whether the tariff is complete with these prices.
    pub complete: bool,
    pub month: u8,
    // The code of the price multiplier.
    pub multiplier: u8,
    // How many prices there are; those after them are zero. Stated beside all eight, as it may be stated wrongly.
    pub count: u8,
    pub prices: [u16; 8],
    // Each price lies in a field of so many bits more than eleven.
    pub size: u8,
}

#[derive(Clone, Copy)]
pub struct Sale {
    // The code of the SubClass.
    pub subclass: u8,
    // Which multiplier the amount takes.
    pub config: u8,
    pub amt: u16,
    // For the SubClass with rate prices, and for no other.
    pub prices: Option<PriceList>,
}
