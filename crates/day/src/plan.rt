// What is done in the day, in its order.
use sale::orders::PriceList;

#[derive(Clone, Copy)]
pub enum Deed {
    Draw,
    // Sells a slip without prices.
    Sell {
        number: u32,
        subclass: u8,
        config: u8,
        amt: u16,
    },
    // Sells a slip with rate prices.
    SellRates {
        number: u32,
        config: u8,
        amt: u16,
        prices: PriceList,
    },
    Void {
        number: u32,
    },
    // Keys in the slip of a number.
    Key {
        number: u32,
    },
    // The same, with the digit at a place taken for the next higher one.
    Misread {
        number: u32,
        place: usize,
    },
    Spend {
        amount: u32,
    },
}

const TWO_PRICES: PriceList = PriceList {
    complete: true,
    month: 7,
    multiplier: 3,
    count: 2,
    prices: [1850, 2100, 0, 0, 0, 0, 0, 0],
    size: 3,
};

const EIGHT_PRICES: PriceList = PriceList {
    complete: true,
    month: 7,
    multiplier: 3,
    count: 8,
    prices: [1850, 2100, 1900, 2150, 0, 16383, 1, 700],
    size: 3,
};

// No multiplier has the code 7.
const BAD_PRICES: PriceList = PriceList {
    complete: true,
    month: 7,
    multiplier: 7,
    count: 2,
    prices: [100, 200, 0, 0, 0, 0, 0, 0],
    size: 3,
};

// A slip is taken, and keyed again. Of two more the later one is keyed first; the other would pass the ceiling, and is taken after a
// spend.
pub const MORNING: [Deed; 14] = [
    Deed::Draw,
    Deed::Sell {
        number: 1,
        subclass: 0,
        config: 0,
        amt: 500,
    },
    Deed::Key { number: 1 },
    Deed::Key { number: 1 },
    Deed::Spend { amount: 200 },
    Deed::Draw,
    Deed::Draw,
    Deed::Sell {
        number: 2,
        subclass: 0,
        config: 3,
        amt: 3,
    },
    Deed::Sell {
        number: 3,
        subclass: 8,
        config: 1,
        amt: 30,
    },
    Deed::Key { number: 3 },
    Deed::Key { number: 2 },
    Deed::Spend { amount: 250 },
    Deed::Key { number: 2 },
    Deed::Key { number: 3 },
];

// Sales that no slip can carry leave their number in hand; one that was issued, never drawn or voided is not there.
pub const NOON: [Deed; 11] = [
    Deed::Draw,
    Deed::Sell {
        number: 4,
        subclass: 5,
        config: 0,
        amt: 40,
    },
    Deed::Sell {
        number: 4,
        subclass: 0,
        config: 0,
        amt: 8192,
    },
    Deed::SellRates {
        number: 4,
        config: 0,
        amt: 40,
        prices: BAD_PRICES,
    },
    Deed::Sell {
        number: 4,
        subclass: 0,
        config: 0,
        amt: 40,
    },
    Deed::Sell {
        number: 4,
        subclass: 0,
        config: 0,
        amt: 40,
    },
    Deed::Sell {
        number: 9,
        subclass: 0,
        config: 0,
        amt: 40,
    },
    Deed::Draw,
    Deed::Void { number: 5 },
    Deed::Void { number: 5 },
    Deed::Sell {
        number: 5,
        subclass: 0,
        config: 0,
        amt: 40,
    },
];

// Rate prices that are issued after an enciphered slip and keyed before it leave that slip's index behind. A slip in clear has no
// index: it is keyed late, and first misread.
pub const AFTERNOON: [Deed; 16] = [
    Deed::Draw,
    Deed::Draw,
    Deed::Sell {
        number: 6,
        subclass: 8,
        config: 0,
        amt: 25,
    },
    Deed::SellRates {
        number: 7,
        config: 0,
        amt: 10,
        prices: TWO_PRICES,
    },
    Deed::Key { number: 7 },
    Deed::Key { number: 6 },
    Deed::Spend { amount: 300 },
    Deed::Misread {
        number: 4,
        place: 7,
    },
    Deed::Key { number: 4 },
    Deed::Draw,
    Deed::Draw,
    Deed::SellRates {
        number: 8,
        config: 1,
        amt: 5,
        prices: EIGHT_PRICES,
    },
    Deed::Sell {
        number: 9,
        subclass: 8,
        config: 0,
        amt: 25,
    },
    Deed::Key { number: 9 },
    Deed::Key { number: 8 },
    Deed::Key { number: 9 },
];

// Spends down to the last unit; two numbers stay in hand.
pub const EVENING: [Deed; 7] = [
    Deed::Spend { amount: 0 },
    Deed::Spend { amount: 3401 },
    Deed::Spend { amount: 3000 },
    Deed::Spend { amount: 175 },
    Deed::Spend { amount: 1 },
    Deed::Draw,
    Deed::Draw,
];
