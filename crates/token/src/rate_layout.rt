// The data parts of 59 bits that rate prices lie in, each with its fields.
ghost use Rattle.std.specs.Prelude.{◌≡◌, ◌+◌, ◌≤◌, ◌↔◌, IsSome, IfSome, slice_index};
ghost use Rattle.token.specs.RateLayout.{first_part_widths, second_part_widths, third_part_widths, part_count, size_in_part};
ghost use Rattle.token.specs.RatePrices.{first_part_fields, second_part_fields, third_part_fields};

use crate::size::Size;
use crate::tariff::Tariff;

// The one type of data and the one sub-information that rate prices have.
pub(crate) const TYPE: u64 = 1;

pub(crate) const SUB_INFORMATION: u64 = 1;

// Widths and values for each part, as each has its own fields: one table for all three would only be cut up again.
impl Size {
    // None for a code above 3.
    pub(crate) fn new(code: u8) -> Option<Size>
        ensures taken { IsSome result ↔ (code ≤ 3) }
        ensures value { IfSome result (λ s. s.code ≡ code) }
    {
        if code > 3 {
            return None;
        }
        Some(Size { code })
    }

    // The size that a first part names.
    pub(crate) fn named_in(part: u64) -> Size
        ensures { result.code ≡ size_in_part part }
    {
        Size {
            code: ((part >> 35) % 4) as u8,
        }
    }

    // How many bits a price has.
    pub(crate) fn bits(self) -> u32
        ensures value { result ≡ 11 + self.code }
        ensures most { result ≤ 14 }
    {
        11 + u32::from(self.code)
    }

    pub(crate) fn first_widths(self) -> [u32; 10]
        ensures { result ≡ first_part_widths self.code }
    {
        let price = self.bits();
        [1, 4, 4, 6, 4, 3, 2, price, price, 35 - 2 * price]
    }

    pub(crate) fn second_widths(self) -> [u32; 5]
        ensures { result ≡ second_part_widths self.code }
    {
        let price = self.bits();
        [price, price, price, price, 59 - 4 * price]
    }

    pub(crate) fn third_widths(self) -> [u32; 3]
        ensures { result ≡ third_part_widths self.code }
    {
        let price = self.bits();
        [price, price, 59 - 2 * price]
    }
}

pub(crate) fn part_count(count: u8) -> usize
    ensures { result ≡ part_count count }
{
    match count {
        0..=2 => 1,
        3..=6 => 2,
        _ => 3,
    }
}

// What the first part holds.
pub(crate) fn first_values(t: &Tariff, size: Size) -> [u64; 10]
    ensures { result ≡ first_part_fields t.now size.code }
{
    [
        u64::from(t.complete),
        TYPE,
        SUB_INFORMATION,
        u64::from(t.month),
        u64::from(t.count - 1),
        u64::from(t.multiplier),
        u64::from(size.code),
        u64::from(t.prices[0]),
        u64::from(t.prices[1]),
        0,
    ]
}

// What the second part holds.
pub(crate) fn second_values(t: &Tariff) -> [u64; 5]
    ensures { result ≡ second_part_fields t.now }
{
    let [_, _, a, b, c, d, _, _] = t.prices;
    [u64::from(a), u64::from(b), u64::from(c), u64::from(d), 0]
}

// What the third part holds.
pub(crate) fn third_values(t: &Tariff) -> [u64; 3]
    ensures { result ≡ third_part_fields t.now }
{
    [u64::from(t.prices[6]), u64::from(t.prices[7]), 0]
}

// The part at a place; one that is not there reads as zero.
pub(crate) fn part(parts: &[u64], i: usize) -> u64
    ensures { result ≡ slice_index parts.now i }
{
    parts.get(i).copied().unwrap_or(0)
}
