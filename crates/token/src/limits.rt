// Rate prices that keep their limits.
ghost use Rattle.std.specs.Prelude.{◌≡◌, ◌^◌, ◌≤◌};
ghost use Rattle.token.specs.Limits.{under, unused_zero};
ghost use Rattle.token.specs.Tariffs.{tariff_of};

use crate::tariff::Tariff;

// Whether each price has at most so many bits.
pub(crate) fn within(bits: u32, prices: &[u16]) -> bool
    requires { bits ≤ 14 }
    ensures { result ≡ under (2 ^ bits) prices.now }
{
    let limit = 1 << bits;
    prices.iter().all(|price| *price < limit)
}

// Whether the prices after the first `count` are zero.
fn unused_zero(count: u8, prices: &[u16]) -> bool
    ensures { result ≡ unused_zero count prices.now }
{
    prices
        .iter()
        .skip(usize::from(count))
        .all(|price| *price == 0)
}

impl Tariff {
    // None where a limit is broken. Five values, as a price list and an image each hold them in a form of their own.
    pub fn new(
        complete: bool,
        month: u8,
        multiplier: u8,
        count: u8,
        prices: [u16; 8],
    ) -> Option<Tariff>
        ensures { result ≡ tariff_of complete month multiplier count prices }
    {
        if month >= 64 || multiplier > 6 || count == 0 || count > 8 {
            return None;
        }
        if !within(14, &prices) || !unused_zero(count, &prices) {
            return None;
        }
        Some(Tariff {
            complete,
            month,
            multiplier,
            count,
            prices,
        })
    }
}
