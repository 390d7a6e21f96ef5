// Rate prices written to data parts and read from them.
ghost use Rattle.std.specs.Prelude.{◌≡◌, true};
ghost use Rattle.refusal.specs.Checks.{found};
ghost use Rattle.refusal.specs.declared.Refusal.TheVariants.{RatePrices};
ghost use Rattle.token.specs.FurtherBlocks.{carriable};
ghost use Rattle.token.specs.RateLayout.{FieldsSmall, PricesSmall};
ghost use Rattle.token.specs.RatePrices.{fits, parts, written, holding, held, lawful, spelled, tariff_in, Back, Only, Judged, ReadBack};

use crate::fields::{pack, unpack};
use crate::limits::within;
use crate::parts::Parts;
use crate::rate_layout::{
    SUB_INFORMATION, TYPE, first_values, part, part_count, second_values, third_values,
};
use crate::size::Size;
use crate::tariff::Tariff;
use arrayvec::ArrayVec;
use refusal::Refusal;
use words::Words;

impl Parts {
    pub fn as_slice(&self) -> &[u64]
        ensures value { result.now ≡ held self.now }
        ensures carried { carriable result.now ≡ true }
    {
        self.words.as_slice()
    }
}

// The words of the parts that the prices take.
fn words_of(t: &Tariff, size: Size) -> ArrayVec<u64, 3>
    requires { fits t.now size.code ≡ true }
    ensures { result.items ≡ parts t.now size.code }
{
    let mut words = ArrayVec::from([
        pack(&size.first_widths(), &first_values(t, size)),
        pack(&size.second_widths(), &second_values(t)),
        pack(&size.third_widths(), &third_values(t)),
    ]);
    words.truncate(part_count(t.count));
    words
}

// The data parts of rate prices. None where the size code is above 3 or a price does not fit its field.
pub fn rate_parts(t: &Tariff, size: u8) -> Option<Parts>
    ensures value { holding result ≡ written t.now size }
    ensures back { ReadBack t.now result }
{
    let size = Size::new(size)?;
    if !within(size.bits(), &t.prices) {
        return None;
    }
    let list = words_of(t, size);
    let words = Words::from(list);
    Some(Parts { words })
}

// Whether the fields of so many parts keep the rules that are not limits of the tariff itself.
fn is_lawful(count: usize, first: &[u64; 10], second: &[u64; 5], third: &[u64; 3]) -> bool
    requires { FieldsSmall first.now }
    ensures { result ≡ lawful count first.now second.now third.now }
{
    let [_, kind, sub, _, number, _, _, _, _, rest] = *first;
    let needed = part_count(number as u8 + 1);
    if kind != TYPE || sub != SUB_INFORMATION || count != needed {
        return false;
    }
    rest == 0 && second[4] == 0 && third[2] == 0
}

// The tariff that the fields spell, if it keeps its limits.
fn from_fields(first: &[u64; 10], second: &[u64; 5], third: &[u64; 3]) -> Option<Tariff>
    requires head { FieldsSmall first.now }
    requires middle { PricesSmall 0 4 second.now }
    requires last { PricesSmall 0 2 third.now }
    ensures { result ≡ spelled first.now second.now third.now }
{
    let [complete, _, _, month, number, multiplier, _, a, b, _] = *first;
    let [c, d, e, f, _] = *second;
    let [g, h, _] = *third;
    let prices = [
        a as u16, b as u16, c as u16, d as u16, e as u16, f as u16, g as u16, h as u16,
    ];
    Tariff::new(
        complete == 1,
        month as u8,
        multiplier as u8,
        number as u8 + 1,
        prices,
    )
}

// What the data parts hold, if they break no rule.
fn tariff_in(parts: &[u64]) -> Option<Tariff>
    ensures { result ≡ tariff_in parts.now }
{
    let word = part(parts, 0);
    let size = Size::named_in(word);
    let first = unpack(&size.first_widths(), word);
    let second = unpack(&size.second_widths(), part(parts, 1));
    let third = unpack(&size.third_widths(), part(parts, 2));
    if !is_lawful(parts.len(), &first, &second, &third) {
        return None;
    }
    from_fields(&first, &second, &third)
}

// The rate prices that data parts hold, unless they break a rule.
#[tactic(auto, using(crate::proofs::RateLaws::judged))]
pub fn rate_prices(parts: &[u64]) -> Result<Tariff, Refusal>
    ensures value { result ≡ found (tariff_in parts.now) RatePrices }
    ensures judged { Judged parts.now result }
{
    tariff_in(parts).ok_or(Refusal::RatePrices)
}

// Prices that fit their size are read back from their parts, and parts that are read are those of the prices.
pub fn rate_prices_law() -> u8
    ensures back { Back }
    ensures only { Only }
{
    0
}
