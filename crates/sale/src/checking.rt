// Whether a till can sell it.
ghost use Rattle.std.specs.Prelude.{◌≡◌, ◌^◌, ◌≤◌, true, ◌∷◌, length, if◌then◌else◌, Some, None};
ghost use Rattle.token.specs.FurtherBlocks.{carriable, numbered};
ghost use Rattle.sale.specs.Sales.{tariff_named, fitting, priced, coded, salable, parts_at, parts_sold};
ghost use Rattle.sale.specs.Slips.{readied};

use crate::orders::{PriceList, Sale};
use arrayvec::ArrayVec;
use decimal::blocks::Blocks;
use sealing::settings::Settings;
use token::further::number_parts;
use token::rates::rate_parts;
use token::subclass::SubClass;
use token::tariff::Tariff;

// The highest amount that a first block holds.
const MOST_AMT: u16 = 8191;

// A sale that can be sold: its SubClass, and its further blocks in clear behind a place for the first.
#[derive(Clone, Copy)]
pub struct Ready {
    pub subclass: SubClass,
    pub blocks: Blocks,
}

// Data parts as further blocks, behind a place for the first block.
fn behind_first(parts: &[u64]) -> Blocks
    requires { carriable parts.now ≡ true }
    ensures { result ≡ record { items = 0 ∷ numbered parts.now } }
{
    let mut blocks = ArrayVec::<u64, 4>::new();
    blocks.push(0);
    // Parts that can be carried are three at most.
    blocks.try_extend_from_slice(parts).unwrap();
    number_parts(&mut blocks[1..]);
    Blocks::from(blocks)
}

// The blocks that rate prices take, if they can be packed.
fn further_of(list: &PriceList) -> Option<Blocks>
    ensures { result ≡ (if fitting (tariff_named list.now) list.now.size then Some (record { items = 0 ∷ numbered (parts_at (tariff_named list.now) list.now.size) }) else None) }
{
    let tariff = Tariff::new(
        list.complete,
        list.month,
        list.multiplier,
        list.count,
        list.prices,
    )?;
    let parts = rate_parts(&tariff, list.size)?;
    Some(behind_first(parts.as_slice()))
}

// The blocks of a SubClass with these prices, if the two go together.
fn blocks_for(subclass: SubClass, prices: Option<PriceList>) -> Option<Blocks>
    ensures { result ≡ (if priced subclass prices then Some (record { items = 0 ∷ numbered (parts_sold prices) }) else None) }
{
    match prices {
        Some(list) => match subclass {
            SubClass::Rates => further_of(&list),
            SubClass::Clear | SubClass::Enciphered => None,
        },
        None => match subclass {
            SubClass::Rates => None,
            SubClass::Clear | SubClass::Enciphered => Some(behind_first(&[])),
        },
    }
}

// Whether the amount of a sale has a code.
fn is_coded(settings: &Settings, sale: &Sale) -> bool
    ensures { result ≡ coded settings.now sale.now }
{
    sale.config <= 3 && settings.multiplier(sale.config) > 0 && sale.amt <= MOST_AMT
}

// The sale made ready, if it can be sold.
#[tactic(auto, unfolding(crate::specs::Sales::salable))]
pub(crate) fn ready_for(settings: &Settings, sale: &Sale) -> Option<Ready>
    ensures { result ≡ (if salable settings.now sale.now then Some (readied sale.now) else None) }
{
    let subclass = SubClass::try_from(sale.subclass).ok()?;
    if !is_coded(settings, sale) {
        return None;
    }
    let blocks = blocks_for(subclass, sale.prices)?;
    Some(Ready { subclass, blocks })
}
