// The blocks of a slip, deciphered.
ghost use Rattle.std.specs.Prelude.{◌≡◌, ◌≤◌, length};
ghost use Rattle.sealing.specs.Opening.{further_of, parts_of, opened};
ghost use Rattle.refusal.specs.Checks.{found};
ghost use Rattle.refusal.specs.declared.Refusal.TheVariants.{RatePrices};
ghost use Rattle.token.specs.RatePrices.{tariff_in};

use crate::through::{Way, low_through_slice};
use arrayvec::ArrayVec;
use cipher::Cipher;
use decimal::blocks::Blocks;
use refusal::Refusal;
use std::marker::Model;
use token::first::FirstBlock;
use token::further::part_of;
use token::rates::rate_prices;
use token::shape::shape;
use token::subclass::SubClass;
use token::tariff::Tariff;

// A slip in clear.
#[derive(Clone, Copy)]
pub struct Opened {
    pub subclass: SubClass,
    pub first: FirstBlock,
    pub blocks: Blocks,
}

// With a model, as of a struct without one that holds such a list the proof does not follow a copy.
impl Model for Opened {
    ghost use Rattle.sealing.specs.Slips.{Slip};

    ghost Value = { Slip };

    ghost view = { λ o. record { subclass = o.subclass; first = o.first; blocks = o.blocks } };

    ghost inverse = { λ o. record { subclass = o.subclass; first = o.first; blocks = o.blocks } };
}

impl Opened {
    // The further blocks.
    pub fn further(&self) -> &[u64]
        ensures value { result.now ≡ further_of self.now }
        ensures few { length result.now ≤ 3 }
    {
        match self.blocks.as_slice() {
            [_, further @ ..] => further,
            [] => &[],
        }
    }

    // The rate prices in the data parts of the further blocks.
    pub fn rate_prices(&self) -> Result<Tariff, Refusal>
        ensures { result ≡ found (tariff_in (parts_of self.now)) RatePrices }
    {
        let mut parts = ArrayVec::<u64, 3>::new();
        for block in self.further() {
            parts.push(part_of(*block));
        }
        rate_prices(&parts)
    }
}

// The slip that blocks hold, or why they hold none.
#[tactic(auto, unfolding(crate::specs::Opening::opened))]
pub fn open_blocks<C: Cipher>(cipher: &C, blocks: &[u64]) -> Result<Opened, Refusal>
    ensures value { result ≡ opened (C.deciphered cipher.now) blocks.now }
{
    let subclass = shape(blocks)?;
    // No SubClass takes more than four blocks.
    let clear = low_through_slice(cipher, Way::Decipher, subclass, blocks);
    Ok(Opened {
        subclass,
        first: FirstBlock::of(clear.as_slice()[0]),
        blocks: clear,
    })
}
