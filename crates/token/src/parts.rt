// At most three data parts, each of 59 bits.
use std::marker::Model;
use words::Words;

#[derive(Clone, Copy)]
pub struct Parts {
    pub(crate) words: Words<3>,
}

impl Model for Parts {
    ghost use Rattle.std.specs.Prelude.{ℕ, T};
    ghost use Rattle.std.specs.Coded.{coded_ℕ};
    ghost use Rattle.arrayvec.specs.ArrayVec.{ArrayVec as Items, array_vec_code};
    ghost use Rattle.token.specs.FurtherBlocks.{carriable};

    ghost Value = { Items ℕ };

    ghost coded = { array_vec_code coded_ℕ };

    ghost view = { λ p. p.words };

    ghost invariant = { λ p. T (carriable p.words.items) };

    ghost inverse = { λ words. record { words = words } };
}
