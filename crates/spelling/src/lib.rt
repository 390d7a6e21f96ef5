// Numbers in bytes, highest byte first, and the law that such a row of bytes tells its numbers.
#![tactic(auto)]

ghost use Rattle.spelling.specs.Spelling.{SpellsApart};

// Two rows of numbers that are spelled in the same widths by the same bytes are the same.
#[tactic(auto, using(crate::proofs::Apart::spells_apart))]
pub fn spelling_law() -> u8
    ensures { SpellsApart }
{
    0
}
