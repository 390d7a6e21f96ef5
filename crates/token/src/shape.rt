// Which blocks make a slip.
ghost use Rattle.std.specs.Prelude.{◌≡◌};
ghost use Rattle.token.specs.FurtherBlocks.{sequenced};
ghost use Rattle.token.specs.Shapes.{shape_of, Judged};

use crate::first::FirstBlock;
use crate::further::sequence_of;
use crate::subclass::SubClass;
use refusal::Refusal;

// Whether each further block names the count of blocks after it.
fn in_sequence(further: &[u64]) -> bool
    ensures { result ≡ sequenced further.now }
{
    further
        .iter()
        .rev()
        .enumerate()
        .all(|(after, block)| usize::from(sequence_of(*block)) == after)
}

// The SubClass of the slip that the blocks make. It can be told before anything is deciphered: the SubClass and the counts of
// blocks after are never enciphered.
pub fn shape(blocks: &[u64]) -> Result<SubClass, Refusal>
    ensures value { result ≡ shape_of blocks.now }
    ensures judged { Judged blocks.now result }
{
    let (block, further) = blocks.split_first().ok_or(Refusal::WrongBlocks)?;
    let subclass = SubClass::try_from(FirstBlock::of(*block).subclass)?;
    if !subclass.takes(blocks.len()) || !in_sequence(further) {
        return Err(Refusal::WrongBlocks);
    }
    Ok(subclass)
}
