// Further blocks and the data parts that they carry.
ghost use Rattle.std.specs.Prelude.{◌≡◌, ◌^◌, ◌≤◌, true, map, length, if◌then◌else◌};
ghost use Rattle.token.specs.Limits.{under};
ghost use Rattle.token.specs.FurtherBlocks.{sequence_of, part_of, carriable, numbered, Carried};

// The count of blocks after it that a further block names. It is never enciphered.
pub fn sequence_of(block: u64) -> u8
    ensures { result ≡ sequence_of block }
{
    ((block >> 59) % 4) as u8
}

// The data part of a further block.
pub fn part_of(block: u64) -> u64
    ensures { result ≡ part_of block }
{
    block % (1 << 59)
}

// Whether each part has at most 59 bits.
fn all_parts(parts: &[u64]) -> bool
    ensures { result ≡ under (2 ^ 59) parts.now }
{
    parts.iter().all(|part| *part < 1 << 59)
}

// Puts above each part the count of blocks after it.
fn number(parts: &mut [u64])
    requires few { length parts.old ≤ 3 }
    requires small { under (2 ^ 59) parts.old ≡ true }
    ensures { parts.new ≡ numbered parts.old }
{
    let count = parts.len();
    for (i, part) in parts.iter_mut().enumerate() {
        *part += ((count - 1 - i) as u64) << 59;
    }
}

// Turns data parts into the further blocks that carry them. False, and nothing is changed, where there are more than three or
// one has more than 59 bits. A bool and no Result: a caller whose parts can be carried would have an error to drop.
pub fn number_parts(parts: &mut [u64]) -> bool
    ensures taken { result ≡ carriable parts.old }
    ensures value { parts.new ≡ (if carriable parts.old then numbered parts.old else parts.old) }
{
    if parts.len() > 3 || !all_parts(parts) {
        return false;
    }
    number(parts);
    true
}

// Turns further blocks in clear into the data parts that they carry.
pub fn strip_sequences(blocks: &mut [u64])
    ensures { blocks.new ≡ map part_of blocks.old }
{
    for block in blocks.iter_mut() {
        *block = part_of(*block);
    }
}

// Parts that were numbered are in sequence, and are found again.
#[tactic(auto, using(crate::proofs::Numbered::carried))]
pub fn carried_law() -> u8
    ensures { Carried }
{
    0
}
