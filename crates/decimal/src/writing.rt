// From blocks to text.
ghost use Rattle.std.specs.Prelude.{◌≡◌, ◌*◌, ◌≤◌, true, length, if◌then◌else◌, Some, None};
ghost use Rattle.std.specs.List.{list_all};
ghost use Rattle.decimal.specs.Digits.{spelled};
ghost use Rattle.decimal.specs.CheckDigits.{DigitBefore};
ghost use Rattle.decimal.specs.Groups.{is_block};
ghost use Rattle.decimal.specs.Slips.{seal_of, group_of, writable, slip_of};

use crate::reading::{is_block, lowest_number};
use crate::text::write_digits;
use crate::verhoeff::check_digit_after;

// Writes one group, given the check digit of the group before it, and answers its own.
fn write_group(number: u64, before: Option<u8>, group: &mut [u8]) -> u8
    requires twenty { length group.old ≡ 20 }
    requires digit { DigitBefore before }
    ensures text { group.new ≡ spelled (group_of before number) }
    ensures check { result ≡ seal_of before number }
{
    write_digits(number, &mut group[0..19]);
    // What was just written is all digits, so there is a check digit.
    let check = check_digit_after(before, &group[0..19]).unwrap();
    group[19] = check + b'0';
    check
}

fn all_below(blocks: &[u64]) -> bool
    ensures { result ≡ list_all is_block blocks.now }
{
    blocks.iter().all(is_block)
}

#[tactic(auto, unfolding(crate::specs::Slips::writable))]
fn is_writable(blocks: &[u64]) -> bool
    ensures value { result ≡ writable blocks.now }
    ensures few { result ≡ true → length blocks.now ≤ 4 }
{
    matches!(blocks.len(), 1..=4) && all_below(blocks)
}

// Writes blocks as text and answers its length. The rest of the slip is zeroed, so that nothing of an earlier one stays behind.
pub fn write_blocks(blocks: &[u64], slip: &mut [u8; 80]) -> Option<usize>
    ensures answer { result ≡ (if writable blocks.now then Some (20 * length blocks.now) else None) }
    ensures bytes { slip.new ≡ (if writable blocks.now then slip_of blocks.now else slip.old) }
{
    if !is_writable(blocks) {
        return None;
    }
    *slip = [0; 80];
    let mut before = None;
    // By index: of a slice that `chunks_exact_mut` lent for writing, the proof knows the length alone afterwards.
    for (i, block) in blocks.iter().enumerate() {
        let number = lowest_number(i) + *block;
        before = Some(write_group(number, before, &mut slip[20 * i..20 * i + 20]));
    }
    Some(20 * blocks.len())
}
