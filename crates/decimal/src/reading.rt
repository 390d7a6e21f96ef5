// From text to blocks.
ghost use Rattle.std.specs.Prelude.{◌≡◌, ◌-◌, ◌&&◌, true, take, IfOk, Ok, nat_le};
ghost use Rattle.std.specs.Int.Digits.{number_from_digits};
ghost use Rattle.refusal.specs.Checks.{provided};
ghost use Rattle.refusal.specs.declared.Refusal.TheVariants.{CheckDigit, NoBlock};
ghost use Rattle.std.specs.List.{list_all};
ghost use Rattle.decimal.specs.Digits.{is_digit, values};
ghost use Rattle.decimal.specs.CheckDigits.{DigitBefore};
ghost use Rattle.decimal.specs.Groups.{grouped, all_sealed, all_blocks, checked_group, lowest, is_block, blocks_in, blocks_of, Sound};

use crate::blocks::Blocks;
use crate::text::{all_digits, digit_of, number_of};
use crate::verhoeff::check_digit_after;
use refusal::Refusal;

// The number of a first group whose block is 0.
const OFFSET: u64 = 7394156990786306048;

// Checks the digits and the check digit of one group, given the check digit of the group before it, and answers its own.
#[tactic(auto, using(crate::proofs::Grouping::group_undigit, crate::proofs::Grouping::group_unlast, crate::proofs::Grouping::group_sealed))]
pub(crate) fn check_group(group: &[u8; 20], before: Option<u8>) -> Result<u8, Refusal>
    requires { DigitBefore before }
    ensures { result ≡ checked_group before group.now }
{
    let expected = check_digit_after(before, &group[0..19]).ok_or(Refusal::NotADigit)?;
    let last = digit_of(group[19]).ok_or(Refusal::NotADigit)?;
    if last != expected {
        return Err(Refusal::CheckDigit);
    }
    Ok(last)
}

// Every group's check digit. That all bytes are digits is known by now: a byte that is none, in whichever group, is told first. A loop,
// as `try_fold` would hand on the digit in an option and end in one that nothing reads.
fn check_groups(text: &[u8]) -> Result<(), Refusal>
    requires { list_all is_digit text.now ≡ true }
    ensures { result ≡ provided (all_sealed text.now) CheckDigit (Ok tt) }
{
    let (groups, _) = text.as_chunks::<20>();
    let mut before = None;
    for group in groups {
        before = Some(check_group(group, before)?);
    }
    Ok(())
}

// Only a first group's numbers start at the offset.
pub(crate) fn lowest_number(i: usize) -> u64
    ensures { result ≡ lowest i }
{
    if i == 0 { OFFSET } else { 0 }
}

pub(crate) fn is_block(n: &u64) -> bool
    ensures { result ≡ is_block n.now }
{
    *n < 1 << 61
}

// The block of one group, by its place.
fn block_of(group: &[u8; 20], i: usize) -> Result<u64, Refusal>
    requires { list_all is_digit group.now ≡ true }
    ensures { let n = number_from_digits 10 (values (take 19 group.now)) in result ≡ provided (nat_le (lowest i) n && is_block (n - lowest i)) NoBlock (Ok (n - lowest i)) }
{
    number_of(&group[0..19])
        .checked_sub(lowest_number(i))
        .filter(is_block)
        .ok_or(Refusal::NoBlock)
}

// Every group's block.
#[tactic(auto, using(crate::proofs::Grouping::group_is, crate::proofs::Grouping::group_digits_all), unfolding(crate::specs::Groups::all_blocks, crate::specs::Groups::blocks_in))]
fn blocks_in(text: &[u8]) -> Result<Blocks, Refusal>
    requires decimal { list_all is_digit text.now ≡ true }
    requires whole { grouped text.now ≡ true }
    ensures { result ≡ provided (all_blocks text.now) NoBlock (Ok (record { items = blocks_in text.now })) }
{
    let (groups, _) = text.as_chunks::<20>();
    let mut blocks = Blocks::new();
    for (i, group) in groups.iter().enumerate() {
        blocks.push(block_of(group, i)?);
    }
    Ok(blocks)
}

#[tactic(auto, unfolding(crate::specs::Groups::grouped))]
fn is_grouped(text: &[u8]) -> bool
    ensures { result ≡ grouped text.now }
{
    matches!(text.len(), 20 | 40 | 60 | 80)
}

// The blocks of an entry. Each check looks at the whole entry before the next begins.
#[tactic(auto, unfolding(crate::specs::Groups::blocks_of, crate::specs::Groups::all_digits))]
pub fn read_blocks(text: &[u8]) -> Result<Blocks, Refusal>
    ensures value { result ≡ blocks_of text.now }
    ensures bounds { IfOk result (λ blocks. Sound blocks.items) }
{
    if !is_grouped(text) {
        return Err(Refusal::Length);
    }
    if !all_digits(text) {
        return Err(Refusal::NotADigit);
    }
    check_groups(text)?;
    blocks_in(text)
}
