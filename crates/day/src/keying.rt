// From a deed to the call that it is.
ghost use Rattle.std.specs.Prelude.{◌≡◌, IfOk};
ghost use Rattle.journal.specs.Lines.{number_named};
ghost use Rattle.day.specs.Deeds.{slip_on, slip_in, digits_of, misread as misread_as, asked_by, asks, ordered, wanted};

use crate::plan::Deed;
use journal::answers::{Answer, Issued};
use journal::calls::{Call, Cancellation, Entry, Line, Order, Usage};
use sale::orders::{PriceList, Sale};
use std::alloc::{AllocError, Global};

// The number that a call names to be issued or voided; 0 where it names none, a number that no slip has. An option would be compared
// with a number that is there.
fn number_named(call: &Call) -> u32
    ensures { result ≡ number_named call.now }
{
    match call {
        Call::Issue(order) => order.number,
        Call::Void(cancellation) => cancellation.number,
        Call::Draw | Call::Enter(_) | Call::Spend(_) => 0,
    }
}

// The slip that a line issues for a number.
fn slip_on(line: &Line, number: u32) -> Option<Issued>
    ensures { result ≡ slip_on number line.now }
{
    match line.answer {
        Answer::Issued(issued) if number_named(&line.call) == number => Some(issued),
        _ => None,
    }
}

// The slip that was issued for a number. By a loop: with `find_map` the proof did not close, as std has no lemma on what it finds.
fn slip_of(lines: &[Line], number: u32) -> Option<Issued>
    ensures { result ≡ slip_in number lines.now }
{
    for line in lines {
        let slip = slip_on(line, number);
        if slip.is_some() {
            return slip;
        }
    }
    None
}

// The digits of a slip.
fn digits(slip: &Issued, heap: Global) -> Result<Vec<u8>, AllocError>
    ensures { IfOk result (λ text. text.items ≡ digits_of slip.now) }
{
    let end = slip.length.min(slip.slip.len());
    slip.slip[0..end].to_vec(heap)
}

// Takes the digit at a place for the next higher one, and 9 for 0.
fn misread(text: &mut [u8], place: usize)
    ensures { text.new ≡ misread_as place text.old }
{
    if place < text.len() {
        let byte = text[place];
        text[place] = if byte < b'9' { byte + 1 } else { b'0' };
    }
}

fn issue(number: u32, subclass: u8, config: u8, amt: u16, prices: Option<PriceList>) -> Call
    ensures { asked_by result ≡ ordered number subclass config amt prices }
{
    let sale = Sale {
        subclass,
        config,
        amt,
        prices,
    };
    Call::Issue(Order { number, sale })
}

// The call that a deed is, where the journal so far has these lines. None where no slip was issued that could be keyed in: that is no
// error of a result, so a let-else tells it and no `?`.
pub(crate) fn call_of(deed: &Deed, lines: &[Line], heap: Global) -> Result<Option<Call>, AllocError>
    ensures { IfOk result (λ call. asks call ≡ wanted deed.now lines.now) }
{
    let call = match *deed {
        Deed::Draw => Call::Draw,
        Deed::Sell {
            number,
            subclass,
            config,
            amt,
        } => issue(number, subclass, config, amt, None),
        Deed::SellRates {
            number,
            config,
            amt,
            prices,
        } => issue(number, 10, config, amt, Some(prices)),
        Deed::Void { number } => Call::Void(Cancellation { number }),
        Deed::Key { number } => {
            let Some(slip) = slip_of(lines, number) else {
                return Ok(None);
            };
            let text = digits(&slip, heap)?;
            Call::Enter(Entry { text })
        }
        Deed::Misread { number, place } => {
            let Some(slip) = slip_of(lines, number) else {
                return Ok(None);
            };
            let mut text = digits(&slip, heap)?;
            misread(text.as_mut_slice(), place);
            Call::Enter(Entry { text })
        }
        Deed::Spend { amount } => Call::Spend(Usage { amount }),
    };
    Ok(Some(call))
}
