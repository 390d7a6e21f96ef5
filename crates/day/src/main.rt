// A day at one till and one meter: what is asked of them, call by call, and the balance at its end.
#![tactic(auto)]

ghost use Rattle.std.specs.Prelude.{◌≡◌, true, [], IfOk, OnOk};
ghost use Rattle.store.specs.Plain.{plain_kept};
ghost use Rattle.till_ledger.specs.Ledgers.{journal_of};
ghost use Rattle.day.specs.Days.{Kept, Noted, AllNoted, closing_of};
ghost use Rattle.day.specs.Deeds.{wanted};

mod balance;
mod keying;
mod plan;
mod sums;
mod telling;

use crate::balance::{agree, balance};
use crate::keying::call_of;
use crate::plan::{AFTERNOON, Deed, EVENING, MORNING, NOON};
use crate::sums::Closing;
use crate::telling::{EndInWords, LineInWords};
use authenticator::byte_sum::ByteSum;
use cipher::clear::Clear;
use journal::calls::Line;
use meter::fitted::FittedMeter;
use std::alloc::{AllocError, Global};
use store::PlainStore;
use till::drawn::DrawnNumber;
use till::selling::Till;
use till_ledger::closing::{Closed, void_all};
use till_ledger::ledger::Ledger;
use worked::bench::bench_settings;

// A ledger over a new till and a new meter of the bench, with a blank store.
fn open_day(heap: Global) -> Ledger<PlainStore, Clear, ByteSum>
    ensures journal { journal_of result ≡ [] }
    ensures credit { (plain_kept result.meter.parts.store).credit ≡ 0 }
    ensures kept { Kept result }
{
    let till = Till::new(bench_settings(), Clear, ByteSum);
    let fitted = FittedMeter::fit(bench_settings(), PlainStore::blank(), Clear, ByteSum);
    Ledger::open(till, fitted.into_service(), heap)
}

// Does one deed: the call that it wants is performed and noted. The ledger goes on keeping the law. The heap comes beside it, as std's
// calls take it too.
fn perform(
    ledger: &mut Ledger<PlainStore, Clear, ByteSum>,
    deed: &Deed,
    heap: Global,
) -> Result<(), AllocError>
    ensures noted { OnOk result (Noted (wanted deed.now (journal_of ledger.old)) (journal_of ledger.old) (journal_of ledger.new)) }
    ensures kept { Kept ledger.old → Kept ledger.new }
{
    if let Some(call) = call_of(deed, ledger.lines(), heap)? {
        ledger.perform(call)?;
    }
    Ok(())
}

// Does deeds one after the other.
fn perform_all(
    ledger: &mut Ledger<PlainStore, Clear, ByteSum>,
    deeds: &[Deed],
    heap: Global,
) -> Result<(), AllocError>
    ensures noted { OnOk result (AllNoted deeds.now (journal_of ledger.old) (journal_of ledger.new)) }
    ensures kept { Kept ledger.old → Kept ledger.new }
{
    for deed in deeds {
        perform(ledger, deed, heap)?;
    }
    Ok(())
}

// The end of a day that opened with this credit. A ledger that keeps the law agrees with its journal.
fn sum_up(ledger: &mut Ledger<PlainStore, Clear, ByteSum>, opened: u32) -> Closing
    ensures value { result ≡ closing_of opened ledger.old }
    ensures agrees { Kept ledger.old → opened ≡ 0 → result.agrees ≡ true }
    ensures same { ledger.new ≡ ledger.old }
{
    let credit = ledger.credit();
    let balance = balance(ledger.lines());
    let counts = ledger.counts();
    let in_hand = ledger.hand().len();
    let agrees = agree(opened, credit, counts, in_hand, &balance);
    Closing {
        opened,
        credit,
        balance,
        counts,
        in_hand,
        agrees,
    }
}

// All that is done in the day.
fn perform_day(
    ledger: &mut Ledger<PlainStore, Clear, ByteSum>,
    heap: Global,
) -> Result<(), AllocError>
    ensures kept { Kept ledger.old → Kept ledger.new }
{
    perform_all(ledger, &MORNING, heap)?;
    perform_all(ledger, &NOON, heap)?;
    perform_all(ledger, &AFTERNOON, heap)?;
    perform_all(ledger, &EVENING, heap)
}

// The day and its end. At a lawful ledger that has no credit yet, the sums agree.
fn run_day(
    ledger: &mut Ledger<PlainStore, Clear, ByteSum>,
    heap: Global,
) -> Result<Closing, AllocError>
    ensures agrees { Kept ledger.old → (plain_kept ledger.old.meter.parts.store).credit ≡ 0 → IfOk result (λ closing. closing.agrees ≡ true) }
    ensures value { IfOk result (λ closing. closing ≡ closing_of (plain_kept ledger.old.meter.parts.store).credit ledger.new) }
    ensures kept { Kept ledger.old → Kept ledger.new }
{
    let opened = ledger.credit();
    perform_day(ledger, heap)?;
    Ok(sum_up(ledger, opened))
}

fn show(rt: &HostRuntime, lines: &[Line]) -> anyhow::Result<()> {
    for line in lines {
        rt.println(LineInWords(line))?;
    }
    Ok(())
}

fn show_end(rt: &HostRuntime, closing: &Closing, hand: &[DrawnNumber]) -> anyhow::Result<()> {
    rt.println(EndInWords { closing, hand })?;
    Ok(())
}

// The day, its journal and its balance. Whatever goes wrong, the ledger stays with the caller, who closes it.
fn work(rt: &HostRuntime, ledger: &mut Ledger<PlainStore, Clear, ByteSum>) -> anyhow::Result<()>
    ensures kept { Kept ledger.old → Kept ledger.new }
{
    let closing = run_day(ledger, rt.alloc())?;
    show(rt, ledger.lines())?;
    show_end(rt, &closing, ledger.hand())
}

fn day(rt: &HostRuntime) -> anyhow::Result<()> {
    rt.println("a day at the till")?;
    let mut ledger = open_day(rt.alloc());
    let worked = work(rt, &mut ledger);
    let Closed {
        mut till,
        meter: _,
        hand,
    } = ledger.close();
    void_all(&mut till, hand);
    worked?;
    let voids = till.counts().voids();
    println!(rt; "the till closes with {voids} voids and nothing in hand")?;
    Ok(())
}

fn main(rt: HostRuntime) -> anyhow::Result<()> {
    day(&rt)
}
