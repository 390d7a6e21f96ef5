// A bench meter at the keyboard: each line of the input is an entry or a spend, and is answered at once.
#![tactic(auto)]

ghost use Rattle.std.specs.Prelude.{◌≡◌, [], IfOk, string_bytes};
ghost use Rattle.store.specs.Plain.{plain_opening, plain_kept};
ghost use Rattle.ledger.specs.Ledgers.{journal_of};
ghost use Rattle.lines.specs.Asking.{request_of};
ghost use Rattle.worked.specs.Bench.{bench_settings};
ghost use Rattle.slipbench.specs.Bench.{asked_by, Kept, Replied};

use anyhow::anyhow;
use authenticator::byte_sum::ByteSum;
use cipher::clear::Clear;
use ledger::calls::{Call, Entry, Usage};
use ledger::ledger::Ledger;
use lines::answering::answer_line;
use lines::asking::{Request, read_request};
use meter::fitted::FittedMeter;
use std::alloc::{AllocError, Global};
use std::io::{BufRead, BufReader};
use store::PlainStore;
use worked::bench::bench_settings;

// A ledger over the bench's meter, with a blank store.
fn open_bench(heap: Global) -> Ledger<PlainStore, Clear, ByteSum>
    ensures settings { result.meter.parts.sealer.settings ≡ bench_settings }
    ensures store { result.meter.parts.store ≡ plain_opening 0 }
    ensures journal { journal_of result ≡ [] }
    ensures kept { Kept result }
{
    let fitted = FittedMeter::fit(bench_settings(), PlainStore::blank(), Clear, ByteSum);
    Ledger::open(fitted.into_service(), heap)
}

// The call that a line asks for, if it asks for one.
fn call_of(line: &[u8], heap: Global) -> Result<Option<Call>, AllocError>
    ensures { IfOk result (λ call. asked_by call ≡ request_of line.now) }
{
    match read_request(line) {
        Some(Request::Enter { text }) => Ok(Some(Call::Enter(Entry {
            text: text.to_vec(heap)?,
        }))),
        Some(Request::Spend { amount }) => Ok(Some(Call::Spend(Usage { amount }))),
        None => Ok(None),
    }
}

// The reply to one line. The ledger goes on keeping the law.
fn reply(
    ledger: &mut Ledger<PlainStore, Clear, ByteSum>,
    line: &[u8],
    heap: Global,
) -> Result<String, AllocError>
    ensures says { IfOk result (λ text. Replied (request_of line.now) (journal_of ledger.old) (journal_of ledger.new) (plain_kept ledger.new.meter.parts.store).credit (string_bytes text)) }
    ensures kept { Kept ledger.old → Kept ledger.new }
{
    let Some(call) = call_of(line, heap)? else {
        return String::from_str(heap, "?");
    };
    let answer = ledger.perform(call)?;
    answer_line(heap, answer, ledger.credit())
}

fn serve(rt: &HostRuntime) -> anyhow::Result<()> {
    let heap = rt.alloc();
    let mut ledger = open_bench(heap);
    rt.println("slipbench")?;
    for line in BufReader::new(heap, rt.stdin())?.split(heap, b'\n') {
        // In words that say what the memory was for.
        let text = reply(&mut ledger, &line?, heap).map_err(|_| anyhow!(
            "no memory is left for the journal"
        ))?;
        rt.println(text)?;
    }
    Ok(())
}

fn main(rt: HostRuntime) -> anyhow::Result<()> {
    serve(&rt)
}
