// One day over one memory.
use authenticator::byte_sum::ByteSum;
use cipher::clear::Clear;
use lines::answering::answer_line;
use lines::asking::{Request, read_request};
use meter::answers::Answer;
use meter::fitted::FittedMeter;
use meter::service::Meter;
use sealing::settings::Settings;
use std::alloc::{AllocError, Global};
use store::Store;

pub(crate) type BenchMeter<S> = Meter<S, Clear, ByteSum>;

// What was answered over a memory, and what it held at the end.
#[derive(Drop)]
pub(crate) struct Day {
    pub(crate) answers: Vec<String>,
    pub(crate) credit: u32,
    pub(crate) writes: u32,
}

// The answer to a line, as text. `slipbench` replies from a ledger, with a promise of its journal; here a meter answers alone.
pub(crate) fn reply<S: Store>(
    meter: &mut BenchMeter<S>,
    line: &[u8],
    heap: Global,
) -> Result<String, AllocError> {
    let answer: Answer = match read_request(line) {
        Some(Request::Enter { text }) => meter.enter(text).into(),
        Some(Request::Spend { amount }) => meter.spend(amount).into(),
        None => return String::from_str(heap, "?"),
    };
    answer_line(heap, answer, meter.credit())
}

// What each day is run with: the settings of its meter, and the lines that are keyed in.
#[derive(Clone, Copy)]
pub(crate) struct Bench<'a> {
    pub(crate) heap: Global,
    pub(crate) settings: Settings,
    pub(crate) lines: &'a [Vec<u8>],
}

impl<'a> Bench<'a> {
    pub(crate) fn meter_over<S>(&self, store: S) -> BenchMeter<S> {
        FittedMeter::fit(self.settings, store, Clear, ByteSum).into_service()
    }

    pub(crate) fn day_over<S: Store + Drop>(&self, store: S) -> Result<Day, AllocError> {
        let mut meter = self.meter_over(store);
        let mut answers = Vec::new(self.heap);
        for line in self.lines {
            answers.push(reply(&mut meter, line.as_slice(), self.heap)?)?;
        }
        Ok(Day {
            answers,
            credit: meter.credit(),
            writes: meter.writes_left(),
        })
    }
}
