// One day of entries and spends over memories of different kinds.
#![tactic(auto)]

mod day;
mod piles;

use day::{Bench, Day};
use layers::length::Length;
use piles::{Supply, days_over, show_length};
use std::io::{BufRead, BufReader};
use store::PlainStore;
use worked::bench::bench_settings;

fn supply_of(image: u32, below: u32, k: u8) -> anyhow::Result<Supply> {
    let length = Length::new(k)?;
    Ok(Supply {
        image,
        below,
        length,
    })
}

// A mark for the answer of the plain store, and any other answer in full.
fn show_columns(rt: &HostRuntime, plain: &str, days: &[Day], at: usize) -> anyhow::Result<()> {
    rt.print(" |")?;
    for day in days {
        if let Some(own) = day.answers.get(at) {
            if own.as_str() == plain {
                rt.print(" =")?;
            } else {
                print!(rt; " [{own}]")?;
            }
        }
    }
    Ok(())
}

fn show_answers(rt: &HostRuntime, plain: &Day, many: &[Day], few: &[Day]) -> anyhow::Result<()> {
    // The place finds the answers of the other days.
    for (at, answer) in plain.answers.iter().enumerate() {
        rt.print(answer)?;
        show_columns(rt, answer, many, at)?;
        show_columns(rt, answer, few, at)?;
        rt.println("")?;
    }
    Ok(())
}

fn show_standing(rt: &HostRuntime, title: &str, days: &[Day]) -> anyhow::Result<()> {
    rt.print(title)?;
    for day in days {
        let credit = day.credit;
        let writes = day.writes;
        print!(rt; " {credit} with {writes} left;")?;
    }
    rt.println("")?;
    Ok(())
}

fn show(rt: &HostRuntime) -> anyhow::Result<()> {
    let heap = rt.alloc();
    let mut lines = Vec::new(heap);
    for line in BufReader::new(heap, rt.stdin())?.split(heap, b'\n') {
        lines.push(line?)?;
    }
    let bench = Bench {
        heap,
        settings: bench_settings(),
        lines: &lines,
    };
    let plain = bench.day_over(PlainStore::blank())?;
    let many = days_over(&bench, supply_of(1000, 1000, 4)?)?;
    let few = days_over(&bench, supply_of(12, 9, 4)?)?;
    rt.println("memories")?;
    show_answers(rt, &plain, &many, &few)?;
    show_standing(rt, "many writes:", &many)?;
    show_standing(rt, "few writes:", &few)?;
    for k in [1, 2, 3, 64] {
        print!(rt; "length {k}: ")?;
        show_length(rt, &bench, supply_of(1000, 1000, k)?)?;
    }
    Ok(())
}

fn main(rt: HostRuntime) -> anyhow::Result<()> {
    show(&rt)
}
