// Times an AES block, a tag and an enciphering. Each works on what the one before it gave, so many times as the argument says, or 1000
// times. The last value goes to the output, the time of one operation to the error output.
#![tactic(auto)]

pub(crate) mod laps;

use aes::Aes128;
use authenticator::Authenticator;
use cipher::Cipher;
use cmac::Cmac;
use ff1::Ff1;
use gmac::Gmac;
use laps::{Lap, Tagging, laps};
use std::env;
use std::time::Instant;

const KEY: [u8; 16] = [0; 16];

// One operation's last value and time.
fn measure<L: Lap>(rt: &HostRuntime, name: &str, operation: &L, count: u32) -> anyhow::Result<()> {
    let start = Instant::now(rt)?;
    let last = laps(operation, count, 0);
    let spent = start.elapsed(rt)?.as_nanos();
    println!(rt; "{name} {last}")?;
    eprintln!(rt; "{name}: {} ns", spent / u128::from(count.max(1)))?;
    Ok(())
}

fn main(rt: HostRuntime) -> anyhow::Result<()> {
    let mut arguments = env::args(&rt)?;
    let count = arguments
        .nth(1)
        .and_then(|text| text.parse::<u32>().ok())
        .unwrap_or(1000);
    measure(&rt, "block", &Aes128::new(&KEY), count)?;
    measure(&rt, "gmac", &Tagging(Gmac::keyed(&KEY, 0)), count)?;
    measure(&rt, "cmac", &Tagging(Cmac::keyed(&KEY, 0)), count)?;
    measure(&rt, "ff1", &Ff1::keyed(&KEY, 0), count)?;
    Ok(())
}
