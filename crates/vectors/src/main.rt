// Runs every published value, and values from implementations of others, through the keyed cipher and authenticators, and prints for
// each group how many agree.
#![tactic(auto)]

pub(crate) mod agreeing;
pub(crate) mod blocks;
pub(crate) mod independent;
pub(crate) mod numerals;
pub(crate) mod published;
pub(crate) mod tags;

use agreeing::{Vector, agreeing};
use independent::{BITS, TAGS};
use published::{BLOCKS, GMAC_PUBLISHED, MESSAGES, NUMERALS};
use std::io;

// Prints how many of a group agree.
fn compare<V: Vector>(rt: &HostRuntime, group: &str, vectors: &[V]) -> io::Result<()> {
    println!(rt; "{group}: {} of {}", agreeing(vectors), vectors.len())
}

fn main(rt: HostRuntime) -> io::Result<()> {
    compare(&rt, "AES-128 of FIPS 197 and SP 800-38A", &BLOCKS)?;
    compare(&rt, "CMAC of SP 800-38B", &MESSAGES)?;
    compare(&rt, "GMAC of SP 800-38D", &GMAC_PUBLISHED)?;
    compare(&rt, "FF1 of SP 800-38G, both ways", &NUMERALS)?;
    compare(&rt, "FF1 of 57 and 59 bits by MeterID, both ways", &BITS)?;
    compare(&rt, "GMAC and CMAC of nonce and message", &TAGS)
}
