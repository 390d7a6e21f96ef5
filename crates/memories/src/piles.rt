// The same day over memories of each kind.
use crate::day::{Bench, Day, reply};
use image::format::format;
use image_store::ImageStore;
use layers::length::Length;
use layers::quota::WriteQuota;
use layers::write_behind::WriteBehind;
use std::alloc::Global;
use store::{PlainStore, Store};

// The byte that a memory holds before it is formatted.
const UNUSED: u8 = 170;

// How many writes the memories start with, and the length of the write-behind layers.
#[derive(Clone, Copy)]
pub(crate) struct Supply {
    pub(crate) image: u32,
    pub(crate) below: u32,
    pub(crate) length: Length,
}

// A formatted memory of eighty bytes, of which an image takes 68.
fn image_store(heap: Global, writes: u32) -> anyhow::Result<ImageStore> {
    let mut memory = vec![in heap; UNUSED; 80]?;
    format(memory.as_mut_slice(), 0, writes)?;
    Ok(ImageStore::open(memory))
}

fn behind_image(heap: Global, supply: Supply) -> anyhow::Result<WriteBehind<ImageStore>> {
    Ok(WriteBehind::over(image_store(heap, supply.below)?, supply.length))
}

// An image; a write-behind layer over an image; a quota over a write-behind layer over an image; a write-behind layer over
// a quota over a plain store.
pub(crate) fn days_over(bench: &Bench<'_>, supply: Supply) -> anyhow::Result<Vec<Day>> {
    let heap = bench.heap;
    let image = image_store(heap, supply.image)?;
    let behind = behind_image(heap, supply)?;
    let quota = WriteQuota::over(behind_image(heap, supply)?, supply.image);
    let passed = WriteQuota::over(PlainStore::blank(), supply.below);
    let behind_quota = WriteBehind::over(passed, supply.length);
    Ok(vec![in heap;
        bench.day_over(image)?,
        bench.day_over(behind)?,
        bench.day_over(quota)?,
        bench.day_over(behind_quota)?,
    ]?)
}

// The day over a write-behind layer of this length: the credit that it means and the writes left, and both of the store
// below after the layer is flushed.
pub(crate) fn show_length(
    rt: &HostRuntime,
    bench: &Bench<'_>,
    supply: Supply,
) -> anyhow::Result<()> {
    let mut meter = bench.meter_over(behind_image(bench.heap, supply)?);
    for line in bench.lines {
        let _ = reply(&mut meter, line.as_slice(), bench.heap)?;
    }
    let meant = meter.credit();
    let left = meter.writes_left();
    let mut layer = meter.into_parts().store;
    layer.flush();
    let mut below = bench.meter_over(layer.into_below());
    let flushed = below.credit();
    let after = below.writes_left();
    println!(rt; "{meant} with {left} left, below after flushing {flushed} with {after} left")?;
    Ok(())
}
