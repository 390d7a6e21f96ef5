// Images with one byte damaged.
use crate::fitting::{SIZE, UNUSED};
use anyhow::Context;
use image::content::Image;
use image::format::format_record;
use image::reading::read_image;
use record::Record;
use token::tariff::Tariff;
use window::Window;

// What the images with one byte damaged read as.
#[derive(Clone, Copy, Default)]
struct Found {
    ill_formed: u32,
    // Read as the record that the bytes spell.
    told: u32,
    // Read as any other record.
    mistaken: u32,
    // Over all that was told.
    digest: u64,
}

fn mixed(digest: u64, n: u64) -> u64 {
    digest.wrapping_mul(1_000_003).wrapping_add(n)
}

fn tariff_digest(digest: u64, tariff: Tariff) -> u64 {
    let head = [
        u64::from(tariff.complete),
        u64::from(tariff.month),
        u64::from(tariff.multiplier),
        u64::from(tariff.count),
    ];
    // By reference: an array taken by value hands out each element through an option, and took a quarter of the run.
    let d = head.iter().fold(digest, |d, n| mixed(d, *n));
    tariff
        .prices
        .iter()
        .fold(d, |d, price| mixed(d, u64::from(*price)))
}

// A number for all that an image tells.
fn digest_of(digest: u64, image: Image) -> u64 {
    let kept = image.kept;
    let marks = kept.window.marks();
    let parts = [
        u64::from(kept.credit),
        u64::from(kept.window.highest()),
        (marks >> 64) as u64,
        (marks % 18_446_744_073_709_551_616) as u64,
        u64::from(kept.index),
    ];
    let d = parts.iter().fold(digest, |d, n| mixed(d, *n));
    let d = kept
        .tariff
        .map_or_else(|| mixed(d, 0), |tariff| tariff_digest(d, tariff));
    mixed(d, u64::from(image.writes))
}

// Whether the bytes begin with the image of what was read from them.
fn spells(bytes: &[u8], image: Image) -> bool {
    let mut again = [0; SIZE];
    format_record(&mut again, image.kept, image.writes).is_ok() && bytes.starts_with(&again)
}

// Each other value of one byte. The memory is left as it was.
fn damaged_at(memory: &mut [u8], at: usize) -> Found {
    let mut found = Found::default();
    let Some(was) = memory.get(at).copied() else {
        return found;
    };
    for value in (0..=255).filter(|value| *value != was) {
        memory[at] = value;
        match read_image(memory) {
            None => found.ill_formed = found.ill_formed.saturating_add(1),
            Some(image) if spells(memory, image) => {
                found.told = found.told.saturating_add(1);
                found.digest = digest_of(found.digest, image);
            }
            Some(_) => found.mistaken = found.mistaken.saturating_add(1),
        }
    }
    memory[at] = was;
    found
}

fn show_each(rt: &HostRuntime, memory: &mut [u8]) -> anyhow::Result<()> {
    // The place is printed, and the byte there is changed, not read.
    for at in 0..SIZE {
        let Found {
            ill_formed,
            told,
            mistaken,
            digest,
        } = damaged_at(memory, at);
        println!(rt;
            "byte {at}: {ill_formed} ill-formed, {told} told, {mistaken} mistaken, digest {digest}"
        )?;
    }
    Ok(())
}

// A record with each of its parts.
fn full_record() -> Option<Record> {
    let window = Window::new(201, 5 + (1 << 70))?;
    let tariff = Tariff::new(true, 63, 6, 3, [16_383, 0, 258, 0, 0, 0, 0, 0])?;
    Some(Record::from_parts(1238, window, 2, Some(tariff)))
}

fn show_record(rt: &HostRuntime, kept: Record) -> anyhow::Result<()> {
    let mut memory = [UNUSED; SIZE];
    format_record(&mut memory, kept, 962)?;
    show_each(rt, &mut memory)
}

pub(crate) fn show_images(rt: &HostRuntime) -> anyhow::Result<()> {
    rt.println("an image of a new meter")?;
    show_record(rt, Record::opening(500))?;
    let kept = full_record().context("the record is outside its limits")?;
    rt.println("an image with each part")?;
    show_record(rt, kept)
}
