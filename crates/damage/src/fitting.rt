// What a fitter meets: memories to format, and lengths of write-behind layers.
use image::format::format;
use image::reading::read_image;
use layers::length::Length;
use refusal::Refusal;

// How many bytes an image takes.
pub(crate) const SIZE: usize = 68;

// The byte that a memory holds before it is formatted.
pub(crate) const UNUSED: u8 = 170;

// 0 where a call was performed, else the number of its refusal.
fn number<T: Drop>(answer: Result<T, Refusal>) -> u8 {
    answer.err().map_or(0, |refusal| refusal.number())
}

fn all_unused(bytes: &[u8]) -> bool {
    bytes.iter().all(|b| *b == UNUSED)
}

// How many of the shorter memories that begin an image read as ill-formed.
fn short_ill_formed(image: &[u8; SIZE]) -> usize {
    (0..SIZE)
        .filter_map(|n| image.get(..n))
        .filter(|short| read_image(short).is_none())
        .count()
}

pub(crate) fn show_fitting(rt: &HostRuntime) -> anyhow::Result<()> {
    for k in [0, 1, 64, 65, 255] {
        let answer = number(Length::new(k));
        println!(rt; "length {k}: {answer}")?;
    }
    let mut short = [UNUSED; 67];
    let answer = number(format(&mut short, 7, 9));
    let as_it_was = all_unused(&short);
    println!(rt; "format 67 bytes: {answer}, as it was {as_it_was}")?;
    let mut exact = [UNUSED; SIZE];
    let answer = number(format(&mut exact, 7, 9));
    let ill_formed = short_ill_formed(&exact);
    println!(rt; "format 68 bytes: {answer}, shorter ones ill-formed {ill_formed}")?;
    let mut long = [UNUSED; 80];
    let answer = number(format(&mut long, 7, 9));
    let after = all_unused(&long[SIZE..]);
    println!(rt; "format 80 bytes: {answer}, after the image as it was {after}")?;
    Ok(())
}
