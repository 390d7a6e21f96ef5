// What a fitter meets, and images with one byte damaged.
#![tactic(auto)]

mod fitting;
mod images;

use fitting::show_fitting;
use images::show_images;

fn show(rt: &HostRuntime) -> anyhow::Result<()> {
    rt.println("damage")?;
    show_fitting(rt)?;
    show_images(rt)
}

fn main(rt: HostRuntime) -> anyhow::Result<()> {
    show(&rt)
}
