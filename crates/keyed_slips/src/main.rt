// Compares slips of tills with FF1 and GMAC or CMAC with those of an independent model.
#![tactic(auto)]

pub(crate) mod comparing;
pub(crate) mod slips;

use authenticator::Authenticator;
use cipher::Cipher;
use cmac::Cmac;
use comparing::{SlipVector, agreeing};
use ff1::Ff1;
use gmac::Gmac;
use sealing::settings::{SettingValues, Settings};
use slips::{CMAC_CIPHER_KEY, CMAC_KEY, CMAC_SLIPS, GMAC_CIPHER_KEY, GMAC_KEY, GMAC_SLIPS};
use till::selling::Till;

const METER: u64 = 81985529216486895;

// Prints how many slips of a till with FF1 and an authenticator are the ones expected.
fn compare<A: Authenticator + Drop>(
    rt: &HostRuntime,
    name: &str,
    mut till: Till<Ff1, A>,
    slips: &[SlipVector],
) -> anyhow::Result<()> {
    println!(rt;
        "slips of a till with FF1 and {name}: {} of {}",
        agreeing(&mut till, slips),
        slips.len()
    )?;
    Ok(())
}

fn main(rt: HostRuntime) -> anyhow::Result<()> {
    let settings = Settings::new(SettingValues {
        supplier: 1234605616436508552,
        meter: METER,
        multipliers: [1, 10, 100, 0],
        ceiling: 4294967295,
    })?;
    let cipher = Ff1::keyed(&GMAC_CIPHER_KEY, METER);
    let till = Till::new(settings, cipher, Gmac::keyed(&GMAC_KEY, METER));
    compare(&rt, "GMAC", till, &GMAC_SLIPS)?;
    let cipher = Ff1::keyed(&CMAC_CIPHER_KEY, METER);
    let till = Till::new(settings, cipher, Cmac::keyed(&CMAC_KEY, METER));
    compare(&rt, "CMAC", till, &CMAC_SLIPS)
}
