// Settings from what a fitter states.
ghost use Rattle.std.specs.Prelude.{◌≡◌};
ghost use Rattle.sealing.specs.Limits.{within, some_open};
ghost use Rattle.sealing.specs.Suites.{settings_of, multiplier_of};

use crate::settings::{SettingValues, Settings};
use refusal::Refusal;

// The highest multiplier.
const MOST: u16 = 10_000;

fn is_within(multipliers: &[u16; 4]) -> bool
    ensures { result ≡ within multipliers.now }
{
    multipliers.iter().all(|multiplier| *multiplier <= MOST)
}

fn is_some_open(multipliers: &[u16; 4]) -> bool
    ensures { result ≡ some_open multipliers.now }
{
    multipliers.iter().any(|multiplier| *multiplier > 0)
}

impl Settings {
    // Refuses a value outside its limits, and four reserved multipliers. It is named as what makes settings, and no `TryFrom`, where a
    // caller would have to look up what is tried.
    pub fn new(values: SettingValues) -> Result<Settings, Refusal>
        ensures { result ≡ settings_of values }
    {
        if !is_within(&values.multipliers) || !is_some_open(&values.multipliers) {
            return Err(Refusal::Settings);
        }
        if values.ceiling == 0 {
            return Err(Refusal::Settings);
        }
        Ok(Settings {
            supplier: values.supplier,
            meter: values.meter,
            multipliers: values.multipliers,
            ceiling: values.ceiling,
        })
    }

    // The multiplier that an AMTConfig stands for: 0, as a reserved one, where there is none.
    pub fn multiplier(&self, config: u8) -> u16
        ensures { result ≡ multiplier_of self.now config }
    {
        self.multipliers
            .get(usize::from(config))
            .copied()
            .unwrap_or(0)
    }
}
