// The bench that slips are worked out on.
ghost use Rattle.std.specs.Prelude.{◌≡◌};
ghost use Rattle.worked.specs.Bench.{bench_settings};

use sealing::settings::{SettingValues, Settings};

// The settings of the bench, which are within their limits.
pub fn bench_settings() -> Settings
    ensures { result ≡ bench_settings }
{
    Settings::new(SettingValues {
        supplier: 1,
        meter: 2,
        multipliers: [1, 10, 100, 1000],
        ceiling: 3400,
    })
    .unwrap()
}
