// The settings that a till and its meter share.
ghost use Rattle.std.specs.Prelude.{T};
ghost use Rattle.sealing.specs.Limits.{allowed};

// Settings as a fitter states them, right or wrong.
#[derive(Clone, Copy)]
pub struct SettingValues {
    pub supplier: u64,
    pub meter: u64,
    // What an amount is multiplied by, for each AMTConfig; 0 is reserved.
    pub multipliers: [u16; 4],
    pub ceiling: u32,
}

// Settings within their limits.
#[derive(Clone, Copy)]
pub struct Settings {
    pub supplier: u64,
    pub meter: u64,
    pub multipliers: [u16; 4],
    pub ceiling: u32,
    ghost ok: { T (allowed multipliers ceiling) },
}
