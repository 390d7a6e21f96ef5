// What the multiplier code of rate prices means.
ghost use Rattle.std.specs.Prelude.{◌≡◌, if◌then◌else◌, Some, None, nat_le};
ghost use Rattle.token.specs.Multiplier.{price_multiplier};

// The price multiplier in thousandths of a minor unit. None for a code above 6.
pub fn price_multiplier(code: u8) -> Option<u32>
    ensures { result ≡ (if nat_le code 6 then Some (price_multiplier code) else None) }
{
    if code > 6 {
        return None;
    }
    Some(10_u32.pow(u32::from(code)))
}
