// How large the halves of a number are.
ghost use Rattle.std.specs.Prelude.{◌≡◌, ◌^◌, ◌≤◌, if◌then◌else◌, Some, None, nat_le};
ghost use Rattle.cipher.specs.Widths.{bits};
ghost use Rattle.ff1.specs.Ff1.{byte_count};
ghost use Rattle.ff1.specs.Sizes.{sizes_of, allowed};

use crate::rounds::Sizes;
use cipher::width::Width;

// A power of the radix, unless it is above 2^63.
fn power(radix: u32, n: u32) -> Option<u64>
    ensures { result ≡ (if nat_le (radix ^ n) (2 ^ 63) then Some (radix ^ n) else None) }
{
    u64::from(radix).checked_pow(n).filter(|p| *p <= 1 << 63)
}

// How many bytes a number takes.
fn byte_count(n: u64) -> u32
    ensures value { result ≡ byte_count 16 n }
    ensures few { result ≤ 8 }
{
    n.checked_ilog(256).map_or(0, |k| k + 1)
}

// The sizes for numbers of so many digits; none where the radix is not 2 to 65536, or a half is above 2^63.
pub(crate) fn sizes_of(radix: u32, digits: u32) -> Option<Sizes>
    ensures { result ≡ (if allowed radix digits then Some (sizes_of radix digits) else None) }
{
    if radix < 2 || radix > 65536 {
        return None;
    }
    let right = power(radix, digits - digits / 2)?;
    let left = power(radix, digits / 2)?;
    Some(Sizes {
        left,
        right,
        bytes: byte_count(right - 1),
    })
}

// The sizes for numbers in as many bits as a width has.
pub(crate) fn binary(width: Width) -> Sizes
    ensures { result ≡ sizes_of 2 (bits width) }
{
    let digits = width.bits();
    Sizes {
        left: 1 << (digits / 2),
        right: 1 << (digits - digits / 2),
        bytes: 4,
    }
}
