// A tariff in twenty bytes.
ghost use Rattle.std.specs.Prelude.{◌≡◌, length, drop};
ghost use Rattle.image.specs.Tariffs.{all_zero, flag_of, pairs, tariff_in, tariff_bytes};

use crate::array::array;
use token::tariff::Tariff;

// Whether each byte is zero.
fn all_zero(bytes: &[u8]) -> bool
    ensures { result ≡ all_zero bytes.now }
{
    bytes.iter().all(|b| *b == 0)
}

fn prices(value: &[u8]) -> [u16; 8]
    requires { length value.now ≡ 20 }
    ensures { result ≡ pairs (drop 4 value.now) }
{
    let (pairs, _) = value[4..].as_chunks();
    array(pairs).map(u16::from_be_bytes)
}

// By hand, as std makes no bool of a byte.
fn flag(byte: u8) -> Option<bool>
    ensures { result ≡ flag_of byte }
{
    match byte {
        0 => Some(false),
        1 => Some(true),
        _ => None,
    }
}

// The tariff that twenty bytes tell, or that there is none. The outer None is for bytes that tell neither: an error of its own
// would be read by nobody, as an image is well formed or not.
pub(crate) fn tariff_in(value: &[u8]) -> Option<Option<Tariff>>
    requires { length value.now ≡ 20 }
    ensures { result ≡ tariff_in value.now }
{
    let count = value[3];
    if count == 0 {
        return all_zero(value).then_some(None);
    }
    let complete = flag(value[0])?;
    Tariff::new(complete, value[1], value[2], count, prices(value)).map(Some)
}

// The twenty bytes of a tariff, or of none.
pub(crate) fn tariff_bytes(tariff: Option<Tariff>) -> [u8; 20]
    ensures { result ≡ tariff_bytes tariff }
{
    let Some(t) = tariff else {
        return [0; 20];
    };
    let mut bytes = [0; 20];
    let head = [u8::from(t.complete), t.month, t.multiplier, t.count];
    bytes[..4].copy_from_slice(&head);
    let prices = t.prices.map(u16::to_be_bytes);
    bytes[4..].copy_from_slice(prices.as_flattened());
    bytes
}
