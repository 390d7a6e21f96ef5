// Decimal text: bytes and the digits that they stand for.
ghost use Rattle.std.specs.Prelude.{◌≡◌, ◌-◌, ◌≤◌, true, length, if◌then◌else◌, Some, None};
ghost use Rattle.std.specs.Int.Digits.{number_from_digits};
ghost use Rattle.std.specs.List.{list_all};
ghost use Rattle.decimal.specs.Digits.{is_digit, values, spelled, padded, number_in};

// As many decimal digits fit 64 bits, whatever they are.
const MOST_DIGITS: usize = 19;

pub(crate) fn digit_of(byte: u8) -> Option<u8>
    ensures { result ≡ (if is_digit byte then Some (byte - 48) else None) }
{
    match byte {
        b'0'..=b'9' => Some(byte - b'0'),
        _ => None,
    }
}

pub(crate) fn all_digits(text: &[u8]) -> bool
    ensures { result ≡ list_all is_digit text.now }
{
    text.iter().all(|byte| byte.is_ascii_digit())
}

// The number of decimal text. That it is decimal stands in the contracts and in no type of text: each group and each part of
// one would have to be made such a text again.
pub(crate) fn number_of(text: &[u8]) -> u64
    requires decimal { list_all is_digit text.now ≡ true }
    requires short { length text.now ≤ 19 }
    ensures { result ≡ number_from_digits 10 (values text.now) }
{
    text.iter()
        .fold(0, |n, byte| n * 10 + u64::from(*byte - b'0'))
}

// The number that text spells. None where a byte is no digit, or there are more than nineteen.
#[tactic(auto, unfolding(crate::specs::Digits::number_in))]
pub fn number(text: &[u8]) -> Option<u64>
    ensures { result ≡ number_in text.now }
{
    if text.len() > MOST_DIGITS || !all_digits(text) {
        return None;
    }
    Some(number_of(text))
}

// The last digits of `n`, as many as `out` has room for.
#[tactic(auto, using(crate::proofs::Padding::spelled_back), unfolding(crate::specs::Digits::padded))]
pub(crate) fn write_digits(n: u64, out: &mut [u8])
    ensures { out.new ≡ spelled (padded 10 (length out.old) n) }
{
    let mut rest = n;
    // By index: of a slice that was written through `iter_mut().rev()` the proof knows the length alone.
    for i in (0..out.len()).rev() {
        out[i] = (rest % 10) as u8 + b'0';
        rest /= 10;
    }
}
