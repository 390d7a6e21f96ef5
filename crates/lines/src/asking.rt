// What a line asks of a meter.
ghost use Rattle.std.specs.Prelude.{◌≡◌};
ghost use Rattle.lines.specs.Asking.{amount_of, request_of, plain, RequestsRead};

use decimal::text::number;

// The most digits of an amount. So many always fit 32 bits.
const MOST_DIGITS: usize = 9;

// What a line may ask.
#[derive(Clone, Copy)]
pub enum Request<'a> {
    // Key this text into the meter.
    Enter { text: &'a [u8] },
    // Spend this amount, in minor units.
    Spend { amount: u32 },
}

// The amount that decimal text spells.
#[tactic(auto, using(crate::proofs::Amounts::fits), unfolding(crate::specs::Asking::amount_of, decimal::specs::Digits::number_in))]
fn read_amount(digits: &[u8]) -> Option<u32>
    ensures { result ≡ amount_of digits.now }
{
    if digits.is_empty() || digits.len() > MOST_DIGITS {
        return None;
    }
    let amount = number(digits)?;
    u32::try_from(amount).ok()
}

// The request of a line, which comes without its newline; none that is known where it is no request.
pub fn read_request(line: &[u8]) -> Option<Request<'_>>
    ensures { plain result ≡ request_of line.now }
{
    match line {
        [b'E', b' ', text @ ..] => Some(Request::Enter { text }),
        [b'U', b' ', digits @ ..] => read_amount(digits).map(|amount| Request::Spend { amount }),
        _ => None,
    }
}

// Every text can be entered, and every amount of at most nine digits spent.
#[tactic(auto, using(crate::proofs::Reading::requests_read))]
pub fn requests_law() -> u8
    ensures { RequestsRead }
{
    0
}
