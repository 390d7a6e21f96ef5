// The check digit of a row of decimal digits, by Verhoeff's rule.
ghost use Rattle.std.specs.Prelude.{◌≡◌, ◌<◌, ◌≤◌, ◌++◌, IfSome, if◌then◌else◌, Some, None};
ghost use Rattle.std.specs.List.{list_all};
ghost use Rattle.decimal.specs.Digits.{is_digit, values};
ghost use Rattle.decimal.specs.CheckDigits.{product, passes, inverse, running, front, check_digit_after, Checks, DigitBefore};

use crate::text::digit_of;

// PRODUCT[a][b] is a times b.
const PRODUCT: [[u8; 10]; 10] = [
    [0, 1, 2, 3, 4, 5, 6, 7, 8, 9],
    [1, 2, 3, 4, 0, 6, 7, 8, 9, 5],
    [2, 3, 4, 0, 1, 7, 8, 9, 5, 6],
    [3, 4, 0, 1, 2, 8, 9, 5, 6, 7],
    [4, 0, 1, 2, 3, 9, 5, 6, 7, 8],
    [5, 9, 8, 7, 6, 0, 4, 3, 2, 1],
    [6, 5, 9, 8, 7, 1, 0, 4, 3, 2],
    [7, 6, 5, 9, 8, 2, 1, 0, 4, 3],
    [8, 7, 6, 5, 9, 3, 2, 1, 0, 4],
    [9, 8, 7, 6, 5, 4, 3, 2, 1, 0],
];

// POWERS[i][d] is d after i times through the map; eight times bring every digit back.
const POWERS: [[u8; 10]; 8] = [
    [0, 1, 2, 3, 4, 5, 6, 7, 8, 9],
    [1, 5, 7, 6, 2, 8, 3, 0, 9, 4],
    [5, 8, 0, 3, 7, 9, 6, 1, 4, 2],
    [8, 9, 1, 6, 0, 4, 3, 5, 2, 7],
    [9, 4, 5, 3, 1, 2, 6, 8, 7, 0],
    [4, 2, 8, 6, 5, 7, 3, 9, 0, 1],
    [2, 7, 9, 3, 8, 0, 6, 4, 1, 5],
    [7, 0, 4, 6, 9, 1, 3, 2, 5, 8],
];

// That a digit is below 10 stands in four contracts and not in a type: each of them would take the number out again, and each
// remainder would have to be made a digit.
#[tactic(auto, using(crate::proofs::Tables::product_at))]
fn times(a: u8, b: u8) -> u8
    requires left { a < 10 }
    requires right { b < 10 }
    ensures value { result ≡ product a b }
    ensures digit { result < 10 }
{
    PRODUCT[usize::from(a)][usize::from(b)]
}

#[tactic(auto, using(crate::proofs::Tables::power_at))]
fn passed(place: usize, digit: u8) -> u8
    requires { digit < 10 }
    ensures value { result ≡ passes place digit }
    ensures digit { result < 10 }
{
    POWERS[place % 8][usize::from(digit)]
}

// The digit that, multiplied on the right, brings a product to 0.
fn undone(p: u8) -> u8
    requires { p < 10 }
    ensures { result ≡ inverse p }
{
    if p < 5 { (5 - p) % 5 } else { p }
}

// Runs text on from `place`, where the product so far is `start`, and answers the digit that closes the row. A loop with `?`: a
// `try_fold` would say the same, with the place and the product in one closure.
#[tactic(auto, using(crate::proofs::Spelling::every_more, crate::proofs::Rows::running_more, crate::proofs::Rows::running_all, crate::proofs::Rows::row_ends, crate::proofs::Verdicts::was_some))]
fn closing(place: usize, start: u8, text: &[u8]) -> Option<u8>
    requires front { place ≤ 1 }
    requires digit { start < 10 }
    ensures { result ≡ (if list_all is_digit text.now then Some (inverse (running place start (values text.now))) else None) }
{
    let mut product = start;
    for (i, byte) in text.iter().enumerate() {
        let digit = digit_of(*byte)?;
        product = times(product, passed(place + i, digit));
    }
    Some(undone(product))
}

// The check digit of a row of text with the digit `before`, where there is one, set in front of it.
#[tactic(auto, using(crate::proofs::Rows::row_checks), unfolding(crate::specs::CheckDigits::check_digit_after, crate::specs::CheckDigits::check_digit, crate::specs::CheckDigits::whole, crate::specs::CheckDigits::running))]
pub(crate) fn check_digit_after(before: Option<u8>, text: &[u8]) -> Option<u8>
    requires { DigitBefore before }
    ensures value { result ≡ check_digit_after before text.now }
    ensures checks { IfSome result (Checks (front before ++ values text.now)) }
{
    match before {
        None => closing(0, 0, text),
        // It stands at place 0, so the text begins at place 1.
        Some(digit) => closing(1, times(0, passed(0, digit)), text),
    }
}

// The check digit of a row of decimal text; none where a byte is no digit.
pub fn check_digit(digits: &[u8]) -> Option<u8>
    ensures value { result ≡ check_digit_after None digits.now }
    ensures checks { IfSome result (Checks (values digits.now)) }
{
    check_digit_after(None, digits)
}
