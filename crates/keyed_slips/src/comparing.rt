// How many slips of a till are the ones expected.
ghost use Rattle.std.specs.Prelude.{◌≤◌, length};

use authenticator::Authenticator;
use cipher::Cipher;
use sale::orders::Sale;
use till::drawn::NotIssued;
use till::selling::Till;

#[derive(Clone, Copy)]
pub(crate) struct SlipVector {
    pub(crate) sale: Sale,
    pub(crate) digits: &'static [u8],
}

// Draws a number and issues a slip for it; whether its digits are the ones expected. A number whose sale is refused is voided.
fn prints<C: Cipher, A: Authenticator>(till: &mut Till<C, A>, expected: &SlipVector) -> bool {
    let Ok(drawn) = till.draw() else {
        return false;
    };
    let mut slip = [0; 80];
    match till.issue(drawn, &expected.sale, &mut slip) {
        Ok(length) => slip.get(..length) == Some(expected.digits),
        Err(NotIssued { refusal: _, drawn }) => {
            till.void(drawn);
            false
        }
    }
}

pub(crate) fn agreeing<C: Cipher, A: Authenticator>(
    till: &mut Till<C, A>,
    slips: &[SlipVector],
) -> usize
    ensures { result ≤ length slips.now }
{
    slips.iter().filter(|slip| prints(till, slip)).count()
}
