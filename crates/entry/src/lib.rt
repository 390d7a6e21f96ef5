// What an entry of digits comes to at a meter: a refusal, or a number, an amount and the next record.
#![tactic(auto)]

ghost use Rattle.std.specs.Prelude.{◌≡◌, ℕ};
ghost use Rattle.sealing.specs.Suites.{suite};
ghost use Rattle.entry.specs.Stages.{judged_by};

use authenticator::Authenticator;
use cipher::Cipher;
use decimal::reading::read_blocks;
use record::Record;
use refusal::Refusal;
use sealing::opening::open_blocks;
use sealing::settings::Settings;
use weighing::weigh;
use worth::Worth;

pub mod index;
mod weighing;
pub mod worth;

// All checks but that of the store, in the order of their numbers. The three parts are borrowed apart, so that a caller needs to own
// none of them.
pub fn judge<C: Cipher, A: Authenticator>(
    settings: &Settings,
    cipher: &C,
    authenticator: &A,
    kept: Record,
    text: &[u8],
) -> Result<Worth, Refusal>
    ensures { result ≡ judged_by (suite settings.now (C.enciphered cipher.now) (C.deciphered cipher.now) (A.tagged authenticator.now)) kept text.now }
{
    let blocks = read_blocks(text)?;
    let slip = open_blocks(cipher, blocks.as_slice())?;
    weigh(settings, authenticator, kept, &slip)
}
