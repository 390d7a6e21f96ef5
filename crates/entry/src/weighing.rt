// A slip in clear, weighed against what the meter keeps.
ghost use Rattle.std.specs.Prelude.{◌≡◌, ℕ};
ghost use Rattle.entry.specs.Rules.{authentic};
ghost use Rattle.entry.specs.Stages.{tariff_from, reckoned, weighed};

use crate::index::is_raisable;
use crate::worth::Worth;
use authenticator::Authenticator;
use record::Record;
use refusal::Refusal;
use sealing::opening::Opened;
use sealing::settings::Settings;
use sealing::tag::tag_field;
use token::subclass::SubClass;
use token::tariff::Tariff;

// Whether the tag field is the one of the number.
#[tactic(auto, unfolding(crate::specs::Rules::authentic))]
fn is_authentic<A: Authenticator>(
    settings: &Settings,
    authenticator: &A,
    index: u16,
    slip: &Opened,
    number: u32,
) -> bool
    ensures { result ≡ authentic settings.now (A.tagged authenticator.now) index slip.now number }
{
    slip.first.tmac == tag_field(authenticator, settings, number, index, slip)
}

// The tariff that the slip brings, if its SubClass has one.
#[tactic(auto, unfolding(crate::specs::Stages::tariff_from))]
fn new_tariff(slip: &Opened) -> Result<Option<Tariff>, Refusal>
    ensures { result ≡ tariff_from slip.now }
{
    match slip.subclass {
        SubClass::Clear | SubClass::Enciphered => Ok(None),
        SubClass::Rates => Ok(Some(slip.rate_prices()?)),
    }
}

// What is left to check once the number is known.
#[tactic(auto, unfolding(crate::specs::Stages::reckoned))]
fn reckon<A: Authenticator>(
    settings: &Settings,
    authenticator: &A,
    kept: Record,
    slip: &Opened,
    number: u32,
) -> Result<Worth, Refusal>
    ensures { result ≡ reckoned settings.now (A.tagged authenticator.now) kept slip.now number }
{
    if !is_authentic(settings, authenticator, kept.index, slip, number) {
        return Err(Refusal::WrongTag);
    }
    if kept.window.is_marked(number) {
        return Err(Refusal::AlreadyCounted);
    }
    let multiplier = settings.multiplier(slip.first.config);
    if multiplier == 0 {
        return Err(Refusal::ReservedConfig);
    }
    let amount = u32::from(slip.first.amt) * u32::from(multiplier);
    let tariff = new_tariff(slip)?;
    let next = kept
        .taking(number, amount, tariff, settings.ceiling)
        .ok_or(Refusal::AboveCeiling)?;
    Ok(Worth {
        number,
        amount,
        next,
    })
}

// The checks from the function index on.
#[tactic(auto, unfolding(crate::specs::Stages::weighed))]
pub(crate) fn weigh<A: Authenticator>(
    settings: &Settings,
    authenticator: &A,
    kept: Record,
    slip: &Opened,
) -> Result<Worth, Refusal>
    ensures { result ≡ weighed settings.now (A.tagged authenticator.now) kept slip.now }
{
    if !is_raisable(slip.subclass, kept.index) {
        return Err(Refusal::IndexFull);
    }
    let number = kept
        .window
        .recover(slip.first.tstn)
        .ok_or(Refusal::OutsideWindow)?;
    reckon(settings, authenticator, kept, slip, number)
}
