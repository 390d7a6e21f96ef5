// The tag field of a slip.
ghost use Rattle.std.specs.Prelude.{◌≡◌, ℕ};
ghost use Rattle.sealing.specs.Messages.{index_for, tag_field};
ghost use Rattle.sealing.specs.Opening.{further_of};

use crate::message::{message_of, nonce_for};
use crate::opening::Opened;
use crate::sealer::Sealer;
use crate::settings::Settings;
use authenticator::Authenticator;
use token::subclass::SubClass;

// The function index that goes into the message, by the index that the till or the meter keeps.
fn index_for(subclass: SubClass, index: u16) -> u32
    ensures { result ≡ index_for subclass index }
{
    match subclass {
        SubClass::Clear => 0,
        SubClass::Enciphered => u32::from(index),
        SubClass::Rates => u32::from(index) + 1,
    }
}

// The tag field that a slip in clear should have, for a number and the index that the till or the meter keeps.
pub fn tag_field<A: Authenticator>(
    authenticator: &A,
    settings: &Settings,
    number: u32,
    index: u16,
    slip: &Opened,
) -> u32
    ensures { result ≡ tag_field settings.now (A.tagged authenticator.now) number (index_for slip.now.subclass index) slip.now.first (further_of slip.now) }
{
    let index = index_for(slip.subclass, index);
    let nonce = nonce_for(settings, number);
    let message = message_of(settings, number, index, &slip.first, slip.further());
    let [a, b, c, d, ..] = authenticator.tag(&nonce, message.as_slice());
    u32::from_be_bytes([a, b, c, d])
}

impl<C, A: Authenticator> Sealer<C, A> {
    // The same, by the settings and the authenticator of a sealer.
    pub fn tag_field(&self, number: u32, index: u16, slip: &Opened) -> u32
        ensures { result ≡ tag_field self.now.settings (A.tagged self.now.authenticator) number (index_for slip.now.subclass index) slip.now.first (further_of slip.now) }
    {
        tag_field(&self.authenticator, &self.settings, number, index, slip)
    }
}
