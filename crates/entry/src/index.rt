// The function index, which till and meter each keep: how many tariffs were set, as far as the count goes.
ghost use Rattle.std.specs.Prelude.{◌≡◌};
ghost use Rattle.entry.specs.Rules.{raisable};

use token::subclass::SubClass;

// Whether a slip of the SubClass leaves the index within its two bytes.
pub fn is_raisable(subclass: SubClass, index: u16) -> bool
    ensures { result ≡ raisable subclass index }
{
    match subclass {
        SubClass::Clear | SubClass::Enciphered => true,
        SubClass::Rates => index < u16::MAX,
    }
}
