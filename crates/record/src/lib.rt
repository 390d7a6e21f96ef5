// The record that a meter keeps, and every function that makes one.
#![tactic(auto)]

ghost use Rattle.std.specs.Prelude.{◌≡◌, ◌+◌, if◌then◌else◌, Some, None, nat_le};
ghost use Rattle.record.specs.Changes.{record_of, opening, taken, spent};

use token::tariff::Tariff;
use window::Window;

#[derive(Clone, Copy)]
pub struct Record {
    pub credit: u32,
    // The numbers counted.
    pub window: Window,
    // How many tariffs were set, as far as the count goes.
    pub index: u16,
    pub tariff: Option<Tariff>,
}

// Credit and amount together, unless they pass the ceiling.
fn top_up(credit: u32, amount: u32, ceiling: u32) -> Option<u32>
    ensures { result ≡ (if nat_le (credit + amount) ceiling then Some (credit + amount) else None) }
{
    credit.checked_add(amount).filter(|sum| *sum <= ceiling)
}

impl Record {
    // The record of these parts, as a memory tells them. Window and tariff carry their own limits.
    pub fn from_parts(credit: u32, window: Window, index: u16, tariff: Option<Tariff>) -> Record
        ensures { result ≡ record_of credit window index tariff }
    {
        Record {
            credit,
            window,
            index,
            tariff,
        }
    }

    // The record of a new meter: blank but for the credit.
    pub fn opening(credit: u32) -> Record
        ensures { result ≡ opening credit }
    {
        Record {
            credit,
            window: Window::blank(),
            index: 0,
            tariff: None,
        }
    }

    // The record after an entry is taken: the number is counted, the amount is added, and a tariff, where one is given, takes
    // the place of the old one. None where credit and amount together pass the ceiling.
    pub fn taking(
        self,
        number: u32,
        amount: u32,
        tariff: Option<Tariff>,
        ceiling: u32,
    ) -> Option<Record>
        ensures { result ≡ (if nat_le (self.credit + amount) ceiling then Some (taken self number amount tariff) else None) }
    {
        Some(Record {
            credit: top_up(self.credit, amount, ceiling)?,
            window: self.window.count(number),
            index: self.index.saturating_add(u16::from(tariff.is_some())),
            tariff: tariff.or(self.tariff),
        })
    }

    // The record after a spend. None where the amount is above the credit.
    pub fn spending(self, amount: u32) -> Option<Record>
        ensures { result ≡ (if nat_le amount self.credit then Some (spent self amount) else None) }
    {
        let credit = self.credit.checked_sub(amount)?;
        Some(Record { credit, ..self })
    }
}
