// A till with its settings, cipher and authenticator.
ghost use Rattle.std.specs.Prelude.{◌≡◌, ℕ, ◌+◌, min, if◌then◌else◌, Ok};
ghost use Rattle.refusal.specs.Checks.{checked};
ghost use Rattle.sale.specs.Sales.{sale_rules, issuable};
ghost use Rattle.sale.specs.Slips.{slip_length, slip_for};
ghost use Rattle.sealing.specs.Indices.{one_for_rates};
ghost use Rattle.till.specs.Counting.{drawn, after_draw, after_void};
ghost use Rattle.till.specs.Drawing.{drawing, issuing};
ghost use Rattle.till.specs.Tills.{new_till, with_cipher, with_authenticator, with_counts, after_sale, till_suite};

use crate::counts::Counts;
use crate::drawn::{DrawnNumber, NotIssued};
use authenticator::Authenticator;
use cipher::Cipher;
use refusal::Refusal;
use sale::orders::Sale;
use sale::printing::print_slip;
use sealing::sealer::Sealer;
use sealing::settings::Settings;
use token::subclass::SubClass;

#[derive(Drop)]
pub struct Till<C, A> {
    sealer: Sealer<C, A>,
    // How many slips with rate prices were issued.
    index: u16,
    counts: Counts,
}

// The index after a slip of the SubClass.
fn raised(index: u16, subclass: SubClass) -> u16
    ensures { result ≡ min (index + one_for_rates subclass) 65535 }
{
    match subclass {
        SubClass::Clear | SubClass::Enciphered => index,
        SubClass::Rates => index.saturating_add(1),
    }
}

impl<C, A> Till<C, A> {
    // A new till: nothing was drawn yet. Its parts come one by one, as a fitter brings them.
    pub fn new(settings: Settings, cipher: C, authenticator: A) -> Till<C, A>
        ensures { result ≡ new_till settings cipher authenticator }
    {
        Till {
            sealer: Sealer {
                settings,
                cipher,
                authenticator,
            },
            index: 0,
            counts: Counts::none(),
        }
    }

    pub fn counts(&self) -> Counts
        ensures { result ≡ self.now.counts }
    {
        self.counts
    }

    // The function index that the till keeps.
    pub fn index(&self) -> u16
        ensures { result ≡ self.now.index }
    {
        self.index
    }

    // The next number, to be issued or voided.
    pub fn draw(&mut self) -> Result<DrawnNumber, Refusal>
        ensures answer { result ≡ drawing (drawn self.old.counts.draws) }
        ensures after { self.new ≡ with_counts self.old (after_draw self.old.counts) }
    {
        let number = self.counts.draw()?;
        Ok(DrawnNumber::new(number))
    }

    // Ends a drawn number that is not issued.
    pub fn void(&mut self, drawn: DrawnNumber)
        ensures { self.new ≡ with_counts self.old (after_void self.old.counts) }
    {
        drawn.end();
        self.counts.void();
    }
}

// A key lets the old cipher or authenticator go, so these are of types that may be let go.
impl<C: Cipher + Drop, A: Authenticator + Drop> Till<C, A> {
    // Replaces the cipher by the one of its kind for the key and this MeterID.
    pub fn take_cipher_key(&mut self, key: &[u8; 16])
        ensures { self.new ≡ with_cipher self.old (C.keyed key.now self.old.sealer.settings.meter) }
    {
        self.sealer.take_cipher_key(key);
    }

    // Replaces the authenticator by the one of its kind for the key and this MeterID.
    pub fn take_authenticator_key(&mut self, key: &[u8; 16])
        ensures { self.new ≡ with_authenticator self.old (A.keyed key.now self.old.sealer.settings.meter) }
    {
        self.sealer.take_authenticator_key(key);
    }
}

impl<C: Cipher, A: Authenticator> Till<C, A> {
    // Issues a slip for a drawn number: digits first, the rest of the eighty bytes zero; the answer is how many digits there are.
    // Refused, the number comes back, and till and bytes stay as they were.
    pub fn issue(
        &mut self,
        drawn: DrawnNumber,
        sale: &Sale,
        slip: &mut [u8; 80],
    ) -> Result<usize, NotIssued>
        ensures answer { result ≡ issuing drawn (checked (sale_rules self.old.sealer.settings self.old.index sale.now) (Ok (slip_length sale.now))) }
        ensures after { self.new ≡ (if issuable self.old.sealer.settings self.old.index sale.now then after_sale self.old sale.now else self.old) }
        ensures bytes { slip.new ≡ (if issuable self.old.sealer.settings self.old.index sale.now then slip_for (till_suite C.enciphered C.deciphered A.tagged self.old) drawn.number self.old.index sale.now else slip.old) }
    {
        let sealer = &self.sealer;
        match print_slip(
            &sealer.settings,
            &sealer.cipher,
            &sealer.authenticator,
            drawn.number(),
            self.index,
            sale,
            slip,
        ) {
            Ok(printed) => {
                drawn.end();
                self.index = raised(self.index, printed.subclass);
                self.counts.issue();
                Ok(printed.length)
            }
            Err(refusal) => Err(NotIssued { refusal, drawn }),
        }
    }
}
