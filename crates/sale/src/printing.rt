// The slip of a sale.
ghost use Rattle.std.specs.Prelude.{◌≡◌, ℕ, ◌<◌, ◌≤◌, true, length, if◌then◌else◌, Ok};
ghost use Rattle.refusal.specs.Checks.{checked};
ghost use Rattle.sealing.specs.Suites.{suite};
ghost use Rattle.sale.specs.Sales.{salable, sale_rules, issuable};
ghost use Rattle.sale.specs.Slips.{tag_sold, sealed_blocks, slip_for, readied, printed as printed_for};

use crate::checking::{Ready, ready_for};
use crate::orders::Sale;
use authenticator::Authenticator;
use cipher::Cipher;
use decimal::blocks::Blocks;
use decimal::writing::write_blocks;
use entry::index::is_raisable;
use refusal::Refusal;
use sealing::opening::Opened;
use sealing::settings::Settings;
use sealing::tag::tag_field;
use sealing::through::{Way, low_through};
use token::first::FirstBlock;
use token::subclass::SubClass;

// A slip that was printed.
#[derive(Clone, Copy)]
pub struct Printed {
    // How many of the eighty bytes are digits.
    pub length: usize,
    pub subclass: SubClass,
}

// The blocks of a sale that can be sold, as they are printed for a number.
fn seal<C: Cipher, A: Authenticator>(
    settings: &Settings,
    cipher: &C,
    authenticator: &A,
    number: u32,
    index: u16,
    sale: &Sale,
    ready: Ready,
) -> Blocks
    requires salable { salable settings.now sale.now ≡ true }
    requires readied { ready ≡ readied sale.now }
    ensures { result.items ≡ sealed_blocks (suite settings.now (C.enciphered cipher.now) (C.deciphered cipher.now) (A.tagged authenticator.now)) number index sale.now }
{
    let first = FirstBlock {
        subclass: sale.subclass,
        tstn: (number % 1024) as u16,
        config: sale.config,
        amt: sale.amt,
        tmac: 0,
    };
    let bare = Opened {
        subclass: ready.subclass,
        first,
        blocks: ready.blocks,
    };
    let tmac = tag_field(authenticator, settings, number, index, &bare);
    let mut blocks = bare.blocks;
    // A sale that can be sold has no field too wide for its place, and one made ready has a place for its first block.
    blocks.set(0, FirstBlock { tmac, ..first }.pack().unwrap());
    low_through(cipher, Way::Encipher, ready.subclass, &blocks)
}

// Prints the slip of a sale for a number, at the index that the till keeps: digits first, the rest zero. Refused, the bytes stay as they were.
pub fn print_slip<C: Cipher, A: Authenticator>(
    settings: &Settings,
    cipher: &C,
    authenticator: &A,
    number: u32,
    index: u16,
    sale: &Sale,
    slip: &mut [u8; 80],
) -> Result<Printed, Refusal>
    ensures answer { result ≡ checked (sale_rules settings.now index sale.now) (Ok (printed_for sale.now)) }
    ensures bytes { slip.new ≡ (if issuable settings.now index sale.now then slip_for (suite settings.now (C.enciphered cipher.now) (C.deciphered cipher.now) (A.tagged authenticator.now)) number index sale.now else slip.old) }
{
    let ready = ready_for(settings, sale).ok_or(Refusal::Sale)?;
    let subclass = ready.subclass;
    if !is_raisable(subclass, index) {
        return Err(Refusal::TillIndexFull);
    }
    let blocks = seal(settings, cipher, authenticator, number, index, sale, ready);
    // One to four blocks of 61 bits can be written.
    let length = write_blocks(blocks.as_slice(), slip).unwrap();
    Ok(Printed { length, subclass })
}
