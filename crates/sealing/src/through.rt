// The cipher over the low bits of blocks, one way for enciphering and deciphering.
ghost use Rattle.std.specs.Prelude.{◌≡◌, ℕ, ◌%◌, ◌^◌, ◌<◌, ◌≤◌, length};
ghost use Rattle.cipher.specs.Widths.{bits};
ghost use Rattle.sealing.specs.Opening.{through_block, through_all, through_low};
ghost use Rattle.sealing.specs.Through.{map_by};

use cipher::Cipher;
use cipher::width::Width;
use decimal::blocks::Blocks;
use token::subclass::SubClass;

// Which of its two maps a cipher is asked for. With a closure in its place, `low_through` would have to require that it may be
// called, and public functions here require nothing.
#[derive(Clone, Copy)]
pub enum Way {
    Encipher,
    Decipher,
}

fn turned<C: Cipher>(cipher: &C, way: Way, width: Width, n: u64) -> u64
    ensures value { result ≡ map_by way (C.enciphered cipher.now) (C.deciphered cipher.now) width (n % 2 ^ bits width) }
    ensures bound { result < 2 ^ bits width }
{
    match way {
        Way::Encipher => cipher.encipher(width, n),
        Way::Decipher => cipher.decipher(width, n),
    }
}

fn block_through<C: Cipher>(cipher: &C, way: Way, width: Width, block: u64) -> u64
    ensures { result ≡ through_block (map_by way (C.enciphered cipher.now) (C.deciphered cipher.now)) width block }
{
    let bits = width.bits();
    ((block >> bits) << bits) + turned(cipher, way, width, block)
}

fn all_through<C: Cipher>(cipher: &C, way: Way, blocks: &[u64]) -> Blocks
    requires { length blocks.now ≤ 4 }
    ensures { result.items ≡ through_all (map_by way (C.enciphered cipher.now) (C.deciphered cipher.now)) blocks.now }
{
    let mut through = Blocks::new();
    if let [first, further @ ..] = blocks {
        through.push(block_through(cipher, way, Width::First, *first));
        for block in further {
            through.push(block_through(cipher, way, Width::Further, *block));
        }
    }
    through
}

// The blocks of a SubClass with their low bits enciphered or deciphered, in one pass over a slice; those in clear stay as they are.
pub(crate) fn low_through_slice<C: Cipher>(
    cipher: &C,
    way: Way,
    subclass: SubClass,
    blocks: &[u64],
) -> Blocks
    requires { length blocks.now ≤ 4 }
    ensures { result.items ≡ through_low (map_by way (C.enciphered cipher.now) (C.deciphered cipher.now)) subclass blocks.now }
{
    match subclass {
        SubClass::Clear => Blocks::leading(blocks),
        SubClass::Enciphered | SubClass::Rates => all_through(cipher, way, blocks),
    }
}

// The same for a list of blocks. It lends nothing for writing: what it is given stays as it was.
pub fn low_through<C: Cipher>(cipher: &C, way: Way, subclass: SubClass, blocks: &Blocks) -> Blocks
    ensures { result.items ≡ through_low (map_by way (C.enciphered cipher.now) (C.deciphered cipher.now)) subclass blocks.now.items }
{
    low_through_slice(cipher, way, subclass, blocks.as_slice())
}
