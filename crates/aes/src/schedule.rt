// The key expansion on columns.
ghost use Rattle.std.specs.Prelude.{◌≡◌};
ghost use Rattle.aes.specs.Field.{xtime};
ghost use Rattle.aes.specs.Aes.{next_key};
ghost use Rattle.aes.specs.Words.{Turned, unpacked};

use crate::sbox::substitute;

// The product with x in the field of the bytes.
// Products with x of blocks stand in CMAC and GHASH: on 128 bits, modulo another polynomial, and in GHASH from the other end.
#[tactic(auto, unfolding(crate::specs::Field::xtime))]
pub(crate) fn times_x(a: u8) -> u8
    ensures { result ≡ xtime a }
{
    (a << 1) ^ ((a >> 7) * 0x1b)
}

// A column turned up by one row, substituted, with the round constant in its first row.
#[tactic(auto, using(crate::proofs::Xors::alike, crate::proofs::Xors::joined_bytes))]
fn turned(column: u32, constant: u8) -> u32
    ensures { Turned result column constant }
{
    let [a, b, c, d] = column.to_be_bytes();
    let row0 = substitute(b) ^ constant;
    let row1 = substitute(c);
    let row2 = substitute(d);
    let row3 = substitute(a);
    u32::from_be_bytes([row0, row1, row2, row3])
}

// The round key after `k`.
#[tactic(auto, using(crate::proofs::Xors::next_is))]
pub(crate) fn next_key(k: &[u32; 4], constant: u8) -> [u32; 4]
    ensures { unpacked result ≡ next_key constant (unpacked k.now) }
{
    let [a, b, c, d] = *k;
    let e = a ^ turned(d, constant);
    let f = b ^ e;
    let g = c ^ f;
    let h = d ^ g;
    [e, f, g, h]
}
