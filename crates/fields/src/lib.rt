// Tagged fields in a row of bytes: each a tag, two bytes of length, and so many bytes of value.
#![tactic(auto)]

ghost use Rattle.std.specs.Prelude.{◌≡◌};
ghost use Rattle.fields.specs.Law.{FieldsLaw};
ghost use Rattle.fields.specs.Fields.{cut};
ghost use Rattle.fields.specs.Cuts.{told};

pub mod cut;

use cut::Cut;

// The first field of a row, of any tag and width, and the bytes after it. None where there are fewer bytes than the field
// has.
pub fn first<'a>(bytes: &'a [u8]) -> Option<Cut<'a>>
    ensures { told result ≡ cut bytes.now }
{
    // The form that the project requires: one pattern takes tag, two bytes of length and rest.
    let [tag, high, low, rest @ ..] = bytes else {
        return None;
    };
    let width = usize::from(u16::from_be_bytes([*high, *low]));
    let (value, rest) = rest.split_at_checked(width)?;
    Some(Cut {
        tag: *tag,
        value,
        rest,
    })
}

// Whatever fields a form lists: what is written reads back, and what reads back was written so. The law is this function's
// contract.
pub fn fields_law() -> u8
    ensures { FieldsLaw }
{
    0
}
