// Reading an image.
ghost use Rattle.std.specs.Prelude.{◌≡◌, ◌≤◌, length, IfSome, OnSome};
ghost use Rattle.image.specs.Forms.{record_form};
ghost use Rattle.image.specs.Images.{record_in, decoded, image_over};
ghost use Rattle.image.specs.Chains.{value_at, told_value, chain_of, values_of, told_fields, Widths};

use crate::array::array;
use crate::content::Image;
use crate::field::{Field, next_field};
use crate::tariff::tariff_in;
use record::Record;
use window::Window;

// The values of the fields of a record, and the bytes after them.
#[derive(Clone, Copy)]
struct RecordFields<'a> {
    credit: &'a [u8],
    highest: &'a [u8],
    marks: &'a [u8],
    index: &'a [u8],
    tariff: &'a [u8],
    rest: &'a [u8],
}

// Just these fields, in their order. A let-else for each, as each is another case of the enum, and `?` tells no cases apart.
fn record_fields<'a>(bytes: &'a [u8]) -> Option<RecordFields<'a>>
    ensures value { told_fields result ≡ chain_of record_form bytes.now }
    ensures widths { IfSome result Widths }
{
    let Some((Field::Credit(credit), rest)) = next_field(bytes) else {
        return None;
    };
    let Some((Field::Highest(highest), rest)) = next_field(rest) else {
        return None;
    };
    let Some((Field::Marks(marks), rest)) = next_field(rest) else {
        return None;
    };
    let Some((Field::Index(index), rest)) = next_field(rest) else {
        return None;
    };
    let Some((Field::Tariff(tariff), rest)) = next_field(rest) else {
        return None;
    };
    Some(RecordFields {
        credit,
        highest,
        marks,
        index,
        tariff,
        rest,
    })
}

// The value of the field that comes first, where it is the writes left. A let-else, as for the fields of a record.
fn writes_field<'a>(bytes: &'a [u8]) -> Option<&'a [u8]>
    ensures value { told_value result ≡ value_at 6 bytes.now }
    ensures width { IfSome result (λ v. length v.now ≡ 4) }
{
    let Some((Field::Writes(writes), _)) = next_field(bytes) else {
        return None;
    };
    Some(writes)
}

// The record that the fields of a record tell. None where a mark or the tariff is outside its limits.
#[tactic(auto, using(crate::proofs::Numbers::be_two, crate::proofs::Numbers::be_four, crate::proofs::Numbers::be_sixteen))]
fn record_in(fields: RecordFields<'_>) -> Option<Record>
    requires { Widths fields }
    ensures { result ≡ record_in (values_of fields.entry) }
{
    let highest = u32::from_be_bytes(array(fields.highest));
    let marks = u128::from_be_bytes(array(fields.marks));
    let window = Window::new(highest, marks)?;
    let tariff = tariff_in(fields.tariff)?;
    Some(Record::from_parts(
        u32::from_be_bytes(array(fields.credit)),
        window,
        u16::from_be_bytes(array(fields.index)),
        tariff,
    ))
}

// What a memory tells: the record and the writes left, as its first 68 bytes spell them. None where they are ill-formed.
// What it tells was written so: the first 68 bytes are the image of that record and of that many writes left.
pub fn read_image(memory: &[u8]) -> Option<Image>
    ensures value { result ≡ decoded memory.now }
    ensures written { IfSome result (λ m. memory.now ≡ image_over m.kept m.writes memory.now) }
    ensures room { OnSome result (68 ≤ length memory.now) }
{
    let fields = record_fields(memory)?;
    let writes = writes_field(fields.rest)?;
    let kept = record_in(fields)?;
    Some(Image {
        kept,
        writes: u32::from_be_bytes(array(writes)),
    })
}
