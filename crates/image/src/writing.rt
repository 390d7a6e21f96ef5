// Writing an image.
ghost use Rattle.std.specs.Prelude.{◌≡◌, ◌+◌, ◌<◌, ◌≤◌, ◌++◌, length, drop};
ghost use Rattle.fields.specs.Fields.{row_of};
ghost use Rattle.fields.specs.Puts.{over};
ghost use Rattle.image.specs.Fields.{tag_of, value_of};
ghost use Rattle.image.specs.Forms.{record_form};
ghost use Rattle.image.specs.Images.{record_values, image_over};

use crate::field::Field;
use crate::tariff::tariff_bytes;
use record::Record;

// Writes a field over the bytes from a place on.
fn put_field(memory: &mut [u8], at: usize, field: Field<'_>)
    requires room { at + 3 + length (value_of field) ≤ length memory.old }
    requires short { length (value_of field) < 65536 }
    ensures { memory.new ≡ over at (tag_of field.entry) (value_of field.entry) memory.old }
{
    let value = field.value();
    let width = value.len();
    let [high, low] = (width as u16).to_be_bytes();
    let head = [field.tag(), high, low];
    memory[at..at + 3].copy_from_slice(&head);
    memory[at + 3..at + 3 + width].copy_from_slice(value);
}

// Writes the fields of a record over the front of a memory, each where the one before it ends. The places are written out: a loop over
// the fields would carry the place along, and say less of the layout.
fn put_record(memory: &mut [u8], kept: Record)
    requires { 61 ≤ length memory.old }
    ensures { memory.new ≡ row_of record_form (record_values kept) ++ drop 61 memory.old }
{
    put_field(memory, 0, Field::Credit(&kept.credit.to_be_bytes()));
    put_field(
        memory,
        7,
        Field::Highest(&kept.window.highest().to_be_bytes()),
    );
    put_field(memory, 14, Field::Marks(&kept.window.marks().to_be_bytes()));
    put_field(memory, 33, Field::Index(&kept.index.to_be_bytes()));
    put_field(memory, 38, Field::Tariff(&tariff_bytes(kept.tariff)));
}

// Writes an image over the front of a memory.
pub(crate) fn put_image(memory: &mut [u8], kept: Record, writes: u32)
    requires { 68 ≤ length memory.old }
    ensures { memory.new ≡ image_over kept writes memory.old }
{
    put_record(memory, kept);
    put_field(memory, 61, Field::Writes(&writes.to_be_bytes()));
}
