// Formatting a memory.
ghost use Rattle.std.specs.Prelude.{◌≡◌, Some, OnOk};
ghost use Rattle.record.specs.Changes.{opening};
ghost use Rattle.image.specs.Images.{decoded};
ghost use Rattle.image.specs.Formats.{format_answer, formatted};

use crate::writing::put_image;
use record::Record;
use refusal::Refusal;

// How many bytes an image takes.
const SIZE: usize = 68;

// Makes the front of a memory the image of a record, with so many writes left. The bytes after the image stay as they are. A
// memory that is shorter than an image is refused, and left as it is.
pub fn format_record(memory: &mut [u8], kept: Record, writes: u32) -> Result<(), Refusal>
    ensures answer { result ≡ format_answer memory.old }
    ensures after { memory.new ≡ formatted kept writes memory.old }
    ensures told { OnOk result (decoded memory.new ≡ Some (record { kept = kept; writes = writes })) }
{
    if memory.len() < SIZE {
        return Err(Refusal::ShortMemory);
    }
    put_image(memory, kept, writes);
    Ok(())
}

// The same for the record of a new meter: this credit, and all else blank.
pub fn format(memory: &mut [u8], credit: u32, writes: u32) -> Result<(), Refusal>
    ensures answer { result ≡ format_answer memory.old }
    ensures after { memory.new ≡ formatted (opening credit) writes memory.old }
    ensures told { OnOk result (decoded memory.new ≡ Some (record { kept = opening credit; writes = writes })) }
{
    format_record(memory, Record::opening(credit), writes)
}
