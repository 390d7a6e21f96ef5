// A store in a memory that holds an image.
#![tactic(auto)]

ghost use Rattle.std.specs.Prelude.{◌≡◌, if◌then◌else◌, nat_lt};
ghost use Rattle.image_store.specs.Stores.{image_on, image_kept, image_writes, bytes_after, image_after};
ghost use Rattle.image_store.specs.StoreLaws.{image_holds, image_most, image_least};

use image::format::format_record;
use image::reading::read_image;
use record::Record;
use store::Store;

#[derive(Drop)]
pub struct ImageStore {
    pub(crate) memory: Vec<u8>,
}

impl ImageStore {
    // A store in this memory, whatever its length and bytes. An ill-formed image means the blank record and no writes.
    pub fn open(memory: Vec<u8>) -> ImageStore
        ensures { result ≡ image_on memory }
    {
        Self { memory }
    }

    // The memory, as it is. Opened again, it is the same store.
    pub fn into_memory(self) -> Vec<u8>
        ensures memory { result ≡ self.memory }
        ensures again { image_on result ≡ self }
    {
        let ImageStore { memory } = self;
        memory
    }
}

impl Store for ImageStore {
    ghost kept = { image_kept };

    ghost writes = { image_writes };

    ghost after = { image_after };

    ghost holds = { image_holds };

    ghost most = { image_most };

    ghost least = { image_least };

    fn read(&mut self) -> Record {
        read_image(self.memory.as_slice()).map_or(Record::opening(0), |image| image.kept)
    }

    fn writes_left(&mut self) -> u32 {
        read_image(self.memory.as_slice()).map_or(0, |image| image.writes)
    }

    // Every byte of the memory is told: the image of the record, with one write less, and the bytes after it as they were.
    fn write(&mut self, r: Record) -> bool
        ensures test { result ≡ nat_lt 0 (image_writes self.old) }
        ensures after { self.new ≡ (if nat_lt 0 (image_writes self.old) then image_after self.old r else self.old) }
        ensures bytes { self.new.memory.items ≡ (if nat_lt 0 (image_writes self.old) then bytes_after self.old r else self.old.memory.items) }
    {
        let left = self.writes_left();
        if left == 0 {
            return false;
        }
        format_record(self.memory.as_mut_slice(), r, left - 1).is_ok()
    }
}
