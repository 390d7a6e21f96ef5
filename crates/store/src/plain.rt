// A store that never runs out of writes.
ghost use Rattle.std.specs.Prelude.{◌≡◌};
ghost use Rattle.store.specs.Plain.{plain_opening, plain_kept, plain_writes, plain_after};
ghost use Rattle.store.specs.PlainLaws.{plain_holds, plain_most, plain_least};

use crate::Store;
use record::Record;

#[derive(Clone, Copy)]
pub struct PlainStore {
    last: Record,
}

impl PlainStore {
    // A store of the blank record.
    pub fn blank() -> PlainStore
        ensures { result ≡ plain_opening 0 }
    {
        PlainStore::opening(0)
    }

    // A store of a new meter's record with this credit.
    pub fn opening(credit: u32) -> PlainStore
        ensures { result ≡ plain_opening credit }
    {
        PlainStore {
            last: Record::opening(credit),
        }
    }
}

impl Store for PlainStore {
    ghost kept = { plain_kept };

    ghost writes = { plain_writes };

    ghost after = { plain_after };

    ghost holds = { plain_holds };

    ghost most = { plain_most };

    ghost least = { plain_least };

    fn read(&mut self) -> Record {
        self.last
    }

    fn writes_left(&mut self) -> u32 {
        4_294_967_295
    }

    fn write(&mut self, r: Record) -> bool {
        self.last = r;
        true
    }
}
