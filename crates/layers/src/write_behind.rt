// A layer that writes behind: where a write lowers the credit, it may only keep the record, and write it below later.
ghost use Rattle.std.specs.Prelude.{◌≡◌};
ghost use Rattle.layers.specs.WriteBehind.{behind_over, behind_kept, behind_writes, behind_after, flushed};
ghost use Rattle.layers.specs.WriteBehindLaws.{behind_holds, behind_most, behind_least};

use crate::length::Length;
use record::Record;
use store::Store;

// The newest record, where it was only kept.
#[derive(Clone, Copy)]
pub(crate) struct Kept {
    pub(crate) newest: Record,
    // How many writes were only kept since the last one below, this one among them.
    pub(crate) count: u8,
}

#[derive(Drop)]
pub struct WriteBehind<S> {
    pub(crate) length: Length,
    pub(crate) kept: Option<Kept>,
    pub(crate) below: S,
}

impl<S> WriteBehind<S> {
    // A layer over a store, with nothing kept yet.
    pub fn over(below: S, length: Length) -> WriteBehind<S>
        ensures { result ≡ behind_over below length }
    {
        WriteBehind {
            length,
            kept: None,
            below,
        }
    }
}

impl<S: Store> WriteBehind<S> {
    // Writes a record below that was only kept. Without one, and where below has no writes left, nothing changes.
    pub fn flush(&mut self)
        ensures after { self.new ≡ flushed S.writes S.after self.old }
        ensures same { behind_kept S.kept S.writes self.new ≡ behind_kept S.kept S.writes self.old }
        ensures below { S.kept self.new.below ≡ behind_kept S.kept S.writes self.old }
    {
        if let Some(kept) = self.kept {
            if self.below.write(kept.newest) {
                self.kept = None;
            }
        }
    }

    // The store below, as it is. Flush before, or a record that was only kept is lost.
    pub fn into_below(self) -> S
        ensures { result ≡ self.below }
    {
        let WriteBehind { below, .. } = self;
        below
    }
}

impl<S: Store> Store for WriteBehind<S> {
    ghost kept = { behind_kept S.kept S.writes };

    ghost writes = { behind_writes S.writes };

    ghost after = { behind_after S.kept S.writes S.after };

    ghost holds = { behind_holds S.kept S.writes S.after S.holds };

    ghost most = { behind_most S.kept S.writes S.after S.most };

    ghost least = { behind_least S.kept S.writes S.after S.least };

    fn read(&mut self) -> Record {
        match self.kept {
            Some(kept) if self.below.writes_left() > 0 => kept.newest,
            _ => self.below.read(),
        }
    }

    fn writes_left(&mut self) -> u32 {
        self.below.writes_left()
    }

    fn write(&mut self, r: Record) -> bool {
        if self.below.writes_left() == 0 {
            return false;
        }
        // A match: map_or_else is no plainer with two closures, one of which holds the store below.
        let (credit, count) = match self.kept {
            Some(kept) => (kept.newest.credit, kept.count),
            None => (self.below.read().credit, 0),
        };
        if r.credit < credit && count < self.length.value - 1 {
            self.kept = Some(Kept {
                newest: r,
                count: count + 1,
            });
            true
        } else {
            self.kept = None;
            self.below.write(r)
        }
    }
}
