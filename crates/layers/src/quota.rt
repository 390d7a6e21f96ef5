// A layer that passes only so many writes more.
ghost use Rattle.std.specs.Prelude.{◌≡◌};
ghost use Rattle.layers.specs.Quota.{quota_over, quota_kept, quota_writes, quota_after};
ghost use Rattle.layers.specs.QuotaLaws.{quota_holds, quota_most, quota_least};

use record::Record;
use store::Store;

#[derive(Drop)]
pub struct WriteQuota<S> {
    // How many writes may still be done.
    pub(crate) left: u32,
    pub(crate) below: S,
}

impl<S> WriteQuota<S> {
    // A layer over a store that passes so many writes.
    pub fn over(below: S, left: u32) -> WriteQuota<S>
        ensures { result ≡ quota_over below left }
    {
        WriteQuota { left, below }
    }
}

impl<S: Store> WriteQuota<S> {
    // The store below, as it is. Each layer gives it back for itself: they have nothing else in common that a trait could say.
    pub fn into_below(self) -> S
        ensures { result ≡ self.below }
    {
        let WriteQuota { below, .. } = self;
        below
    }
}

impl<S: Store> Store for WriteQuota<S> {
    ghost kept = { quota_kept S.kept };

    ghost writes = { quota_writes S.writes };

    ghost after = { quota_after S.after };

    ghost holds = { quota_holds S.kept S.writes S.after S.holds };

    ghost most = { quota_most S.kept S.writes S.after S.most };

    ghost least = { quota_least S.kept S.writes S.after S.least };

    fn read(&mut self) -> Record {
        self.below.read()
    }

    fn writes_left(&mut self) -> u32 {
        self.left.min(self.below.writes_left())
    }

    fn write(&mut self, r: Record) -> bool {
        if self.left == 0 {
            return false;
        }
        let done = self.below.write(r);
        if done {
            self.left -= 1;
        }
        done
    }
}
