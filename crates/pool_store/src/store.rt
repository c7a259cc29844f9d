// A store, and what it tells without a call on the disk.
ghost use Rattle.std.specs.Prelude.{◌≡◌, ◌≤◌, List, ℕ, length, None, is_some};
ghost use Rattle.redo_model.specs.Records.{Record};
ghost use Rattle.redo_model.specs.Model.{commit_count};
ghost use Rattle.pool_store.specs.Store.{HasList, IsTrue, with_disk};
ghost use Rattle.pool_store.specs.Survives.{Survives, Rises};

use crate::StoreFault;
use disk_model::Disk;
use redo_log::RedoLog;
use seg_base::{Scn, Shape};
use std::marker::Model;
use std::snapshot::Snapshot;
use store_pages::StorePages;

/// A store over a disk that it was lent.
#[derive(Drop)]
pub struct Store<'a, D: Disk> {
    pub(crate) disk: &'a mut D,
    pub(crate) first: Snapshot<D>,
    pub(crate) shape: Shape,
    pub(crate) log: RedoLog,
    pub(crate) pages: StorePages,
    pub(crate) commits: Scn,
    pub(crate) fault: Option<StoreFault>,
}

impl<'a, D: Disk> Model for Store<'a, D> {
    ghost use Rattle.std.specs.Prelude.{◌≡◌, ◌≤◌, None};
    ghost use Rattle.pool_store.specs.Store.{Held};

    ghost Value = { Held D };

    ghost view = { λ s. record { disk = s.disk.now; loan = s.disk.ghost_name; first = s.first.value; shape = s.shape; log = s.log; pages = s.pages; commits = s.commits; fault = s.fault } };

    ghost invariant = { λ s. s.fault ≡ None → 18 ≤ s.log.waiting.room };
}

/// What was read of a disk, of which a store over it is made.
#[derive(Drop)]
pub struct Loaded<D: Disk> {
    pub(crate) first: Snapshot<D>,
    pub(crate) shape: Shape,
    pub(crate) log: RedoLog,
    pub(crate) pages: StorePages,
    pub(crate) commits: Scn,
    pub(crate) fault: Option<StoreFault>,
}

impl<D: Disk> Model for Loaded<D> {
    ghost use Rattle.std.specs.Prelude.{◌≡◌, ◌≤◌, None};
    ghost use Rattle.pool_store.specs.Store.{Read};

    ghost Value = { Read D };

    ghost view = { λ l. record { first = l.first.value; shape = l.shape; log = l.log; pages = l.pages; commits = l.commits; fault = l.fault } };

    ghost invariant = { λ l. l.fault ≡ None → 18 ≤ l.log.waiting.room };
}

impl<'a, D: Disk> Store<'a, D> {
    /// The store over a disk, of what was read of it.
    pub fn over(disk: &'a mut D, loaded: Loaded<D>) -> Store<'a, D>
        ensures { result ≡ with_disk disk.old disk.entry.ghost_name loaded }
    {
        let Loaded {
            first,
            shape,
            log,
            pages,
            commits,
            fault,
        } = loaded;
        Store {
            disk,
            first,
            shape,
            log,
            pages,
            commits,
            fault,
        }
    }

    /// The disk, and what a store over it is made of.
    pub fn into_parts(self) -> (&'a mut D, Loaded<D>)
        ensures loan { result.0.ghost_name ≡ self.entry.loan }
        ensures disk { result.0.now ≡ self.entry.disk }
        ensures same { (with_disk self.entry.disk self.entry.loan result.1) ≡ self.entry }
    {
        let Store {
            disk,
            first,
            shape,
            log,
            pages,
            commits,
            fault,
        } = self;
        let loaded = Loaded {
            first,
            shape,
            log,
            pages,
            commits,
            fault,
        };
        (disk, loaded)
    }

    /// The disk, which the store no longer holds. Records that aren't stable are lost.
    pub fn into_disk(self) -> &'a mut D
        ensures loan { result.ghost_name ≡ self.entry.loan }
        ensures disk { result.now ≡ self.entry.disk }
    {
        let (disk, _) = self.into_parts();
        disk
    }

    pub fn shape(&self) -> Shape
        ensures { result ≡ self.now.shape }
    {
        self.shape
    }

    /// The number of the last commit.
    pub fn commits(&self) -> Scn
        ensures value { result ≡ self.now.commits }
        ensures list { (R : List Record) → HasList D.meaning R self.now → result ≡ commit_count R }
    {
        self.commits
    }

    /// How many records the redo list has.
    pub fn log_len(&self) -> u64
        ensures value { result ≡ self.now.log.count }
        ensures list { (R : List Record) → HasList D.meaning R self.now → result ≡ length R }
    {
        self.log.count().0
    }

    /// That the store has failed, and answers that fault to every call.
    pub fn spent(&self) -> bool
        ensures { result ≡ is_some self.now.fault }
    {
        self.fault.is_some()
    }

    /// The disk's clock. What is stable now is in each image of a crash from this moment on, so that it may be needed from now
    /// on.
    pub fn moment(&self) -> u64
        ensures moment { result ≡ D.meaning.clock self.now.disk }
        ensures needed { (since : ℕ) (needed more : ℕ → ℕ) (R : List Record) → IsTrue D.meaning R self.now → self.now.fault ≡ None
            → Survives D.meaning since needed R self.now → Rises needed more result self.now.log.stable → Survives D.meaning since more R self.now }
    {
        self.disk.moment()
    }

    /// The disk's count of faults.
    pub fn faults(&self) -> u64
        ensures { result ≡ D.meaning.fault_count self.now.disk }
    {
        self.disk.faults()
    }

    /// The disk as it is now, for clauses alone.
    pub fn snapshot(&self) -> Snapshot<D>
        ensures { result.value ≡ self.now.disk }
    {
        Snapshot::of(&*self.disk)
    }
}
