// Pages that aren't what the caller needs.
ghost use Rattle.std.specs.Prelude.{◌≡◌, None, Some, Err};
ghost use Rattle.pool_store.specs.Causes.{HasLooked};
ghost use Rattle.pool_store.specs.Refused.{with_fault};
ghost use Rattle.pool_store.specs.declared.fault.StoreFault.TheVariants as faults;

use crate::{Store, StoreFault};
use disk_model::Disk;
use seg_base::Dba;

impl<'a, D: Disk> Store<'a, D> {
    fn keep(&mut self, dba: Dba)
        requires { self.old.fault ≡ None }
        ensures { self.new ≡ with_fault self.old (Some (faults.BadPage dba)) }
    {
        self.fault = Some(StoreFault::BadPage { dba });
    }

    fn keep_bad(&mut self, dba: Dba)
        requires { self.old.fault ≡ None }
        ensures looked { HasLooked {T = Unit {0}} D.meaning self.old self.new (Err (faults.BadPage dba)) }
        ensures same { self.new ≡ with_fault self.old (Some (faults.BadPage dba)) }
    {
        self.keep(dba);
    }

    /// Keeps that the page of a block is of another kind than the caller needs, and answers that fault, or the one that was
    /// kept. The store is spent then.
    pub fn refuse(&mut self, dba: Dba) -> StoreFault
        ensures looked { HasLooked {T = Unit {0}} D.meaning self.old self.new (Err result) }
        ensures fault { self.old.fault ≡ None → result ≡ faults.BadPage dba }
        ensures same { self.old.fault ≡ None → self.new ≡ with_fault self.old (Some (faults.BadPage dba)) }
    {
        if let Some(fault) = self.fault {
            return fault;
        }
        self.keep_bad(dba);
        StoreFault::BadPage { dba }
    }
}
