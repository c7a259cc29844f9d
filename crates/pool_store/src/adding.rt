// Adding records.
ghost use Rattle.std.specs.Prelude.{◌≡◌, ◌∷◌, ◌≤◌, suc, ℕ, List, None, false, length, OnOk, OnErr, IfOk, IfErr};
ghost use Rattle.redo_model.specs.Records.{Record, HasSpelling};
ghost use Rattle.redo_model.specs.Model.{IsLawful, is_whole};
ghost use Rattle.store_pages.specs.Fitting.{AreBothFit, FitsAll};
ghost use Rattle.pool_store.specs.Store.{HasList, IsTrue, SameLoan};
ghost use Rattle.pool_store.specs.Survives.{Survives};
ghost use Rattle.pool_store.specs.Adding.{Adds, HasTried, FlushesFirst, WhyNotTaken, WhyNotBothTaken};
ghost use Rattle.pool_store.specs.Causes.{HasCause, IsSoundFault};

use crate::{MOST_UNWRITTEN, Store, StoreFault};
use disk_model::Disk;
use redo_record::Record;
use seg_base::Lsn;

impl<'a, D: Disk> Store<'a, D> {
    /// Adds a record, whatever it is, and answers its number. Where more than 1 MiB of records wait, they are made stable
    /// first. `BadPage` comes where the record doesn't fit on the page of a block that it touches, or the block isn't there.
    /// After `NoMemory` the store has the list that it had.
    pub fn take(&mut self, rec: &Record) -> Result<Lsn, StoreFault>
        ensures added { (R : List Record) → HasList D.meaning R self.old → HasSpelling rec.now → OnOk result (HasList D.meaning (rec.now ∷ R) self.new) }
        ensures number { (R : List Record) → HasList D.meaning R self.old → HasSpelling rec.now → IfOk result (λ lsn. lsn ≡ suc (length R)) }
        ensures true_number { (R : List Record) → IsTrue D.meaning R self.old → IsLawful self.old.shape (rec.now ∷ R) → IfOk result (λ lsn. lsn ≡ suc (length R)) }
        ensures refused { (R : List Record) → HasList D.meaning R self.old → OnErr result (HasList D.meaning R self.new) }
        ensures added_true { (R : List Record) → IsTrue D.meaning R self.old → IsLawful self.old.shape (rec.now ∷ R) → OnOk result (IsTrue D.meaning (rec.now ∷ R) self.new) }
        ensures refused_true { (R : List Record) → IsTrue D.meaning R self.old → OnErr result (IsTrue D.meaning R self.new) }
        ensures sound { (R : List Record) → IsTrue D.meaning R self.old → IsLawful self.old.shape (rec.now ∷ R) → self.old.fault ≡ None → IfErr result IsSoundFault }
        ensures survives { (since : ℕ) (needed : ℕ → ℕ) (R : List Record) → IsTrue D.meaning R self.old → Survives D.meaning since needed R self.old → OnOk result (Survives D.meaning since needed (rec.now ∷ R) self.new) }
        ensures survives_refused { (since : ℕ) (needed : ℕ → ℕ) (R : List Record) → IsTrue D.meaning R self.old → Survives D.meaning since needed R self.old → OnErr result (Survives D.meaning since needed R self.new) }
        ensures stable { (R : List Record) → HasList D.meaning R self.old → self.old.log.stable ≤ self.new.log.stable }
        ensures loan { SameLoan D.meaning self.old self.new }
        ensures cause { HasCause D.meaning self.old self.new result }
        ensures fits { (R : List Record) → IsTrue D.meaning R self.old → OnOk result (FitsAll self.old.shape R rec.now) }
        ensures unfit { (R : List Record) → IsTrue D.meaning R self.old → self.old.fault ≡ None → IfErr result (WhyNotTaken self.old.shape R rec.now) }
        ensures first { FlushesFirst D.meaning MOST_UNWRITTEN self.old self.new result }
    {
        self.put(rec)
    }

    /// Adds two records in the same way, so that both stand in one group of the log, or none. Answers the number of the second.
    pub fn take_two(&mut self, first: &Record, second: &Record) -> Result<Lsn, StoreFault>
        ensures added { (R : List Record) → HasList D.meaning R self.old → HasSpelling first.now → HasSpelling second.now → OnOk result (HasList D.meaning (second.now ∷ first.now ∷ R) self.new) }
        ensures number { (R : List Record) → HasList D.meaning R self.old → HasSpelling first.now → HasSpelling second.now → IfOk result (λ lsn. lsn ≡ suc (suc (length R))) }
        ensures true_number { (R : List Record) → IsTrue D.meaning R self.old → IsLawful self.old.shape (second.now ∷ first.now ∷ R) → IfOk result (λ lsn. lsn ≡ suc (suc (length R))) }
        ensures refused { (R : List Record) → HasList D.meaning R self.old → OnErr result (HasList D.meaning R self.new) }
        ensures added_true { (R : List Record) → IsTrue D.meaning R self.old → IsLawful self.old.shape (second.now ∷ first.now ∷ R)
            → OnOk result (IsTrue D.meaning (second.now ∷ first.now ∷ R) self.new) }
        ensures refused_true { (R : List Record) → IsTrue D.meaning R self.old → OnErr result (IsTrue D.meaning R self.new) }
        ensures sound { (R : List Record) → IsTrue D.meaning R self.old → IsLawful self.old.shape (second.now ∷ first.now ∷ R) → is_whole (first.now ∷ R) ≡ false
            → self.old.fault ≡ None → IfErr result IsSoundFault }
        ensures survives { (since : ℕ) (needed : ℕ → ℕ) (R : List Record) → IsTrue D.meaning R self.old → Survives D.meaning since needed R self.old → OnOk result (Survives D.meaning since needed (second.now ∷ first.now ∷ R) self.new) }
        ensures survives_refused { (since : ℕ) (needed : ℕ → ℕ) (R : List Record) → IsTrue D.meaning R self.old → Survives D.meaning since needed R self.old → OnErr result (Survives D.meaning since needed R self.new) }
        ensures stable { (R : List Record) → HasList D.meaning R self.old → self.old.log.stable ≤ self.new.log.stable }
        ensures loan { SameLoan D.meaning self.old self.new }
        ensures cause { HasCause D.meaning self.old self.new result }
        ensures fits { (R : List Record) → IsTrue D.meaning R self.old → OnOk result (AreBothFit self.old.shape R first.now second.now) }
        ensures unfit { (R : List Record) → IsTrue D.meaning R self.old → self.old.fault ≡ None → IfErr result (WhyNotBothTaken self.old.shape R first.now second.now) }
        ensures first { FlushesFirst D.meaning MOST_UNWRITTEN self.old self.new result }
    {
        self.put_both(first, second)
    }

    /// Adds a record that is allowed, and calls for no other: no Table and no Reuse. On a true store `BadPage` never comes.
    pub fn record(&mut self, rec: &Record) -> Result<Lsn, StoreFault>
        ensures adds { (R : List Record) → IsTrue D.meaning R self.old → IsLawful self.old.shape (rec.now ∷ R) → Adds D.meaning R (rec.now ∷ R) self.old self.new result }
        ensures tried { HasTried D.meaning self.old self.new result }
        ensures added { (R : List Record) → IsTrue D.meaning R self.old → IsLawful self.old.shape (rec.now ∷ R) → OnOk result (IsTrue D.meaning (rec.now ∷ R) self.new) }
        ensures number { (R : List Record) → IsTrue D.meaning R self.old → IsLawful self.old.shape (rec.now ∷ R) → IfOk result (λ lsn. lsn ≡ suc (length R)) }
        ensures refused { (R : List Record) → IsTrue D.meaning R self.old → OnErr result (IsTrue D.meaning R self.new) }
        ensures sound { (R : List Record) → IsTrue D.meaning R self.old → IsLawful self.old.shape (rec.now ∷ R) → self.old.fault ≡ None → IfErr result IsSoundFault }
        ensures survives { (since : ℕ) (needed : ℕ → ℕ) (R : List Record) → IsTrue D.meaning R self.old → Survives D.meaning since needed R self.old → OnOk result (Survives D.meaning since needed (rec.now ∷ R) self.new) }
        ensures survives_refused { (since : ℕ) (needed : ℕ → ℕ) (R : List Record) → IsTrue D.meaning R self.old → Survives D.meaning since needed R self.old → OnErr result (Survives D.meaning since needed R self.new) }
        ensures stable { (R : List Record) → HasList D.meaning R self.old → self.old.log.stable ≤ self.new.log.stable }
        ensures loan { SameLoan D.meaning self.old self.new }
        ensures cause { HasCause D.meaning self.old self.new result }
        ensures first { FlushesFirst D.meaning MOST_UNWRITTEN self.old self.new result }
    {
        self.take(rec)
    }

    /// Adds a Table with its first Extend, or a Reuse with the record that calls for it, in one group, or neither. Both are
    /// allowed. On a true store `BadPage` never comes. Answers the number of the second.
    pub fn record_two(&mut self, first: &Record, second: &Record) -> Result<Lsn, StoreFault>
        ensures adds { (R : List Record) → IsTrue D.meaning R self.old → IsLawful self.old.shape (second.now ∷ first.now ∷ R) → is_whole (first.now ∷ R) ≡ false → Adds D.meaning R (second.now ∷ first.now ∷ R) self.old self.new result }
        ensures tried { HasTried D.meaning self.old self.new result }
        ensures added { (R : List Record) → IsTrue D.meaning R self.old → IsLawful self.old.shape (second.now ∷ first.now ∷ R)
            → OnOk result (IsTrue D.meaning (second.now ∷ first.now ∷ R) self.new) }
        ensures number { (R : List Record) → IsTrue D.meaning R self.old → IsLawful self.old.shape (second.now ∷ first.now ∷ R) → IfOk result (λ lsn. lsn ≡ suc (suc (length R))) }
        ensures refused { (R : List Record) → IsTrue D.meaning R self.old → OnErr result (IsTrue D.meaning R self.new) }
        ensures sound { (R : List Record) → IsTrue D.meaning R self.old → IsLawful self.old.shape (second.now ∷ first.now ∷ R) → is_whole (first.now ∷ R) ≡ false
            → self.old.fault ≡ None → IfErr result IsSoundFault }
        ensures survives { (since : ℕ) (needed : ℕ → ℕ) (R : List Record) → IsTrue D.meaning R self.old → Survives D.meaning since needed R self.old → OnOk result (Survives D.meaning since needed (second.now ∷ first.now ∷ R) self.new) }
        ensures survives_refused { (since : ℕ) (needed : ℕ → ℕ) (R : List Record) → IsTrue D.meaning R self.old → Survives D.meaning since needed R self.old → OnErr result (Survives D.meaning since needed R self.new) }
        ensures stable { (R : List Record) → HasList D.meaning R self.old → self.old.log.stable ≤ self.new.log.stable }
        ensures loan { SameLoan D.meaning self.old self.new }
        ensures cause { HasCause D.meaning self.old self.new result }
        ensures first { FlushesFirst D.meaning MOST_UNWRITTEN self.old self.new result }
    {
        self.take_two(first, second)
    }
}
