// One record added, of which only the answer whether it was added counts.
ghost use Rattle.std.specs.Prelude.{◌≡◌, ◌∷◌, List, OnOk};
ghost use Rattle.redo_model.specs.Records.{HasSpelling, Record};
ghost use Rattle.redo_model.specs.Model.{IsLawful};
ghost use Rattle.store_core.specs.Adding.{Adds, HasTried};
ghost use Rattle.store_core.specs.Store.{HasList, IsTrue};

use disk_model::Disk;
use redo_record::Record;
use store_core::{Store, StoreFault};

/// Adds a record that is allowed, and calls for no other.
pub fn add<D: Disk>(store: &mut Store<D>, rec: &Record) -> Result<(), StoreFault>
    ensures adds { (R : List Record) → IsTrue D.meaning R store.old → IsLawful store.old.shape (rec.now ∷ R) → Adds D.meaning R (rec.now ∷ R) store.old store.new result }
    ensures list { (R : List Record) → HasList D.meaning R store.old → HasSpelling rec.now → OnOk result (HasList D.meaning (rec.now ∷ R) store.new) }
    ensures tried { HasTried D.meaning store.old store.new result }
{
    match store.take(rec) {
        Ok(_) => Ok(()),
        Err(fault) => Err(fault),
    }
}
