// Adding records, of which only the answer whether they were added counts.
ghost use Rattle.std.specs.Prelude.{◌≡◌, ◌∷◌, false, List};
ghost use Rattle.redo_model.specs.Records.{Record};
ghost use Rattle.redo_model.specs.Model.{IsLawful, is_whole};
ghost use Rattle.store_core.specs.Adding.{Adds, HasTried};
ghost use Rattle.store_core.specs.Store.{IsTrue};

use disk_model::Disk;
use redo_record::Record;
use store_core::{Store, StoreFault};

pub fn add<D: Disk>(store: &mut Store<D>, rec: &Record) -> Result<(), StoreFault>
    ensures adds { (R : List Record) → IsTrue D.meaning R store.old → IsLawful store.old.shape (rec.now ∷ R) → Adds D.meaning R (rec.now ∷ R) store.old store.new result }
    ensures tried { HasTried D.meaning store.old store.new result }
{
    match store.record(rec) {
        Ok(_) => Ok(()),
        Err(fault) => Err(fault),
    }
}

pub fn add_two<D: Disk>(
    store: &mut Store<D>,
    first: &Record,
    second: &Record,
) -> Result<(), StoreFault>
    ensures adds { (R : List Record) → IsTrue D.meaning R store.old → IsLawful store.old.shape (second.now ∷ first.now ∷ R) → is_whole (first.now ∷ R) ≡ false → Adds D.meaning R (second.now ∷ first.now ∷ R) store.old store.new result }
    ensures tried { HasTried D.meaning store.old store.new result }
{
    match store.record_two(first, second) {
        Ok(_) => Ok(()),
        Err(fault) => Err(fault),
    }
}
