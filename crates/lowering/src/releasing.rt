// A table lowered.
ghost use Rattle.std.specs.Prelude.{ℕ, ◌≡◌, ◌≤◌, ◌∷◌, true, None, List, IfOk};
ghost use Rattle.seg_words.specs.Types.{MOST_EXTENTS, is_shape};
ghost use Rattle.redo_model.specs.Records.{Lower as LowerOf, Record};
ghost use Rattle.redo_model.specs.Model.{IsLawful, IsTable};
ghost use Rattle.store_core.specs.Adding.{Adds, HasTried};
ghost use Rattle.store_core.specs.Store.{IsTrue};
ghost use Rattle.lower_laws.specs.Drafts.{kept_extents as kept_of, lower_to, with_lower};
ghost use Rattle.lowering.specs.Answered.{answer_of, lowered, none_released};
ghost use Rattle.lowering.specs.Known.{Knows};

use crate::draft::draft_lower;
use crate::ground::{Ground, read_ground};
use crate::kept::kept_extents;
use disk_model::Disk;
use redo_record::{Extents, LowerRecord, Record};
use seg_base::{NoMemory, Obj};
use std::alloc::Global;
use store_core::{Lowered, Store, StoreFault};

fn none_released(alloc: Global, high: u32) -> Lowered
    ensures { result ≡ none_released high }
{
    Lowered {
        released: Extents::new(alloc),
        number: 0,
        high,
    }
}

fn copy_of(alloc: Global, extents: &Extents) -> Result<Extents, NoMemory>
    ensures { IfOk result (λ x. x ≡ extents.now) }
{
    let copy = Vec::from_slice(alloc, extents.as_slice())?;
    Ok(Extents::from_vec(copy))
}

/// What a Lower releases.
fn answer_of(alloc: Global, rec: &LowerRecord) -> Result<Lowered, NoMemory>
    ensures { IfOk result (λ x. x ≡ answer_of rec.now) }
{
    Ok(Lowered {
        released: copy_of(alloc, &rec.released)?,
        number: rec.lowering,
        high: rec.high,
    })
}

/// Adds the record, with this answer.
fn add_lower<D: Disk>(
    store: &mut Store<D>,
    rec: LowerRecord,
    answer: Lowered,
) -> Result<Lowered, StoreFault>
    ensures adds { (R : List Record) → IsTrue D.meaning R store.old → IsLawful store.old.shape (LowerOf rec ∷ R) → Adds D.meaning R (LowerOf rec ∷ R) store.old store.new result }
    ensures tried { HasTried D.meaning store.old store.new result }
    ensures answers { IfOk result (λ x. x ≡ answer) }
{
    match store.record(&Record::Lower(rec)) {
        Ok(_) => Ok(answer),
        Err(fault) => Err(fault),
    }
}

/// Releases the extents past those that are kept: there are some.
fn release<D: Disk>(
    alloc: Global,
    store: &mut Store<D>,
    ground: &Ground,
    kept: u16,
) -> Result<Lowered, StoreFault>
    requires shape { is_shape ground.now.shape ≡ true }
    requires few { kept ≤ MOST_EXTENTS }
    requires unspent { store.old.fault ≡ None }
    ensures adds { (R : List Record) (o : ℕ) → Knows D.meaning R o store.old ground.now → kept ≤ ground.now.segment.extents → IsLawful store.old.shape (LowerOf (lower_to store.old.shape R o kept) ∷ R) → Adds D.meaning R (LowerOf (lower_to store.old.shape R o kept) ∷ R) store.old store.new result }
    ensures answers { (R : List Record) (o : ℕ) → Knows D.meaning R o store.old ground.now → kept ≤ ground.now.segment.extents → IfOk result (λ x. x ≡ answer_of (lower_to store.old.shape R o kept)) }
    ensures tried { HasTried D.meaning store.old store.new result }
{
    let rec = match draft_lower(alloc, store, ground, kept) {
        Ok(rec) => rec,
        Err(fault) => return Err(fault),
    };
    match answer_of(alloc, &rec) {
        Ok(answer) => add_lower(store, rec, answer),
        Err(_) => Err(StoreFault::NoMemory),
    }
}

/// Lowers the table to the extents that it keeps.
fn lower_to_kept<D: Disk>(
    alloc: Global,
    store: &mut Store<D>,
    ground: &Ground,
    kept: u16,
) -> Result<Lowered, StoreFault>
    requires shape { is_shape ground.now.shape ≡ true }
    requires few { ground.now.segment.extents ≤ MOST_EXTENTS }
    requires unspent { store.old.fault ≡ None }
    ensures adds { (R : List Record) (o : ℕ) → Knows D.meaning R o store.old ground.now → kept ≡ kept_of store.old.shape R o → Adds D.meaning R (with_lower store.old.shape R o) store.old store.new result }
    ensures answers { (R : List Record) (o : ℕ) → Knows D.meaning R o store.old ground.now → kept ≡ kept_of store.old.shape R o → IfOk result (λ x. x ≡ lowered store.old.shape R o) }
    ensures tried { HasTried D.meaning store.old store.new result }
{
    if kept >= ground.segment.extents {
        return Ok(none_released(alloc, ground.segment.high));
    }
    release(alloc, store, ground, kept)
}

/// By what is known of the table.
fn lower_by<D: Disk>(
    alloc: Global,
    store: &mut Store<D>,
    ground: &Ground,
) -> Result<Lowered, StoreFault>
    requires shape { is_shape ground.now.shape ≡ true }
    requires few { ground.now.segment.extents ≤ MOST_EXTENTS }
    requires unspent { store.old.fault ≡ None }
    ensures adds { (R : List Record) (o : ℕ) → Knows D.meaning R o store.old ground.now → Adds D.meaning R (with_lower store.old.shape R o) store.old store.new result }
    ensures answers { (R : List Record) (o : ℕ) → Knows D.meaning R o store.old ground.now → IfOk result (λ x. x ≡ lowered store.old.shape R o) }
    ensures tried { HasTried D.meaning store.old store.new result }
{
    match kept_extents(alloc, store, ground) {
        Ok(kept) => lower_to_kept(alloc, store, ground, kept),
        Err(fault) => Err(fault),
    }
}

/// Releases the longest suffix of vacant extents of a table after the first, and lowers its marks to what is kept, by one record.
/// Where that suffix is empty nothing is added, and the lowering's number is 0. The table is there.
pub fn lower<D: Disk>(alloc: Global, store: &mut Store<D>, obj: Obj) -> Result<Lowered, StoreFault>
    ensures adds { (R : List Record) → IsTrue D.meaning R store.old → IsTable R obj → Adds D.meaning R (with_lower store.old.shape R obj) store.old store.new result }
    ensures answers { (R : List Record) → IsTrue D.meaning R store.old → IsTable R obj → IfOk result (λ x. x ≡ lowered store.old.shape R obj) }
    ensures tried { HasTried D.meaning store.old store.new result }
{
    match read_ground(alloc, store, obj) {
        Ok(ground) => lower_by(alloc, store, &ground),
        Err(fault) => Err(fault),
    }
}
