// The record of each movement of the marks, drafted from the pages of a store.
ghost use Rattle.std.specs.Prelude.{ℕ, ◌≡◌, ◌≤◌, ◌<◌, true, None, List, length, Some, IfOk, IfErr, IsOk};
ghost use Rattle.seg_words.specs.Types.{is_extent, is_shape, MOST_EXTENTS};
ghost use Rattle.redo_model.specs.Records.{Extend as ExtendOf, FormatBlock as FormatOf, Record};
ghost use Rattle.redo_model.specs.Model.{IsTable, extents_of, index_of};
ghost use Rattle.mark_laws.specs.Drafts.{drafted_extend, drafted_format, mark_record};
ghost use Rattle.mark_laws.specs.Movements.{next_mark};
ghost use Rattle.store_core.specs.Causes.{HasLooked, IsSoundFault};
ghost use Rattle.store_core.specs.Store.{IsFetched, IsTrue};
ghost use Rattle.segment_read.specs.Segments.{IsSegment};

use crate::{draft_advance, draft_extend, draft_format};
use disk_model::Disk;
use mark_laws::MarkStep;
use redo_record::{ExtendRecord, FormatBlockRecord, Record};
use seg_base::{Dba, Obj, SPACE_BLOCK, Shape};
use segment_read::{Segment, WrongPage};
use store_core::{Store, StoreFault};
use store_read::read_segment;

fn told_format<D: Disk>(
    store: &Store<D>,
    segment: &Segment,
    shape: &Shape,
    dba: Dba,
) -> Result<FormatBlockRecord, WrongPage>
    requires shape { is_shape shape.now ≡ true }
    requires fetched { IsFetched segment.now.header store.now }
    ensures says { (R : List Record) (o : ℕ) → IsTrue D.meaning R store.now → IsTable R o → shape.now ≡ store.now.shape → IsSegment shape.now R o segment.now → IfOk result (λ f. f ≡ drafted_format shape.now R o dba) }
    ensures right { (R : List Record) (o : ℕ) → IsTrue D.meaning R store.now → IsTable R o → shape.now ≡ store.now.shape → IsSegment shape.now R o segment.now → index_of shape.now (extents_of R o) dba < length (extents_of R o) → IsOk result }
{
    draft_format(segment, store.frame(segment.header), shape, dba)
}

fn told_extend<D: Disk>(
    store: &Store<D>,
    segment: &Segment,
    shape: &Shape,
    extent: u32,
) -> Result<ExtendRecord, WrongPage>
    requires shape { is_shape shape.now ≡ true }
    requires fetched { IsFetched segment.now.header store.now }
    ensures says { (R : List Record) (o : ℕ) → IsTrue D.meaning R store.now → IsTable R o → shape.now ≡ store.now.shape → IsSegment shape.now R o segment.now → IfOk result (λ e. e ≡ drafted_extend shape.now R o extent) }
    ensures right { (R : List Record) (o : ℕ) → IsTrue D.meaning R store.now → IsTable R o → shape.now ≡ store.now.shape → IsSegment shape.now R o segment.now → is_extent shape.now extent ≡ true → IsOk result }
{
    draft_extend(segment, store.frame(segment.header), shape, extent)
}

fn format_record<D: Disk>(
    store: &mut Store<D>,
    segment: &Segment,
    shape: &Shape,
    dba: Dba,
) -> Result<Record, StoreFault>
    requires { is_shape shape.now ≡ true }
    ensures looked { HasLooked D.meaning store.old store.new result }
    ensures says { (R : List Record) (o : ℕ) → IsTrue D.meaning R store.old → IsTable R o → shape.now ≡ store.old.shape → IsSegment shape.now R o segment.now → IfOk result (λ r. r ≡ FormatOf (drafted_format shape.now R o dba)) }
    ensures sound { (R : List Record) (o : ℕ) → IsTrue D.meaning R store.old → IsTable R o → shape.now ≡ store.old.shape → IsSegment shape.now R o segment.now → index_of shape.now (extents_of R o) dba < length (extents_of R o) → store.old.fault ≡ None → IfErr result IsSoundFault }
{
    match store.fetch(segment.header) {
        Ok(()) => {}
        Err(fault) => return Err(fault),
    }
    match told_format(store, segment, shape, dba) {
        Ok(rec) => Ok(Record::FormatBlock(rec)),
        Err(_) => Err(store.refuse(segment.header)),
    }
}

fn extend_record<D: Disk>(
    store: &mut Store<D>,
    segment: &Segment,
    shape: &Shape,
    extent: u32,
) -> Result<Record, StoreFault>
    requires { is_shape shape.now ≡ true }
    ensures looked { HasLooked D.meaning store.old store.new result }
    ensures says { (R : List Record) (o : ℕ) → IsTrue D.meaning R store.old → IsTable R o → shape.now ≡ store.old.shape → IsSegment shape.now R o segment.now → IfOk result (λ r. r ≡ ExtendOf (drafted_extend shape.now R o extent)) }
    ensures sound { (R : List Record) (o : ℕ) → IsTrue D.meaning R store.old → IsTable R o → shape.now ≡ store.old.shape → IsSegment shape.now R o segment.now → is_extent shape.now extent ≡ true → store.old.fault ≡ None → IfErr result IsSoundFault }
{
    match store.fetch(segment.header) {
        Ok(()) => {}
        Err(fault) => return Err(fault),
    }
    match told_extend(store, segment, shape, extent) {
        Ok(rec) => Ok(Record::Extend(rec)),
        Err(_) => Err(store.refuse(segment.header)),
    }
}

/// The record of this movement, by the segment's header.
fn record_of<D: Disk>(
    store: &mut Store<D>,
    segment: &Segment,
    shape: &Shape,
    step: MarkStep,
) -> Result<Record, StoreFault>
    requires shape { is_shape shape.now ≡ true }
    requires few { segment.now.extents ≤ MOST_EXTENTS }
    ensures looked { store.old.fault ≡ None → HasLooked D.meaning store.old store.new result }
    ensures says { (R : List Record) (o : ℕ) → IsTrue D.meaning R store.old → IsTable R o → shape.now ≡ store.old.shape → IsSegment shape.now R o segment.now → IfOk result (λ r. r ≡ mark_record shape.now R o step) }
    ensures sound { (R : List Record) (o : ℕ) → IsTrue D.meaning R store.old → IsTable R o → shape.now ≡ store.old.shape → IsSegment shape.now R o segment.now → next_mark shape.now R o ≡ Some step → store.old.fault ≡ None → IfErr result IsSoundFault }
{
    match step {
        MarkStep::Format(dba) => format_record(store, segment, shape, dba),
        MarkStep::Advance => Ok(Record::Advance(draft_advance(segment, shape))),
        MarkStep::Extend(extent) => extend_record(store, segment, shape, extent),
    }
}

/// The record of a movement of a table's marks.
pub fn mark_record_of<D: Disk>(
    store: &mut Store<D>,
    obj: Obj,
    step: MarkStep,
) -> Result<Record, StoreFault>
    ensures looked { HasLooked D.meaning store.old store.new result }
    ensures says { (R : List Record) → IsTrue D.meaning R store.old → IsTable R obj → IfOk result (λ r. r ≡ mark_record store.old.shape R obj step) }
    ensures sound { (R : List Record) → IsTrue D.meaning R store.old → IsTable R obj → next_mark store.old.shape R obj ≡ Some step → store.old.fault ≡ None → IfErr result IsSoundFault }
{
    let shape = store.shape();
    if !shape.is_within_limits() {
        return Err(store.refuse(Dba(SPACE_BLOCK)));
    }
    match read_segment(store, obj) {
        Ok(segment) => record_of(store, &segment, &shape, step),
        Err(fault) => Err(fault),
    }
}
