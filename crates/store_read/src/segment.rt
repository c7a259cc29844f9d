// What a store says of a table's segment.
ghost use Rattle.std.specs.Prelude.{ℕ, ◌≡◌, ◌≤◌, ◌<◌, true, None, List, length, IfOk, IfErr, IsOk, Err};
ghost use Rattle.seg_words.specs.Types.{MOST_EXTENTS, MOST_PCTFREE, is_shape};
ghost use Rattle.redo_model.specs.Records.{Record};
ghost use Rattle.redo_model.specs.Model.{IsTable, extents_of, header_of, table_count};
ghost use Rattle.mark_laws.specs.Movements.{least_free};
ghost use Rattle.store_core.specs.Causes.{HasLooked, IsSoundFault};
ghost use Rattle.store_core.specs.Store.{IsFetched, IsTrue};
ghost use Rattle.segment_read.specs.Segments.{IsSegment};

use disk_model::Disk;
use seg_base::{CATALOGUE_BLOCK, Dba, Obj, SPACE_BLOCK, Shape};
use segment_read::{Segment, WrongPage, header_in, least_free_in, segment_in, tables_in};
use store_core::{Store, StoreFault};

const CATALOGUE: Dba = Dba(CATALOGUE_BLOCK);

const SPACE: Dba = Dba(SPACE_BLOCK);

fn told_header<D: Disk>(store: &Store<D>, obj: Obj) -> Result<Dba, WrongPage>
    requires { IsFetched 2 store.now }
    ensures says { (R : List Record) → IsTrue D.meaning R store.now → IsTable R obj → IfOk result (λ d. d ≡ header_of store.now.shape (extents_of R obj)) }
    ensures right { (R : List Record) → IsTrue D.meaning R store.now → IsTable R obj → IsOk result }
{
    header_in(store.frame(CATALOGUE), obj)
}

fn told_segment<D: Disk>(store: &Store<D>, header: Dba) -> Result<Segment, WrongPage>
    requires { IsFetched header store.now }
    ensures says { (R : List Record) (o : ℕ) → IsTrue D.meaning R store.now → IsTable R o → header ≡ header_of store.now.shape (extents_of R o) → IfOk result (IsSegment store.now.shape R o) }
    ensures right { (R : List Record) (o : ℕ) → IsTrue D.meaning R store.now → IsTable R o → header ≡ header_of store.now.shape (extents_of R o) → IsOk result }
    ensures most { IfOk result (λ s. s.extents ≤ MOST_EXTENTS) }
    ensures percent { IfOk result (λ s. s.pctfree ≤ MOST_PCTFREE) }
{
    segment_in(store.frame(header), header)
}

fn told_tables<D: Disk>(store: &Store<D>) -> Result<u8, WrongPage>
    requires { IsFetched 2 store.now }
    ensures says { (R : List Record) → IsTrue D.meaning R store.now → IfOk result (λ n. n ≡ table_count R) }
    ensures right { (R : List Record) → IsTrue D.meaning R store.now → IsOk result }
{
    tables_in(store.frame(CATALOGUE))
}

fn told_free<D: Disk>(store: &Store<D>, shape: &Shape) -> Result<Option<u32>, WrongPage>
    requires shape { is_shape shape.now ≡ true }
    requires fetched { IsFetched 3 store.now }
    ensures says { (R : List Record) → IsTrue D.meaning R store.now → shape.now ≡ store.now.shape → IfOk result (λ x. x ≡ least_free store.now.shape R) }
    ensures right { (R : List Record) → IsTrue D.meaning R store.now → shape.now ≡ store.now.shape → IsOk result }
{
    least_free_in(store.frame(SPACE), shape)
}

fn find_header<D: Disk>(store: &mut Store<D>, obj: Obj) -> Result<Dba, StoreFault>
    ensures looked { HasLooked D.meaning store.old store.new result }
    ensures says { (R : List Record) → IsTrue D.meaning R store.old → IsTable R obj → IfOk result (λ d. d ≡ header_of store.old.shape (extents_of R obj)) }
    ensures sound { (R : List Record) → IsTrue D.meaning R store.old → IsTable R obj → store.old.fault ≡ None → IfErr result IsSoundFault }
{
    match store.fetch(CATALOGUE) {
        Ok(()) => {}
        Err(fault) => return Err(fault),
    }
    match told_header(store, obj) {
        Ok(header) => Ok(header),
        Err(_) => Err(store.refuse(CATALOGUE)),
    }
}

fn segment_at<D: Disk>(store: &mut Store<D>, header: Dba) -> Result<Segment, StoreFault>
    ensures looked { HasLooked D.meaning store.old store.new result }
    ensures says { (R : List Record) (o : ℕ) → IsTrue D.meaning R store.old → IsTable R o → header ≡ header_of store.old.shape (extents_of R o) → IfOk result (IsSegment store.old.shape R o) }
    ensures sound { (R : List Record) (o : ℕ) → IsTrue D.meaning R store.old → IsTable R o → header ≡ header_of store.old.shape (extents_of R o) → store.old.fault ≡ None → IfErr result IsSoundFault }
    ensures most { IfOk result (λ s. s.extents ≤ MOST_EXTENTS) }
    ensures percent { IfOk result (λ s. s.pctfree ≤ MOST_PCTFREE) }
{
    match store.fetch(header) {
        Ok(()) => {}
        Err(fault) => return Err(fault),
    }
    match told_segment(store, header) {
        Ok(segment) => Ok(segment),
        Err(_) => Err(store.refuse(header)),
    }
}

/// The segment of a table that is there.
pub fn read_segment<D: Disk>(store: &mut Store<D>, obj: Obj) -> Result<Segment, StoreFault>
    ensures looked { HasLooked D.meaning store.old store.new result }
    ensures says { (R : List Record) → IsTrue D.meaning R store.old → IsTable R obj → IfOk result (IsSegment store.old.shape R obj) }
    ensures sound { (R : List Record) → IsTrue D.meaning R store.old → IsTable R obj → store.old.fault ≡ None → IfErr result IsSoundFault }
    ensures most { IfOk result (λ s. s.extents ≤ MOST_EXTENTS) }
    ensures percent { IfOk result (λ s. s.pctfree ≤ MOST_PCTFREE) }
{
    match find_header(store, obj) {
        Ok(header) => segment_at(store, header),
        Err(fault) => Err(fault),
    }
}

/// How many tables there are.
pub fn count_tables<D: Disk>(store: &mut Store<D>) -> Result<u8, StoreFault>
    ensures looked { HasLooked D.meaning store.old store.new result }
    ensures says { (R : List Record) → IsTrue D.meaning R store.old → IfOk result (λ n. n ≡ table_count R) }
    ensures sound { (R : List Record) → IsTrue D.meaning R store.old → store.old.fault ≡ None → IfErr result IsSoundFault }
{
    match store.fetch(CATALOGUE) {
        Ok(()) => {}
        Err(fault) => return Err(fault),
    }
    match told_tables(store) {
        Ok(count) => Ok(count),
        Err(_) => Err(store.refuse(CATALOGUE)),
    }
}

/// The least extent that no table has. None exactly where each whole extent has a table.
pub fn find_free<D: Disk>(store: &mut Store<D>) -> Result<Option<u32>, StoreFault>
    ensures looked { HasLooked D.meaning store.old store.new result }
    ensures says { (R : List Record) → IsTrue D.meaning R store.old → IfOk result (λ x. x ≡ least_free store.old.shape R) }
    ensures sound { (R : List Record) → IsTrue D.meaning R store.old → store.old.fault ≡ None → IfErr result IsSoundFault }
{
    let shape = store.shape();
    if !shape.is_within_limits() {
        return Err(store.refuse(SPACE));
    }
    match store.fetch(SPACE) {
        Ok(()) => {}
        Err(fault) => return Err(fault),
    }
    match told_free(store, &shape) {
        Ok(extent) => Ok(extent),
        Err(_) => Err(store.refuse(SPACE)),
    }
}
