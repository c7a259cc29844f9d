// Which extents a table has, and what the bitmaps say of their blocks.
ghost use Rattle.std.specs.Prelude.{ℕ, ◌≡◌, ◌<◌, ◌+◌, true, None, List, length, Some, IfOk, IfErr, IsOk};
ghost use Rattle.seg_words.specs.Types.{MOST_EXTENT_BLOCKS, first_block};
ghost use Rattle.redo_model.specs.Records.{Record};
ghost use Rattle.redo_model.specs.Model.{Extent, IsTable, code_of, extent_at, extent_data, extents_of, header_of};
ghost use Rattle.redo_laws.specs.Among.{is_in};
ghost use Rattle.store_core.specs.Causes.{HasLooked, IsSoundFault};
ghost use Rattle.store_core.specs.Store.{IsFetched, IsTrue};
ghost use Rattle.segment_read.specs.Segments.{IsSegment, number_at};

use disk_model::Disk;
use seg_base::Dba;
use segment_read::{Segment, WrongPage, code_of_block, extent_in};
use store_core::{Store, StoreFault};

fn told_extent<D: Disk>(store: &Store<D>, header: Dba, index: u16) -> Result<u32, WrongPage>
    requires { IsFetched header store.now }
    ensures says { (R : List Record) (o : ℕ) → IsTrue D.meaning R store.now → IsTable R o → header ≡ header_of store.now.shape (extents_of R o) → IfOk result (λ x. number_at (extents_of R o) index ≡ Some x) }
    ensures right { (R : List Record) (o : ℕ) → IsTrue D.meaning R store.now → IsTable R o → header ≡ header_of store.now.shape (extents_of R o) → index < length (extents_of R o) → IsOk result }
{
    extent_in(store.frame(header), index)
}

fn told_code<D: Disk>(store: &Store<D>, first: Dba, nth: u16) -> Result<u8, WrongPage>
    requires { IsFetched first store.now }
    ensures says { (R : List Record) (o index : ℕ) (e : Extent) → IsTrue D.meaning R store.now → extent_at (extents_of R o) index ≡ Some e → first ≡ first_block store.now.shape e.number → is_in (first + nth) (extent_data store.now.shape index e.number) ≡ true → IfOk result (λ c. c ≡ code_of store.now.shape R (first + nth)) }
    ensures right { (R : List Record) (o index : ℕ) (e : Extent) → IsTrue D.meaning R store.now → extent_at (extents_of R o) index ≡ Some e → first ≡ first_block store.now.shape e.number → nth < MOST_EXTENT_BLOCKS → IsOk result }
{
    code_of_block(store.frame(first), nth)
}

/// The number of the extent at an index of a table's segment.
pub fn extent_number<D: Disk>(
    store: &mut Store<D>,
    segment: &Segment,
    index: u16,
) -> Result<u32, StoreFault>
    ensures looked { HasLooked D.meaning store.old store.new result }
    ensures says { (R : List Record) (o : ℕ) → IsTrue D.meaning R store.old → IsTable R o → IsSegment store.old.shape R o segment.now → IfOk result (λ x. number_at (extents_of R o) index ≡ Some x) }
    ensures sound { (R : List Record) (o : ℕ) → IsTrue D.meaning R store.old → IsTable R o → IsSegment store.old.shape R o segment.now → index < length (extents_of R o) → store.old.fault ≡ None → IfErr result IsSoundFault }
{
    match store.fetch(segment.header) {
        Ok(()) => {}
        Err(fault) => return Err(fault),
    }
    match told_extent(store, segment.header, index) {
        Ok(extent) => Ok(extent),
        Err(_) => Err(store.refuse(segment.header)),
    }
}

/// The code of the nth block of an extent that begins at this block: 1 to 5 for the kept class of a formatted data block, else
/// 0.
pub fn code_at<D: Disk>(store: &mut Store<D>, first: Dba, nth: u16) -> Result<u8, StoreFault>
    ensures looked { HasLooked D.meaning store.old store.new result }
    ensures says { (R : List Record) (o index : ℕ) (e : Extent) → IsTrue D.meaning R store.old → extent_at (extents_of R o) index ≡ Some e → first ≡ first_block store.old.shape e.number → is_in (first + nth) (extent_data store.old.shape index e.number) ≡ true → IfOk result (λ c. c ≡ code_of store.old.shape R (first + nth)) }
    ensures sound { (R : List Record) (o index : ℕ) (e : Extent) → IsTrue D.meaning R store.old → IsTable R o → extent_at (extents_of R o) index ≡ Some e → first ≡ first_block store.old.shape e.number → nth < MOST_EXTENT_BLOCKS → store.old.fault ≡ None → IfErr result IsSoundFault }
{
    match store.fetch(first) {
        Ok(()) => {}
        Err(fault) => return Err(fault),
    }
    match told_code(store, first, nth) {
        Ok(code) => Ok(code),
        Err(_) => Err(store.refuse(first)),
    }
}
