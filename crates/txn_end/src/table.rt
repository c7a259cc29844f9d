// The table of an extent.
ghost use Rattle.std.specs.Prelude.{◌≡◌, ℕ, ◌≤◌, ◌+◌, true, None, List, IfOk, IfErr, IfSome};
ghost use Rattle.seg_words.specs.Types.{is_shape, OWN_BLOCKS};
ghost use Rattle.redo_model.specs.Records.{Record};
ghost use Rattle.redo_model.specs.Model.{IsTable};
ghost use Rattle.redo_laws.specs.Apart.{HasExtent};
ghost use Rattle.end_laws.specs.Types.{extent_number};
ghost use Rattle.store_core.specs.Causes.{HasLooked, IsSoundFault};
ghost use Rattle.store_core.specs.Store.{IsTrue};
ghost use Rattle.txn_end.specs.Owning.{Owns, Tells};
ghost use Rattle.txn_end.specs.Reading.{header_in, has_number, number_is, extent_in};
ghost use Rattle.segment_blocks.specs.Types.{extent_at};

use disk_model::Disk;
use page_set::Page;
use seg_base::{CATALOGUE_BLOCK, Dba, MOST_TABLES, NoMemory, OWN_BLOCKS, Obj, Shape};
use segment_blocks::SegmentHeader;
use std::alloc::Global;
use store_core::{Question, Store, StoreFault, ask};

const CATALOGUE: Dba = Dba(CATALOGUE_BLOCK);

/// The extent in which a block stands, by its number; none for one of the store's own blocks and of the undo blocks.
pub fn extent_number(shape: &Shape, dba: Dba) -> Option<u32>
    ensures { is_shape shape.now ≡ true → OWN_BLOCKS + shape.now.undo ≤ dba → Tells (extent_number shape.now dba) result }
{
    if !shape.is_within_limits() || dba.0 < OWN_BLOCKS + shape.undo {
        return None;
    }
    Some((dba.0 - (OWN_BLOCKS + shape.undo)) / shape.extent)
}

fn header_in(page: &Page, obj: Obj) -> Option<Option<Dba>>
    ensures { result ≡ header_in page.now obj }
{
    match page {
        Page::Zero(_) => Some(None),
        Page::Catalogue(tables) => Some(tables.header(obj)),
        _ => None,
    }
}

/// Asks the catalogue for the block of a table's header.
#[derive(Clone, Copy, Debug, Drop)]
struct HeaderOf {
    obj: Obj,
}

impl Question for HeaderOf {
    ghost use Rattle.txn_end.specs.Reading.{header_in};

    type Answer = Option<Dba>;

    ghost reads = { λ q page. header_in page q.obj };

    fn read(&self, alloc: Global, page: &Page) -> Result<Option<Option<Dba>>, NoMemory> {
        let _ = alloc;
        Ok(header_in(page, self.obj))
    }
}

fn is_at(header: &SegmentHeader, index: u16, extent: u32) -> bool
    ensures { result ≡ number_is (extent_at header.now.extents index) extent }
{
    match header.extent_at(index) {
        Some(number) => number == extent,
        None => false,
    }
}

fn has_number(header: &SegmentHeader, extent: u32) -> bool
    ensures { result ≡ has_number header.now.extents extent }
{
    for index in 0..header.extents() {
        if is_at(header, index, extent) {
            return true;
        }
    }
    false
}

fn extent_in(page: &Page, extent: u32) -> Option<bool>
    ensures { result ≡ extent_in page.now extent }
{
    match page {
        Page::Header(header) => Some(has_number(header, extent)),
        _ => None,
    }
}

/// Asks a table's header whether the table has an extent.
#[derive(Clone, Copy, Debug, Drop)]
struct ExtentIn {
    extent: u32,
}

impl Question for ExtentIn {
    ghost use Rattle.txn_end.specs.Reading.{extent_in};

    type Answer = bool;

    ghost reads = { λ q page. extent_in page q.extent };

    fn read(&self, alloc: Global, page: &Page) -> Result<Option<bool>, NoMemory> {
        let _ = alloc;
        Ok(extent_in(page, self.extent))
    }
}

/// Whether a table is there and has an extent.
fn owns<D: Disk>(
    alloc: Global,
    store: &mut Store<D>,
    obj: Obj,
    extent: u32,
) -> Result<bool, StoreFault>
    ensures looked { HasLooked D.meaning store.old store.new result }
    ensures says { (R : List Record) → IsTrue D.meaning R store.old → IfOk result (Owns R obj extent) }
    ensures sound { (R : List Record) → IsTrue D.meaning R store.old → store.old.fault ≡ None → IfErr result IsSoundFault }
{
    match ask(alloc, store, CATALOGUE, &HeaderOf { obj }) {
        Err(fault) => Err(fault),
        Ok(None) => Ok(false),
        Ok(Some(header)) => ask(alloc, store, header, &ExtentIn { extent }),
    }
}

/// The table that has an extent.
pub fn table_of<D: Disk>(
    alloc: Global,
    store: &mut Store<D>,
    extent: u32,
) -> Result<Obj, StoreFault>
    requires unspent { store.old.fault ≡ None }
    ensures looked { HasLooked D.meaning store.old store.new result }
    ensures says { (R : List Record) (o : ℕ) → IsTrue D.meaning R store.old → IsTable R o → HasExtent R o extent → IfOk result (λ p. p ≡ o) }
    ensures sound { (R : List Record) (o : ℕ) → IsTrue D.meaning R store.old → IsTable R o → HasExtent R o extent → IfErr result IsSoundFault }
{
    for number in 1..MOST_TABLES as u8 + 1 {
        match owns(alloc, store, Obj(number), extent) {
            Err(fault) => return Err(fault),
            Ok(true) => return Ok(Obj(number)),
            Ok(false) => {}
        }
    }
    Err(store.refuse(CATALOGUE))
}
