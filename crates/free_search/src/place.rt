// Whether one block is what is wanted.
ghost use Rattle.std.specs.Prelude.{ℕ, ◌≡◌, ◌≤◌, ◌<◌, ◌+◌, None, List, [], ◌∷◌, IfOk, IfErr, IsOk};
ghost use Rattle.seg_words.specs.Types.{MOST_BLOCKS, MOST_EXTENT_BLOCKS, MOST_PCTFREE, head_blocks, takes as takes_in};
ghost use Rattle.redo_model.specs.Records.{Record};
ghost use Rattle.redo_model.specs.Model.{Extent, IsRowBlock, pctfree_of, takes_row};
ghost use Rattle.version_laws.specs.Types.{ended_by};
ghost use Rattle.row_block.specs.RowPage.{RowPage};
ghost use Rattle.page_set.specs.declared.page.Page.TheVariants.{Rows};
ghost use Rattle.mark_laws.specs.Searches.{is_left_out};
ghost use Rattle.store_core.specs.Causes.{HasLooked, IsSoundFault};
ghost use Rattle.store_core.specs.Store.{IsFetched, IsTrue};
ghost use Rattle.free_search.specs.Looks.{IsFirstBlock, Knows, found_if, passes, row_sought};
ghost use Rattle.free_search.specs.Codes.{has_code, room_for};

use crate::extent::nth_block;
use crate::look::{Look, Wanted};
use disk_model::Disk;
use page_set::Page;
use seg_base::Dba;
use segment_read::WrongPage;
use store_core::{Store, StoreFault};
use store_read::code_at;
use version_read::EndedIn;

fn is_block(block: &Option<Dba>, dba: Dba) -> bool
    ensures { result ≡ is_left_out (block.now ∷ []) dba }
{
    match block {
        None => false,
        Some(other) => *other == dba,
    }
}

fn is_left_out(but: &[Option<Dba>], dba: Dba) -> bool
    ensures { result ≡ is_left_out but.now dba }
{
    for block in but {
        if is_block(block, dba) {
            return true;
        }
    }
    false
}

/// Whether the row block of a page takes the row.
fn room_in(page: &Page, look: &Look) -> Result<bool, WrongPage>
    requires { look.now.segment.pctfree ≤ MOST_PCTFREE }
    ensures says { (p : RowPage) → page.now ≡ Rows p → IfOk result (λ y. y ≡ takes_in (ended_by look.now.table) look.now.segment.pctfree p.block look.now.row.len look.now.row.taker) }
    ensures right { (p : RowPage) → page.now ≡ Rows p → IsOk result }
{
    let Page::Rows(block) = page else {
        return Err(WrongPage);
    };
    let ended = EndedIn::of(&look.table);
    Ok(block.takes(&ended, look.segment.pctfree, look.row.len, &look.row.taker))
}

fn told_room<D: Disk>(store: &Store<D>, look: &Look, dba: Dba) -> Result<bool, WrongPage>
    requires percent { look.now.segment.pctfree ≤ MOST_PCTFREE }
    requires fetched { IsFetched dba store.now }
    ensures says { (R : List Record) → IsTrue D.meaning R store.now → Knows store.now.shape R look.now → IsRowBlock look.now.shape R look.now.segment.obj dba → IfOk result (λ y. y ≡ takes_row R (pctfree_of R look.now.segment.obj) dba look.now.row.len look.now.row.taker) }
    ensures right { (R : List Record) → IsTrue D.meaning R store.now → Knows store.now.shape R look.now → IsRowBlock look.now.shape R look.now.segment.obj dba → IsOk result }
{
    room_in(store.frame(dba), look)
}

/// Whether a formatted block of the table takes the row.
fn takes<D: Disk>(store: &mut Store<D>, look: &Look, dba: Dba) -> Result<bool, StoreFault>
    requires { look.now.segment.pctfree ≤ MOST_PCTFREE }
    ensures looked { HasLooked D.meaning store.old store.new result }
    ensures says { (R : List Record) → IsTrue D.meaning R store.old → Knows store.old.shape R look.now → IsRowBlock look.now.shape R look.now.segment.obj dba → IfOk result (λ y. y ≡ takes_row R (pctfree_of R look.now.segment.obj) dba look.now.row.len look.now.row.taker) }
    ensures sound { (R : List Record) → IsTrue D.meaning R store.old → Knows store.old.shape R look.now → IsRowBlock look.now.shape R look.now.segment.obj dba → store.old.fault ≡ None → IfErr result IsSoundFault }
{
    match store.fetch(dba) {
        Ok(()) => {}
        Err(fault) => return Err(fault),
    }
    match told_room(store, look, dba) {
        Ok(answer) => Ok(answer),
        Err(_) => Err(store.refuse(dba)),
    }
}

/// A formatted block of the table, where it isn't left out and takes the row.
fn room_at<D: Disk>(store: &mut Store<D>, look: &Look, dba: Dba) -> Result<Option<Dba>, StoreFault>
    requires percent { look.now.segment.pctfree ≤ MOST_PCTFREE }
    requires unspent { store.old.fault ≡ None }
    ensures looked { HasLooked D.meaning store.old store.new result }
    ensures says { (R : List Record) → IsTrue D.meaning R store.old → Knows store.old.shape R look.now → IsRowBlock look.now.shape R look.now.segment.obj dba → IfOk result (λ r. r ≡ found_if (room_for R (row_sought look.now) dba) dba) }
    ensures sound { (R : List Record) → IsTrue D.meaning R store.old → Knows store.old.shape R look.now → IsRowBlock look.now.shape R look.now.segment.obj dba → IfErr result IsSoundFault }
{
    if is_left_out(&look.row.but, dba) {
        return Ok(None);
    }
    match takes(store, look, dba) {
        Ok(true) => Ok(Some(dba)),
        Ok(false) => Ok(None),
        Err(fault) => Err(fault),
    }
}

/// Whether a block with this code may be what is wanted.
pub fn has_code(wanted: &Wanted, code: u8) -> bool
    ensures { result ≡ has_code wanted.now code }
{
    match wanted {
        Wanted::Usable => code >= 1,
        Wanted::Good => code >= 2,
    }
}

/// The nth block of an extent that begins at this block, where it is what is wanted. It is a data block of the table.
pub fn block_at<D: Disk>(
    store: &mut Store<D>,
    look: &Look,
    wanted: &Wanted,
    first: Dba,
    nth: u16,
) -> Result<Option<Dba>, StoreFault>
    requires percent { look.now.segment.pctfree ≤ MOST_PCTFREE }
    requires first { first ≤ MOST_BLOCKS }
    requires nth { nth < MOST_EXTENT_BLOCKS }
    ensures looked { HasLooked D.meaning store.old store.new result }
    ensures says { (R : List Record) (index : ℕ) (e : Extent) → IsTrue D.meaning R store.old → Knows store.old.shape R look.now → IsFirstBlock look.now.shape R look.now.segment.obj index e first → head_blocks index ≤ nth → nth < look.now.shape.extent → IfOk result (λ r. r ≡ found_if (passes look.now.shape R (row_sought look.now) wanted.now (first + nth)) (first + nth)) }
    ensures sound { (R : List Record) (index : ℕ) (e : Extent) → IsTrue D.meaning R store.old → Knows store.old.shape R look.now → IsFirstBlock look.now.shape R look.now.segment.obj index e first → head_blocks index ≤ nth → nth < look.now.shape.extent → store.old.fault ≡ None → IfErr result IsSoundFault }
{
    let code = match code_at(store, first, nth) {
        Ok(code) => code,
        Err(fault) => return Err(fault),
    };
    if !has_code(wanted, code) {
        return Ok(None);
    }
    room_at(store, look, nth_block(first, nth))
}
