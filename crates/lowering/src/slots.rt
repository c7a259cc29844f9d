// Whether a row block is vacant: each slot is Empty, and its last writer has ended.
ghost use Rattle.std.specs.Prelude.{◌≡◌, ◌<◌, ◌≤◌, ℕ, None, List, length, slice_index_or, IfOk, IfErr};
ghost use Rattle.seg_words.specs.Types.{is_empty, is_reusable, list_all, new_slot, writer_has_ended};
ghost use Rattle.redo_model.specs.Records.{Record};
ghost use Rattle.redo_model.specs.Model.{IsRowBlock, is_vacant_block};
ghost use Rattle.version_laws.specs.Types.{ended_by};
ghost use Rattle.store_core.specs.Causes.{HasLooked, IsSoundFault};
ghost use Rattle.lowering.specs.Asked.{are_reusable_below, vacant_in};
ghost use Rattle.lowering.specs.Known.{Knows};

use crate::ground::Ground;
use disk_model::Disk;
use page_set::Page;
use row_block::RowBlock;
use seg_base::{Dba, Ended, Kind, NoMemory, Slot, Writer};
use std::alloc::Global;
use store_core::{Question, Store, StoreFault, ask};
use txn_block::TxnBlock;
use version_read::EndedIn;

fn has_ended(writer: &Writer, ended: &EndedIn) -> bool
    ensures { result ≡ writer_has_ended (ended_by ended.now.table.now) writer.now }
{
    match writer {
        Writer::By(txn) => ended.ended(*txn),
        Writer::At(_) => true,
    }
}

fn is_empty(kind: Kind) -> bool
    ensures { result ≡ is_empty kind }
{
    match kind {
        Kind::Empty => true,
        Kind::Row | Kind::Head | Kind::Body => false,
    }
}

fn is_reusable(slot: &Slot, ended: &EndedIn) -> bool
    ensures { result ≡ is_reusable (ended_by ended.now.table.now) slot.now }
{
    is_empty(slot.kind) && has_ended(&slot.writer, ended)
}

fn is_reusable_at(rows: &RowBlock, n: u8, ended: &EndedIn) -> bool
    requires { n < length rows.now.block.slots }
    ensures { result ≡ is_reusable (ended_by ended.now.table.now) (slice_index_or rows.now.block.slots n new_slot) }
{
    match rows.slot(n) {
        Some(slot) => is_reusable(slot, ended),
        None => true,
    }
}

/// Whether each of the first n slots is.
fn are_reusable_below(rows: &RowBlock, n: u8, ended: &EndedIn) -> bool
    requires { n ≤ length rows.now.block.slots }
    ensures { result ≡ are_reusable_below (ended_by ended.now.table.now) rows.now.block.slots n }
{
    if n == 0 {
        return true;
    }
    is_reusable_at(rows, n - 1, ended) && are_reusable_below(rows, n - 1, ended)
}

/// Whether each slot of the block is.
fn is_vacant(rows: &RowBlock, table: &TxnBlock) -> bool
    ensures { result ≡ list_all (is_reusable (ended_by table.now)) rows.now.block.slots }
{
    let ended = EndedIn::of(table);
    are_reusable_below(rows, rows.slots(), &ended)
}

fn vacant_in(page: &Page, table: &TxnBlock) -> Option<bool>
    ensures { result ≡ vacant_in table.now page.now }
{
    let Page::Rows(rows) = page else {
        return None;
    };
    Some(is_vacant(rows, table))
}

/// Asks a row block whether it is vacant.
#[derive(Clone, Copy)]
struct VacantIn<'a> {
    table: &'a TxnBlock,
}

impl<'a> Question for VacantIn<'a> {
    ghost use Rattle.lowering.specs.Asked.{vacant_in};

    type Answer = bool;

    ghost reads = { λ q page. vacant_in q.table.now page };

    fn read(&self, alloc: Global, page: &Page) -> Result<Option<bool>, NoMemory> {
        let _ = alloc;
        Ok(vacant_in(page, self.table))
    }
}

/// Whether a formatted block of the table is vacant.
pub fn is_vacant_block<D: Disk>(
    alloc: Global,
    store: &mut Store<D>,
    ground: &Ground,
    dba: Dba,
) -> Result<bool, StoreFault>
    ensures looked { HasLooked D.meaning store.old store.new result }
    ensures says { (R : List Record) (o : ℕ) → Knows D.meaning R o store.old ground.now → IsRowBlock ground.now.shape R o dba → IfOk result (λ y. y ≡ is_vacant_block R dba) }
    ensures sound { (R : List Record) (o : ℕ) → Knows D.meaning R o store.old ground.now → IsRowBlock ground.now.shape R o dba → store.old.fault ≡ None → IfErr result IsSoundFault }
{
    let question = VacantIn {
        table: &ground.table,
    };
    ask(alloc, store, dba, &question)
}
