// The first block below a position that takes a row.
ghost use Rattle.std.specs.Prelude.{◌≡◌, ◌<◌, ◌≤◌, ℕ, true, None, List, length, IfOk, IfErr};
ghost use Rattle.seg_words.specs.Types.{MOST_PCTFREE, Shrink, is_shape, takes as takes_by};
ghost use Rattle.redo_model.specs.Records.{Record};
ghost use Rattle.redo_model.specs.Model.{IsRowBlock, data_blocks, first_taker, pctfree_of, takes_row};
ghost use Rattle.version_laws.specs.Types.{ended_by};
ghost use Rattle.store_core.specs.Causes.{HasLooked, IsSoundFault};
ghost use Rattle.shrink_move.specs.Asked.{takes_in};
ghost use Rattle.shrink_move.specs.Known.{Knows};
ghost use Rattle.shrink_move.specs.Walks.{IsCoded, TakerAt};

use crate::ground::Ground;
use crate::walking::{Coded, coded_position};
use disk_model::Disk;
use page_set::Page;
use row_block::RowBlock;
use seg_base::{Dba, MOST_PCTFREE, NoMemory, Taker};
use std::alloc::Global;
use store_core::{Question, Store, StoreFault, ask};
use txn_block::TxnBlock;
use version_read::EndedIn;

fn takes_row(rows: &RowBlock, table: &TxnBlock, pctfree: u8, len: u16) -> bool
    requires { pctfree ≤ MOST_PCTFREE }
    ensures { result ≡ takes_by (ended_by table.now) pctfree rows.now.block len Shrink }
{
    let ended = EndedIn::of(table);
    rows.takes(&ended, pctfree, len, &Taker::Shrink)
}

fn takes_in(page: &Page, table: &TxnBlock, pctfree: u8, len: u16) -> Option<bool>
    ensures { result ≡ takes_in table.now pctfree len page.now }
{
    let Page::Rows(rows) = page else {
        return None;
    };
    if pctfree > MOST_PCTFREE {
        return None;
    }
    Some(takes_row(rows, table, pctfree, len))
}

/// Asks a row block whether it takes a row of this length that is moved, in a table of this PCTFREE.
#[derive(Clone, Copy)]
struct TakesIn<'a> {
    table: &'a TxnBlock,
    pctfree: u8,
    len: u16,
}

impl<'a> Question for TakesIn<'a> {
    ghost use Rattle.shrink_move.specs.Asked.{takes_in};

    type Answer = bool;

    ghost reads = { λ q page. takes_in q.table.now q.pctfree q.len page };

    fn read(&self, alloc: Global, page: &Page) -> Result<Option<bool>, NoMemory> {
        let _ = alloc;
        Ok(takes_in(page, self.table, self.pctfree, self.len))
    }
}

/// Whether a formatted block of the table takes the row.
fn takes<D: Disk>(
    alloc: Global,
    store: &mut Store<D>,
    ground: &Ground,
    dba: Dba,
    len: u16,
) -> Result<bool, StoreFault>
    ensures looked { HasLooked D.meaning store.old store.new result }
    ensures says { (R : List Record) (o : ℕ) → Knows D.meaning R o store.old ground.now → IsRowBlock ground.now.shape R o dba → IfOk result (λ y. y ≡ takes_row R (pctfree_of R o) dba len Shrink) }
    ensures sound { (R : List Record) (o : ℕ) → Knows D.meaning R o store.old ground.now → IsRowBlock ground.now.shape R o dba → store.old.fault ≡ None → IfErr result IsSoundFault }
{
    let question = TakesIn {
        table: &ground.table,
        pctfree: ground.segment.pctfree,
        len,
    };
    ask(alloc, store, dba, &question)
}

/// A data block, where it is formatted and takes the row.
fn taker_in<D: Disk>(
    alloc: Global,
    store: &mut Store<D>,
    ground: &Ground,
    block: &Coded,
    len: u16,
) -> Result<Option<Dba>, StoreFault>
    requires unspent { store.old.fault ≡ None }
    ensures looked { HasLooked D.meaning store.old store.new result }
    ensures says { (R : List Record) (o position : ℕ) → Knows D.meaning R o store.old ground.now → IsCoded ground.now.shape R o position block.now → IfOk result (TakerAt ground.now.shape R o position len) }
    ensures sound { (R : List Record) (o position : ℕ) → Knows D.meaning R o store.old ground.now → IsCoded ground.now.shape R o position block.now → IfErr result IsSoundFault }
{
    if block.code == 0 {
        return Ok(None);
    }
    match takes(alloc, store, ground, block.dba, len) {
        Ok(true) => Ok(Some(block.dba)),
        Ok(false) => Ok(None),
        Err(fault) => Err(fault),
    }
}

/// The block at a position, where it is formatted and takes the row.
fn taker_at<D: Disk>(
    alloc: Global,
    store: &mut Store<D>,
    ground: &Ground,
    position: u32,
    len: u16,
) -> Result<Option<Dba>, StoreFault>
    requires { is_shape ground.now.shape ≡ true }
    ensures looked { HasLooked D.meaning store.old store.new result }
    ensures says { (R : List Record) (o : ℕ) → Knows D.meaning R o store.old ground.now → IfOk result (TakerAt ground.now.shape R o position len) }
    ensures sound { (R : List Record) (o : ℕ) → Knows D.meaning R o store.old ground.now → position < length (data_blocks ground.now.shape R o) → store.old.fault ≡ None → IfErr result IsSoundFault }
{
    match coded_position(store, ground, position) {
        Ok(block) => taker_in(alloc, store, ground, &block, len),
        Err(fault) => Err(fault),
    }
}

/// The first formatted block below a position that takes a row of this length, whatever its kept class.
pub fn taker_below<D: Disk>(
    alloc: Global,
    store: &mut Store<D>,
    ground: &Ground,
    place: u32,
    len: u16,
) -> Result<Option<Dba>, StoreFault>
    requires shape { is_shape ground.now.shape ≡ true }
    requires unspent { store.old.fault ≡ None }
    ensures looked { HasLooked D.meaning store.old store.new result }
    ensures says { (R : List Record) (o : ℕ) → Knows D.meaning R o store.old ground.now → IfOk result (λ x. x ≡ first_taker ground.now.shape R o place len) }
    ensures sound { (R : List Record) (o : ℕ) → Knows D.meaning R o store.old ground.now → place ≤ length (data_blocks ground.now.shape R o) → IfErr result IsSoundFault }
{
    for position in 0..place {
        match taker_at(alloc, store, ground, position, len) {
            Err(fault) => return Err(fault),
            Ok(Some(dba)) => return Ok(Some(dba)),
            Ok(None) => {}
        }
    }
    Ok(None)
}
