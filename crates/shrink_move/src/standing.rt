// What stands in the slots that a move writes over.
ghost use Rattle.std.specs.Prelude.{◌≡◌, ◌≤◌, ℕ, List, Some, None, IfOk, IfErr, length, slice_index_or};
ghost use Rattle.seg_words.specs.Types.{LONGEST_ROW, new_slot};
ghost use Rattle.redo_model.specs.Records.{Record};
ghost use Rattle.version_laws.specs.Types.{ended_by};
ghost use Rattle.row_change.specs.Drafting.{place_or};
ghost use Rattle.store_core.specs.Causes.{HasLooked, IsSoundFault};
ghost use Rattle.shrink_move.specs.Asked.{standing_at, standing_if, standing_in};
ghost use Rattle.shrink_move.specs.Drafting.{HasRows, standing_of};
ghost use Rattle.shrink_move.specs.Known.{Knows};

use crate::ground::Ground;
use disk_model::Disk;
use page_set::Page;
use row_block::RowBlock;
use row_change::{image_at, slot_or};
use seg_base::{Dba, LONGEST_ROW, NoMemory, Slot};
use std::alloc::Global;
use store_core::{Question, Store, StoreFault, ask};
use txn_block::TxnBlock;
use version_read::EndedIn;

/// A slot, its image, and the length of the row in it.
#[derive(Drop)]
pub struct Standing {
    pub dba: Dba,
    pub slot: u8,
    pub len: u16,
    pub old: Slot,
}

/// Asks a row block for the image of a slot, or for that of the slot where a new row goes.
#[derive(Clone, Copy)]
struct StandingAt<'t> {
    dba: Dba,
    table: &'t TxnBlock,
    slot: Option<u8>,
}

/// None of a row that is longer than any.
fn standing_if(dba: Dba, slot: u8, old: Slot) -> Option<Standing>
    ensures { result ≡ standing_if dba slot old }
{
    if old.bytes.len() > LONGEST_ROW {
        return None;
    }
    let len = old.bytes.len() as u16;
    Some(Standing {
        dba,
        slot,
        len,
        old,
    })
}

fn standing_at(
    alloc: Global,
    block: &RowBlock,
    dba: Dba,
    slot: u8,
) -> Result<Option<Standing>, NoMemory>
    ensures { IfOk result (λ x. x ≡ standing_at dba slot block.now.block) }
{
    match image_at(alloc, block, slot) {
        Ok(old) => Ok(standing_if(dba, slot, old)),
        Err(_) => Err(NoMemory),
    }
}

fn standing_in(alloc: Global, page: &Page, q: &StandingAt) -> Result<Option<Standing>, NoMemory>
    ensures { IfOk result (λ x. x ≡ standing_in q.now.table.now q.now.dba q.now.slot page.now) }
{
    match page {
        Page::Rows(block) => {
            let ended = EndedIn::of(q.table);
            let slot = slot_or(q.slot, block, &ended);
            standing_at(alloc, block, q.dba, slot)
        }
        _ => Ok(None),
    }
}

impl<'t> Question for StandingAt<'t> {
    ghost use Rattle.shrink_move.specs.Asked.{standing_in};

    type Answer = Standing;

    ghost reads = { λ q page. standing_in q.table.now q.dba q.slot page };

    fn read(&self, alloc: Global, page: &Page) -> Result<Option<Standing>, NoMemory> {
        standing_in(alloc, page, self)
    }
}

/// What stands in a slot of a row block, or in the slot where a new row goes.
pub fn stands<D: Disk>(
    alloc: Global,
    store: &mut Store<D>,
    ground: &Ground,
    dba: Dba,
    slot: Option<u8>,
) -> Result<Standing, StoreFault>
    ensures looked { HasLooked D.meaning store.old store.new result }
    ensures says { (R : List Record) (o : ℕ) → Knows D.meaning R o store.old ground.now → HasRows ground.now.shape R dba → IfOk result (λ x. x ≡ standing_of R dba (place_or R dba slot)) }
    ensures sound { (R : List Record) (o : ℕ) → Knows D.meaning R o store.old ground.now → HasRows ground.now.shape R dba → store.old.fault ≡ None → IfErr result IsSoundFault }
{
    let question = StandingAt {
        dba,
        table: &ground.table,
        slot,
    };
    ask(alloc, store, dba, &question)
}
