// How an undo block is used.
ghost use Rattle.std.specs.Prelude.{◌≡◌};
ghost use Rattle.row_change.specs.Reading.{state_in};

use page_set::Page;
use seg_base::{NoMemory, TxnId};
use std::alloc::Global;
use store_core::Question;
use txn_block::TxnBlock;
use version_read::EndedIn;

/// How often an undo block was taken into use, how many parts it holds now and the bytes that they use, and the least active
/// transaction that has one of them.
#[derive(Clone, Copy, Drop)]
pub struct UndoState {
    pub sequence: u64,
    pub count: u8,
    pub used: u16,
    pub holder: Option<TxnId>,
}

fn state_in(page: &Page, table: &TxnBlock) -> Option<UndoState>
    ensures { result ≡ state_in table.now page.now }
{
    match page {
        Page::Zero(_) => Some(UndoState {
            sequence: 0,
            count: 0,
            used: 0,
            holder: None,
        }),
        Page::Undo(block) => Some(UndoState {
            sequence: block.sequence(),
            count: block.count(),
            used: block.used(),
            holder: block.holder(&EndedIn::of(table)),
        }),
        _ => None,
    }
}

/// Asks an undo block how it is used.
#[derive(Clone, Copy)]
pub struct StateOf<'t> {
    pub table: &'t TxnBlock,
}

impl<'t> Question for StateOf<'t> {
    ghost use Rattle.row_change.specs.Reading.{state_in};

    type Answer = UndoState;

    ghost reads = { λ q page. state_in q.table.now page };

    fn read(&self, alloc: Global, page: &Page) -> Result<Option<UndoState>, NoMemory> {
        let _ = alloc;
        Ok(state_in(page, self.table))
    }
}
