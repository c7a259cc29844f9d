// What undo and row blocks are asked by a step of a rollback.
ghost use Rattle.std.specs.Prelude.{◌≡◌, IfOk};
ghost use Rattle.txn_end.specs.Reading.{part_in, sequence_in, entry_in, row_in};

use page_set::Page;
use seg_base::{Ended, Kind, NoMemory, RowNo, TxnId};
use std::alloc::Global;
use store_core::Question;
use undo_block::Part;

fn part_in(alloc: Global, page: &Page, nth: u8) -> Result<Option<Part>, NoMemory>
    ensures { IfOk result (λ x. x ≡ part_in page.now nth) }
{
    match page {
        Page::Undo(block) => match block.nth(nth) {
            None => Ok(None),
            Some(part) => match part.duplicate(alloc) {
                Ok(copy) => Ok(Some(copy)),
                Err(_) => Err(NoMemory),
            },
        },
        _ => Ok(None),
    }
}

/// Asks an undo block for a copy of the part at a place.
#[derive(Clone, Copy, Debug, Drop)]
pub struct PartAt {
    pub nth: u8,
}

impl Question for PartAt {
    ghost use Rattle.txn_end.specs.Reading.{part_in};

    type Answer = Part;

    ghost reads = { λ q page. part_in page q.nth };

    fn read(&self, alloc: Global, page: &Page) -> Result<Option<Part>, NoMemory> {
        part_in(alloc, page, self.nth)
    }
}

fn sequence_in(page: &Page) -> Option<u64>
    ensures { result ≡ sequence_in page.now }
{
    match page {
        Page::Undo(block) => Some(block.sequence()),
        _ => None,
    }
}

/// Asks an undo block for the sequence of its present use.
#[derive(Clone, Copy, Debug, Drop)]
pub struct SequenceOf;

impl Question for SequenceOf {
    ghost use Rattle.txn_end.specs.Reading.{sequence_in};

    type Answer = u64;

    ghost reads = { λ q page. sequence_in page };

    fn read(&self, alloc: Global, page: &Page) -> Result<Option<u64>, NoMemory> {
        let _ = alloc;
        Ok(sequence_in(page))
    }
}

/// No transaction has ended: a block's list entry of an active one is the first that names it, whoever else has ended.
#[derive(Clone, Copy, Debug, Drop)]
struct NoneEnded;

impl Ended for NoneEnded {
    ghost use Rattle.txn_end.specs.Reading.{none_ended};

    ghost has_ended = { λ _. none_ended };

    fn ended(&self, txn: TxnId) -> bool {
        let _ = txn;
        false
    }
}

fn entry_in(page: &Page, txn: TxnId) -> Option<u8>
    ensures { result ≡ entry_in page.now txn }
{
    match page {
        Page::Rows(block) => block.entry_for(&NoneEnded, txn),
        _ => None,
    }
}

/// Asks a row block for the list entry of an active transaction that has one.
#[derive(Clone, Copy, Debug, Drop)]
pub struct EntryOf {
    pub txn: TxnId,
}

impl Question for EntryOf {
    ghost use Rattle.txn_end.specs.Reading.{entry_in};

    type Answer = u8;

    ghost reads = { λ q page. entry_in page q.txn };

    fn read(&self, alloc: Global, page: &Page) -> Result<Option<u8>, NoMemory> {
        let _ = alloc;
        Ok(entry_in(page, self.txn))
    }
}

fn row_in(page: &Page, slot: u8, before: RowNo) -> Option<RowNo>
    ensures { result ≡ row_in page.now slot before }
{
    match page {
        Page::Rows(block) => match block.slot(slot) {
            None => Some(before),
            Some(image) => match image.kind {
                Kind::Empty => Some(before),
                Kind::Row | Kind::Head | Kind::Body => Some(image.row),
            },
        },
        _ => None,
    }
}

/// Asks a row block for the row in a slot, or the one that was there before where the slot is empty.
#[derive(Clone, Copy, Debug, Drop)]
pub struct RowIn {
    pub slot: u8,
    pub before: RowNo,
}

impl Question for RowIn {
    ghost use Rattle.txn_end.specs.Reading.{row_in};

    type Answer = RowNo;

    ghost reads = { λ q page. row_in page q.slot q.before };

    fn read(&self, alloc: Global, page: &Page) -> Result<Option<RowNo>, NoMemory> {
        let _ = alloc;
        Ok(row_in(page, self.slot, self.before))
    }
}
