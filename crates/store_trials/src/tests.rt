// Calls over a store of 64 blocks with extents of 8 and two undo blocks, 37 and 38: extent 0 has the blocks 39 to 46, and the
// data blocks of the table that it belongs to are 43 to 46.
mod bytes;
mod full;
mod moving;
mod opening;
mod records;
mod rows;
mod settling;
mod stopping;

ghost use Rattle.std.specs.Prelude.{◌≤◌, length};
ghost use Rattle.seg_words.specs.Types.{LONGEST_ROW};

use disk_model::{Disk, Memory};
use mark_move::{MarkStep, new_table, step};
use row_change::{ChangeFault, Done, Place, insert};
use seg_base::{Dba, Lsn, Name, Obj, RowNo, Rowid, Scn, Shape, TxnId, UndoAddr};
use std::alloc::Global;
use std::test::Fail;
use store_core::{Store, StoreFault};
use store_files::format;

const SHAPE: Shape = Shape {
    blocks: 64,
    extent: 8,
    undo: 2,
};

const TABLE: Obj = Obj(1);

const BLOCK: Dba = Dba(43);

fn formatted(alloc: Global) -> Result<Memory, Fail> {
    let mut disk = Memory::new(alloc, b"", b"", &[])?;
    format(&mut disk, SHAPE)?;
    Ok(disk)
}

// Makes table t, puts its first four data blocks under the high mark, and formats the first: four records.
fn make_table<D: Disk>(alloc: Global, store: &mut Store<D>, pctfree: u8) -> Result<(), Fail> {
    match Name::copy(alloc, b"t") {
        Ok(Some(name)) => {
            new_table(alloc, store, &name, pctfree)?;
        }
        _ => return Err("no name")?,
    }
    step(store, TABLE, MarkStep::Advance)?;
    step(store, TABLE, MarkStep::Format(BLOCK))?;
    Ok(())
}

// What a change of a row answered, without the lists of a refusal.
#[derive(Clone, Copy, Debug, PartialEq, Eq, Drop)]
enum Answer {
    Row(u64, u64),
    Busy(u64),
    Changed(u64),
    NoSlot,
    NeedsBlock(u16),
    UndoFull,
    Store(StoreFault),
}

fn told(done: Result<Done, ChangeFault>) -> Answer {
    match &done {
        Ok(done) => Answer::Row(done.row.0, done.txn.0),
        Err(ChangeFault::Busy { txn }) => Answer::Busy(txn.0),
        Err(ChangeFault::Changed { commits }) => Answer::Changed(commits.0),
        Err(ChangeFault::NoSlot { txns: _ }) => Answer::NoSlot,
        Err(ChangeFault::NeedsBlock { len }) => Answer::NeedsBlock(*len),
        Err(ChangeFault::UndoFull { holders: _ }) => Answer::UndoFull,
        Err(ChangeFault::Store(fault)) => Answer::Store(*fault),
    }
}

// A session inserts a row into the first data block.
fn insert_row<D: Disk>(alloc: Global, store: &mut Store<D>, who: u8, bytes: &[u8]) -> Answer
    requires { length bytes.now ≤ LONGEST_ROW }
{
    told(insert(alloc, store, who, None, TABLE, BLOCK, bytes))
}

// Where a row stands in the first data block, whose extent came by record 2.
fn stands(slot: u8, block: u32, seq: u64, nth: u8, start: u64) -> Place {
    Place {
        at: Rowid { dba: BLOCK, slot },
        born: Lsn(2),
        undo: UndoAddr { block, seq, nth },
        start: Scn(start),
        head: None,
    }
}
