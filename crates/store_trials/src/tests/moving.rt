// A row that outgrows its block.
ghost use Rattle.std.specs.Prelude.{◌≤◌, length};
ghost use Rattle.seg_words.specs.Types.{LONGEST_ROW};

use super::{Answer, BLOCK, TABLE, formatted, make_table, stands, told};
use disk_model::Memory;
use mark_move::{MarkStep, step};
use row_change::{Place, insert, locate, update};
use seg_base::{Dba, Lsn, RowNo, Rowid, Scn, TxnId, UndoAddr};
use std::alloc::Global;
use std::test::Fail;
use store_core::{Store, StoreFault, prepare};
use txn_end::{back_step, commit, end_back};

pub(super) const OTHER: Dba = Dba(44);

const GROWN: [u8; 400] = [119; 400];

fn insert_by(alloc: Global, store: &mut Store<Memory>, own: Option<TxnId>, bytes: &[u8]) -> Answer
    requires { length bytes.now ≤ LONGEST_ROW }
{
    told(insert(alloc, store, 1, own, TABLE, BLOCK, bytes))
}

// Rows of 100, 1,800 and 1,790 bytes, committed: 222 bytes of their block stay free, and the list has ten records.
pub(super) fn fill_block(alloc: Global, store: &mut Store<Memory>) -> Result<[Answer; 3], Fail> {
    make_table(alloc, store, 0)?;
    let first = insert_by(alloc, store, None, &[120; 100]);
    let second = insert_by(alloc, store, Some(TxnId(1)), &[121; 1_800]);
    let third = insert_by(alloc, store, Some(TxnId(1)), &[122; 1_790]);
    commit(store, TxnId(1))?;
    Ok([first, second, third])
}

// Where row 1 stands at first.
pub(super) fn before() -> Place {
    stands(0, 37, 1, 0, 1)
}

// Session 2 makes row 1 longer than its block has room for.
pub(super) fn grow(alloc: Global, store: &mut Store<Memory>, to: Option<Dba>) -> Answer {
    told(update(alloc, store, 2, None, TABLE, &before(), &GROWN, to))
}

fn where_is(
    alloc: Global,
    store: &mut Store<Memory>,
    own: Option<TxnId>,
) -> Result<Option<Place>, StoreFault> {
    locate(alloc, store, TABLE, RowNo(1), own)
}

// Where the row stands then, behind its head.
fn moved() -> Place {
    Place {
        at: Rowid {
            dba: OTHER,
            slot: 0,
        },
        born: Lsn(2),
        undo: UndoAddr {
            block: 37,
            seq: 1,
            nth: 4,
        },
        start: Scn(1),
        head: Some(Rowid {
            dba: BLOCK,
            slot: 0,
        }),
    }
}

// Whether a step of the rollback gives back what both blocks had.
fn both_back(alloc: Global, store: &mut Store<Memory>) -> bool {
    match back_step(alloc, store, TxnId(2)) {
        Ok(Some(blocks)) => blocks.as_slice() == [BLOCK, OTHER].as_slice(),
        _ => false,
    }
}

#[test]
fn a_row_outgrows_its_block(rt: HostRuntime) -> Result<(), Fail> {
    let alloc = rt.alloc();
    let mut disk = formatted(alloc)?;
    let loaded = prepare(alloc, &mut disk)?;
    let mut store = Store::over(&mut disk, loaded);
    let rows = [Answer::Row(1, 1), Answer::Row(2, 1), Answer::Row(3, 1)];
    assert_eq!(rt; fill_block(alloc, &mut store)?, rows);
    assert_eq!(rt; grow(alloc, &mut store, None), Answer::NeedsBlock(400));
    assert_eq!(rt; store.log_len(), 10);
    assert_eq!(rt; step(&mut store, TABLE, MarkStep::Format(OTHER)), Ok(()));
    assert_eq!(rt; grow(alloc, &mut store, Some(OTHER)), Answer::Row(1, 2));
    assert_eq!(rt;
        where_is(alloc, &mut store, Some(TxnId(2))),
        Ok(Some(moved()))
    );
    assert_eq!(rt; where_is(alloc, &mut store, None), Ok(Some(before())));
    assert!(rt; both_back(alloc, &mut store));
    assert_eq!(rt; end_back(alloc, &mut store, TxnId(2)), Ok(()));
    assert_eq!(rt; where_is(alloc, &mut store, None), Ok(Some(before())));
    assert_eq!(rt; store.log_len(), 15);
    Ok(())
}
