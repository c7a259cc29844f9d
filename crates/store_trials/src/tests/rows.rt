// One row, changed by some sessions.
use super::{Answer, BLOCK, TABLE, formatted, insert_row, make_table, stands, told};
use disk_model::Memory;
use row_change::{Place, delete, locate, update};
use seg_base::{Dba, RowNo, Scn, TxnId};
use std::alloc::Global;
use std::test::Fail;
use store_core::{Store, StoreFault, prepare};
use txn_end::{back_step, commit, end_back};

const SECOND: TxnId = TxnId(2);

type Found = Result<Option<Place>, StoreFault>;

fn where_is(alloc: Global, store: &mut Store<Memory>, own: Option<TxnId>) -> Found {
    locate(alloc, store, TABLE, RowNo(1), own)
}

fn change(
    alloc: Global,
    store: &mut Store<Memory>,
    who: u8,
    own: Option<TxnId>,
    place: &Place,
) -> Answer {
    told(update(alloc, store, who, own, TABLE, place, b"hello, world", None))
}

fn remove(
    alloc: Global,
    store: &mut Store<Memory>,
    who: u8,
    own: Option<TxnId>,
    place: &Place,
) -> Answer {
    told(delete(alloc, store, who, own, TABLE, place))
}

// The first of the row blocks that a step of a rollback answers, none after the last step.
fn back_one(
    alloc: Global,
    store: &mut Store<Memory>,
    txn: TxnId,
) -> Result<Option<Dba>, StoreFault> {
    match back_step(alloc, store, txn) {
        Ok(Some(blocks)) => Ok(blocks.as_slice().first().copied()),
        Ok(None) => Ok(None),
        Err(fault) => Err(fault),
    }
}

// The table with row 1, committed: eight records.
fn make_row(alloc: Global, store: &mut Store<Memory>) -> Result<Answer, Fail> {
    make_table(alloc, store, 10)?;
    let answer = insert_row(alloc, store, 1, b"hello");
    commit(store, TxnId(1))?;
    Ok(answer)
}

// Where the row stands at first, and where as session 2 changed it, when so many commits are there.
fn before() -> Place {
    stands(0, 37, 1, 0, 1)
}

fn after(commits: u64) -> Place {
    stands(0, 37, 1, 1, commits)
}

#[test]
fn a_rollback_gives_the_row_back(rt: HostRuntime) -> Result<(), Fail> {
    let alloc = rt.alloc();
    let mut disk = formatted(alloc)?;
    let loaded = prepare(alloc, &mut disk)?;
    let mut store = Store::over(&mut disk, loaded);
    assert_eq!(rt; make_row(alloc, &mut store)?, Answer::Row(1, 1));
    assert_eq!(rt; where_is(alloc, &mut store, None), Ok(Some(before())));
    assert_eq!(rt;
        change(alloc, &mut store, 2, None, &before()),
        Answer::Row(1, 2)
    );
    assert_eq!(rt;
        where_is(alloc, &mut store, Some(SECOND)),
        Ok(Some(after(1)))
    );
    assert_eq!(rt; where_is(alloc, &mut store, None), Ok(Some(before())));
    assert_eq!(rt;
        remove(alloc, &mut store, 2, Some(SECOND), &after(1)),
        Answer::Row(1, 2)
    );
    assert_eq!(rt; where_is(alloc, &mut store, Some(SECOND)), Ok(None));
    assert_eq!(rt; back_one(alloc, &mut store, SECOND), Ok(Some(BLOCK)));
    assert_eq!(rt; back_one(alloc, &mut store, SECOND), Ok(Some(BLOCK)));
    assert_eq!(rt; back_one(alloc, &mut store, SECOND), Ok(None));
    assert_eq!(rt; end_back(alloc, &mut store, SECOND), Ok(()));
    assert_eq!(rt; where_is(alloc, &mut store, None), Ok(Some(before())));
    assert_eq!(rt; (store.log_len(), store.commits()), (14, Scn(1)));
    Ok(())
}
