// A table lowered. Its first extent has the data blocks 43 to 46, extent 1 48 to 54, extent 2 56 to 62.
use super::{TABLE, changed, formatted, make_table, put};
use disk_model::{File, Memory};
use lowering::lower;
use mark_move::{MarkStep, step};
use row_change::{Place, delete};
use seg_base::{Dba, Lsn, Rowid, Scn, TxnId, UndoAddr};
use std::alloc::Global;
use std::test::Fail;
use store_core::{Lowered, Store, StoreFault, prepare};
use txn_end::commit;

// The first data block of extent 1.
const NEXT: Dba = Dba(48);

// What a lowering answered: its number and the high mark, with the one extent that was released, or none.
#[derive(Clone, Copy, Debug, PartialEq, Eq, Drop)]
enum Answer {
    Nothing(u64, u32),
    One(u32, u64, u32),
    Other,
}

fn told(lowered: &Lowered) -> Answer {
    match lowered.released.as_slice() {
        [] => Answer::Nothing(lowered.number, lowered.high),
        [extent] => Answer::One(*extent, lowered.number, lowered.high),
        _ => Answer::Other,
    }
}

fn lower_table(alloc: Global, store: &mut Store<Memory>) -> Answer {
    let lowered = lower(alloc, store, TABLE);
    match &lowered {
        Ok(lowered) => told(lowered),
        Err(_) => Answer::Other,
    }
}

fn format_from(store: &mut Store<Memory>, first: u32, past: u32) -> Result<(), StoreFault> {
    for dba in first..past {
        step(store, TABLE, MarkStep::Format(Dba(dba)))?;
    }
    Ok(())
}

// The table gets this extent, of which this block is formatted.
fn extend(store: &mut Store<Memory>, extent: u32, dba: Dba) -> Result<(), StoreFault> {
    step(store, TABLE, MarkStep::Extend(extent))?;
    step(store, TABLE, MarkStep::Advance)?;
    step(store, TABLE, MarkStep::Format(dba))
}

// All four blocks of the first extent are formatted, and then the first one of extent 1. The Extend is record 8 of 10.
fn grow(alloc: Global, store: &mut Store<Memory>) -> Result<(), Fail> {
    make_table(alloc, store)?;
    format_from(store, 44, 47)?;
    extend(store, 1, NEXT)?;
    Ok(())
}

// The row that was inserted first, into extent 1.
fn row() -> Place {
    Place {
        at: Rowid { dba: NEXT, slot: 0 },
        born: Lsn(8),
        undo: UndoAddr {
            block: 37,
            seq: 1,
            nth: 0,
        },
        start: Scn(1),
        head: None,
    }
}

fn delete_row(alloc: Global, store: &mut Store<Memory>) -> u64 {
    changed(delete(alloc, store, 1, None, TABLE, &row()))
}

// The group of the Lower, 49 bytes, and the closed gate behind it: table 1 with header 42, lowering 1, one extent kept, marks 4
// and 4, its second level 40 alone, the third level 41, the best code of formatted blocks that are empty, extent 1 released.
const LOWERED: [u8; 55] = [
    1, 0, 0, 0, 49, 7, 1, 0, 0, 0, 42, 0, 0, 0, 0, 0, 0, 0, 1, 0, 1, 0, 0, 0, 4, 0, 0, 0, 4, 0, 0,
    0, 40, 0, 0, 0, 0, 0, 0, 0, 0, 0, 0, 0, 41, 5, 0, 0, 0, 1, 0, 0, 0, 1, 0,
];

#[test]
fn an_extent_is_released_once_it_is_vacant(rt: HostRuntime) -> Result<(), Fail> {
    let alloc = rt.alloc();
    let mut disk = formatted(alloc)?;
    let loaded = prepare(alloc, &mut disk)?;
    let mut store = Store::over(&mut disk, loaded);
    grow(alloc, &mut store)?;
    assert_eq!(rt; put(alloc, &mut store, None, NEXT, &[120; 1_800]), 1);
    commit(&mut store, TxnId(1))?;
    assert_eq!(rt; lower_table(alloc, &mut store), Answer::Nothing(0, 11));
    assert_eq!(rt; delete_row(alloc, &mut store), 2);
    assert_eq!(rt; lower_table(alloc, &mut store), Answer::Nothing(0, 11));
    commit(&mut store, TxnId(2))?;
    assert_eq!(rt; store.log_len(), 17);
    assert_eq!(rt; lower_table(alloc, &mut store), Answer::One(1, 1, 4));
    assert_eq!(rt; lower_table(alloc, &mut store), Answer::Nothing(0, 4));
    assert_eq!(rt; store.log_len(), 18);
    store.flush_log()?;
    let disk = store.into_disk();
    assert!(rt; disk.bytes(File::Log).ends_with(&LOWERED));
    Ok(())
}

#[test]
fn extents_are_released_down_to_a_row(rt: HostRuntime) -> Result<(), Fail> {
    let alloc = rt.alloc();
    let mut disk = formatted(alloc)?;
    let loaded = prepare(alloc, &mut disk)?;
    let mut store = Store::over(&mut disk, loaded);
    grow(alloc, &mut store)?;
    assert_eq!(rt; put(alloc, &mut store, None, NEXT, &[120; 1_800]), 1);
    commit(&mut store, TxnId(1))?;
    format_from(&mut store, 49, 55)?;
    extend(&mut store, 2, Dba(56))?;
    assert_eq!(rt; lower_table(alloc, &mut store), Answer::One(2, 1, 11));
    assert_eq!(rt; delete_row(alloc, &mut store), 2);
    commit(&mut store, TxnId(2))?;
    assert_eq!(rt; lower_table(alloc, &mut store), Answer::One(1, 2, 4));
    Ok(())
}
