mod bytes;

use super::*;
use seg_base::{Dba, Kind, Obj, RowNo, Scn, Slot, Text, TxnId, UndoAddr, Writer};
use std::alloc::Global;
use std::process::Abort;
use std::test::Fail;

/// Reads a record of these bytes behind one byte and before others, and writes it again.
fn read_and_write_back(rt: &impl Abort, alloc: Global, kind: u8, bytes: &[u8]) -> Result<(), Fail> {
    let mut all = Vec::new(alloc);
    all.push(7u8)?;
    all.extend_from_slice(bytes)?;
    all.extend_from_slice(&[1, 2, 3])?;
    let (rec, next) = decode(alloc, &all, 1)?;
    assert!(rt; next == 1 + bytes.len(), "kind {kind}");
    let mut again = Vec::new(alloc);
    again.push(7u8)?;
    encode(&rec, &mut again)?;
    assert!(rt; again.as_slice() == &all[..next], "kind {kind}");
    Ok(())
}

// A field that is too wide, too narrow or in another's place shows in these bytes and not in a clause.
#[test]
fn each_kind_is_read_and_written_back(rt: HostRuntime) -> Result<(), Fail> {
    let records: [&[u8]; 19] = [
        &bytes::TABLE,
        &bytes::MOVEMENT,
        &bytes::EXTEND,
        &bytes::FORMAT_BLOCK,
        &bytes::CLASS,
        &bytes::ADVANCE,
        &bytes::LOWER,
        &bytes::BEGIN,
        &bytes::REUSE,
        &bytes::INSERT,
        &bytes::UPDATE,
        &bytes::MIGRATE,
        &bytes::RETURN,
        &bytes::DELETE,
        &bytes::COMMIT,
        &bytes::BACK,
        &bytes::ENDED,
        &bytes::MOVE,
        &bytes::CLEAN,
    ];
    for (i, record) in records.iter().enumerate() {
        read_and_write_back(&rt, rt.alloc(), i as u8 + 1, record)?;
    }
    Ok(())
}

fn is_bad(alloc: Global, bytes: &[u8], at: usize) -> bool {
    match decode(alloc, bytes, at) {
        Ok(_) => false,
        Err(fault) => fault == RecordFault::BadRecord { offset: at },
    }
}

// What is no record, and at which byte it is said to be.
#[test]
fn what_is_no_record_is_refused(rt: HostRuntime) -> Result<(), Fail> {
    let alloc = rt.alloc();
    for len in 0..bytes::MOVE.len() {
        assert!(rt; is_bad(alloc, &bytes::MOVE[..len], 0), "cut at {len}");
    }
    assert!(rt; is_bad(alloc, &bytes::COMMIT, 18));
    assert!(rt; is_bad(alloc, &bytes::COMMIT, 19));
    let changes: [(&[u8], usize, u8); 8] = [
        (&bytes::COMMIT, 0, 0),
        (&bytes::COMMIT, 0, 22),
        (&bytes::TABLE, 7, 31),
        (&bytes::TABLE, 8, 84),
        (&bytes::MOVEMENT, 6, 2),
        (&bytes::INSERT, 37, 0),
        (&bytes::INSERT, 37, 4),
        (&bytes::MOVE, 8, 1),
    ];
    for (record, place, byte) in changes {
        let mut changed = record.to_vec(alloc)?;
        if place < changed.len() {
            changed[place] = byte;
        }
        changed.extend_from_slice(&[97; 64])?;
        assert!(rt; is_bad(alloc, &changed, 0), "byte {byte} at {place}");
    }
    Ok(())
}

fn row(alloc: Global) -> Result<Slot, Fail> {
    Ok(Slot {
        kind: Kind::Row,
        writer: Writer::By(TxnId(1)),
        undo: Some(UndoAddr {
            block: 37,
            seq: 1,
            nth: 0,
        }),
        row: RowNo(1),
        link: None,
        bytes: Text::copy(alloc, b"hi")?,
        room: 2,
    })
}

fn empty(alloc: Global) -> Slot {
    Slot {
        kind: Kind::Empty,
        writer: Writer::At(Scn(0)),
        undo: None,
        row: RowNo(0),
        link: None,
        bytes: Text::empty(alloc),
        room: 0,
    }
}

fn part(alloc: Global) -> Result<RowPart, Fail> {
    Ok(RowPart {
        dba: Dba(43),
        slot: 0,
        entry: Some(0),
        new: row(alloc)?,
        old: empty(alloc),
    })
}

/// Whether a record is spelled in these bytes.
fn is_spelled(alloc: Global, record: &Record, bytes: &[u8]) -> bool {
    let mut out = Vec::new(alloc);
    encode(record, &mut out).is_ok() && out.as_slice() == bytes
}

fn insert(alloc: Global) -> Result<Record, Fail> {
    Ok(Record::Insert(RowBody {
        txn: TxnId(1),
        entry: 0,
        obj: Obj(1),
        row: RowNo(1),
        undo: UndoAddr {
            block: 37,
            seq: 1,
            nth: 0,
        },
        previous: None,
        parts: Parts::one(alloc, part(alloc)?)?,
    }))
}

fn clean(alloc: Global) -> Result<Record, Fail> {
    let mut ended = EndedTransactions::new(alloc);
    ended.push(TxnId(1), Scn(1))?;
    ended.push(TxnId(4), Scn(0))?;
    Ok(Record::Clean(CleanRecord {
        dba: Dba(43),
        ended,
    }))
}

// Records made of their parts, and a list that grows.
#[test]
fn records_are_made(rt: HostRuntime) -> Result<(), Fail> {
    let alloc = rt.alloc();
    assert!(rt; is_spelled(alloc, &insert(alloc)?, &bytes::INSERT));
    assert!(rt; is_spelled(alloc, &clean(alloc)?, &bytes::CLEAN));
    let mut two = Parts::one(alloc, part(alloc)?)?;
    two.push(part(alloc)?)?;
    assert_eq!(rt; two.as_slice().len(), 2);
    let mut released = Extents::new(alloc);
    released.push(1)?;
    assert_eq!(rt; released.as_slice(), [1].as_slice());
    Ok(())
}
