// Each call once, and what opening says of damaged logs.
use crate::{LogFault, RedoLog, open};
use disk_model::{Disk, File, Memory};
use log_frame::make_head;
use redo_record::{BeginRecord, EndedRecord, Record, ReuseRecord};
use seg_base::{FIRST_GATE, Lsn, Scn, Shape, TxnId};
use std::alloc::Global;
use std::test::Fail;

// A disk with an empty log.
fn formatted(alloc: Global) -> Result<Memory, Fail> {
    let shape = Shape {
        blocks: 64,
        extent: 8,
        undo: 2,
    };
    let mut disk = Memory::new(alloc, b"", b"", &[])?;
    make_head(&mut disk, &shape)?;
    Ok(disk)
}

#[test]
fn records_wait_and_are_read_again(rt: HostRuntime) -> Result<(), Fail> {
    let alloc = rt.alloc();
    let mut disk = formatted(alloc)?;
    let mut log = open(alloc, &mut disk, FIRST_GATE, Lsn(0))?;
    let begin = Record::Begin(BeginRecord {
        txn: TxnId(1),
        session: 1,
        entry: 0,
        control: Scn(0),
    });
    let reuse = Record::Reuse(ReuseRecord {
        block: 37,
        sequence: 1,
    });
    let ended = Record::Ended(EndedRecord {
        txn: TxnId(1),
        entry: 0,
    });
    assert_eq!(rt; log.append(&begin)?, Lsn(1));
    assert_eq!(rt; log.append_pair(&reuse, &ended)?, Lsn(3));
    assert_eq!(rt; (log.unwritten(), log.stable()), (42, Lsn(0)));
    log.flush(&mut disk)?;
    assert_eq!(rt; (log.unwritten(), log.stable()), (0, Lsn(3)));
    assert_eq!(rt; (log.end(), log.count()), (110, Lsn(3)));
    assert_eq!(rt; log.append_commit(TxnId(2), Scn(1), 4), Lsn(4));
    log.flush(&mut disk)?;
    let commit = b"\x01\0\0\0\x12\x0f\0\0\0\0\0\0\0\x02\0\0\0\0\0\0\0\x01\x04\0";
    let mut written = [0xff; 24];
    assert_eq!(rt; disk.read(File::Log, 110, &mut written), Ok(24));
    assert_eq!(rt; &written, commit);
    assert_eq!(rt; log.read_from(alloc, &mut disk, FIRST_GATE)?.len(), 4);
    assert_eq!(rt; log.read_from(alloc, &mut disk, 110)?.len(), 1);
    for (from, before) in [(FIRST_GATE, 0), (110, 3), (133, 4)] {
        let again = open(alloc, &mut disk, from, Lsn(before))?;
        assert_eq!(rt; again.stable(), Lsn(4), "from {from}");
    }
    Ok(())
}

// How many records opening finds, with these bytes from the first gate on.
fn opened(alloc: Global, bytes: &[u8]) -> Result<Result<Lsn, LogFault>, Fail> {
    let mut disk = formatted(alloc)?;
    if disk.write_at(File::Log, FIRST_GATE, bytes).is_err() {
        return Err("no write")?;
    }
    Ok(open(alloc, &mut disk, FIRST_GATE, Lsn(7)).map(|log: RedoLog| log.stable()))
}

fn bad(offset: u64, seen: u8) -> Result<Lsn, LogFault> {
    Err(LogFault::BadLog { offset, seen })
}

#[test]
fn the_first_wrong_byte_is_named(rt: HostRuntime) -> Result<(), Fail> {
    let alloc = rt.alloc();
    let cases = [
        (b"\0".as_slice(), Ok(Lsn(7))),
        (
            b"\x01\0\0\0\x0a\x11\0\0\0\0\0\0\0\x01\0\0".as_slice(),
            Ok(Lsn(8)),
        ),
        (b"\x01\0\0\0\x01\0\0".as_slice(), bad(68, 0)),
        (b"\x01\0\0\0\x01\x14\0".as_slice(), bad(68, 20)),
        (b"\x01\0\0\0\x02\x11\0\0".as_slice(), bad(68, 17)),
        (
            b"\x01\0\0\0\x0b\x11\0\0\0\0\0\0\0\x01\0\x63\0".as_slice(),
            bad(78, 0x63),
        ),
        (
            b"\x01\0\0\0\x0a\x11\0\0\0\0\0\0\0\x01\0\x01\0\0\0\0\0".as_slice(),
            bad(79, 0),
        ),
        (
            b"\x01\0\0\0\x01\x63\x01\0\0\0\0\0".as_slice(),
            bad(68, 0x63),
        ),
        (b"\x01\0\0\0\x0a\x11".as_slice(), bad(69, 0)),
    ];
    for (bytes, want) in cases {
        assert_eq!(rt; opened(alloc, bytes)?, want, "{bytes:?}");
    }
    let mut empty = Memory::new(alloc, b"", b"", &[2])?;
    assert_eq!(rt;
        open(alloc, &mut empty, FIRST_GATE, Lsn(0)).err(),
        Some(LogFault::NotOpen)
    );
    assert_eq!(rt;
        open(alloc, &mut empty, FIRST_GATE, Lsn(0)).err(),
        Some(LogFault::DeviceFault)
    );
    Ok(())
}
