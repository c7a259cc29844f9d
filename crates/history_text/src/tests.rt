// One line for each variant, against texts that are known.
use crate::{Entry, Outcome, Refusal, RowOut, Stop, Usage, line};
use seg_base::{Class, Dba, Lsn, Name, RowNo, Rowid, Scn, Sequence, Text, TxnId, UndoAddr};
use std::alloc::Global;
use std::process::Abort;
use std::test::Fail;

/// Compares the printed lines of an entry.
fn shows(
    rt: &impl Abort,
    alloc: Global,
    at: (u8, Option<u32>),
    outcome: Outcome,
    text: &[u8],
) -> Result<(), Fail> {
    let entry = Entry {
        session: at.0,
        ordinal: at.1,
        begins: Lsn(0),
        ends: Lsn(0),
        moment: 0,
        outcome,
    };
    let printed = line(alloc, &entry)?;
    assert_eq!(rt; printed.as_slice(), text);
    Ok(())
}

fn t(alloc: Global) -> Result<Name, Fail> {
    Ok(Name::copy(alloc, b"t")?.ok_or("no name")?)
}

/// A usage with a count of its own in each place.
const USAGE: Usage = Usage {
    unformatted: 2,
    fs1: 3,
    fs2: 1,
    fs3: 4,
    fs4: 5,
    full: 6,
    low: 7,
    high: 21,
    extents: 8,
};

#[test]
fn changes_are_printed(rt: HostRuntime) -> Result<(), Fail> {
    let a = rt.alloc();
    let name = t(a)?;
    shows(
        &rt,
        a,
        (1, Some(1)),
        Outcome::Table { name },
        b"1.1 table t\n",
    )?;
    let table = t(a)?;
    let on = Outcome::Movement { table, on: true };
    shows(&rt, a, (1, Some(2)), on, b"1.2 movement t on\n")?;
    let table = t(a)?;
    let off = Outcome::Movement { table, on: false };
    shows(&rt, a, (64, Some(3)), off, b"64.3 movement t off\n")?;
    let row = RowNo(281_474_976_710_656);
    shows(
        &rt,
        a,
        (1, Some(4)),
        Outcome::Inserted { row },
        b"1.4 inserted 281474976710656\n",
    )?;
    shows(
        &rt,
        a,
        (2, Some(1)),
        Outcome::Updated { row: RowNo(2) },
        b"2.1 updated 2\n",
    )?;
    shows(
        &rt,
        a,
        (1, Some(10)),
        Outcome::Deleted { row: RowNo(2) },
        b"1.10 deleted 2\n",
    )?;
    shows(
        &rt,
        a,
        (2, Some(2)),
        Outcome::Committed { number: Scn(2) },
        b"2.2 committed 2\n",
    )?;
    shows(
        &rt,
        a,
        (1, Some(5)),
        Outcome::NothingToCommit,
        b"1.5 nothing to commit\n",
    )?;
    shows(
        &rt,
        a,
        (1, Some(6)),
        Outcome::NothingToRollBack,
        b"1.6 nothing to roll back\n",
    )?;
    shows(
        &rt,
        a,
        (1, None),
        Outcome::RolledBack,
        b"1.end rolled back\n",
    )?;
    shows(
        &rt,
        a,
        (1, Some(7)),
        Outcome::Checkpoint,
        b"1.7 checkpoint\n",
    )
}

fn row(alloc: Global, row: u64, bytes: &[u8]) -> Result<RowOut, Fail> {
    let bytes = Text::copy(alloc, bytes)?;
    let row = RowNo(row);
    Ok(RowOut { row, bytes })
}

fn rows(alloc: Global) -> Result<Sequence<RowOut>, Fail> {
    let mut rows = Sequence::new(alloc);
    rows.push(row(alloc, 1, b"hello")?)?;
    rows.push(row(alloc, 12, b" \xFF x")?)?;
    Ok(rows)
}

fn scan(alloc: Global) -> Result<Outcome, Fail> {
    let rows = rows(alloc)?;
    let table = t(alloc)?;
    let at = Scn(1);
    Ok(Outcome::Scan { table, at, rows })
}

fn shrinks_are_printed(rt: &impl Abort, a: Global) -> Result<(), Fail> {
    let table = t(a)?;
    let moved = Outcome::Compacted {
        table,
        moved: 1,
        skipped: 0,
        stop: Stop::Bottom,
    };
    shows(
        rt,
        a,
        (2, Some(1)),
        moved,
        b"2.1 shrink t moved 1 skipped 0 bottom\n",
    )?;
    let table = t(a)?;
    let shrunk = Outcome::Shrunk {
        table,
        moved: 1,
        skipped: 2,
        stop: Stop::NoFit(Rowid {
            dba: Dba(46),
            slot: 3,
        }),
        released: 5,
        high: 4,
    };
    let shown = b"2.1 shrink t moved 1 skipped 2 nofit 46.3 released 5 high 4\n";
    shows(rt, a, (2, Some(1)), shrunk, shown)
}

fn usage_is_printed(rt: &impl Abort, a: Global) -> Result<(), Fail> {
    let table = t(a)?;
    let usage = Outcome::Usage {
        table,
        usage: USAGE,
    };
    let shown =
        b"1.14 usage t unformatted 2 fs1 3 fs2 1 fs3 4 fs4 5 full 6 low 7 high 21 extents 8\n  bytes 8192 12288 4096 16384 20480 24576\n";
    shows(rt, a, (1, Some(14)), usage, shown)
}

fn repairs_are_printed(rt: &impl Abort, a: Global) -> Result<(), Fail> {
    let block = Dba(43);
    let class = Class::Full;
    shows(
        rt,
        a,
        (1, Some(4)),
        Outcome::Fixed { block, class },
        b"1.4 fixed 43 full\n",
    )?;
    let class = Class::Fs3;
    shows(
        rt,
        a,
        (1, Some(5)),
        Outcome::Fixed { block, class },
        b"1.5 fixed 43 fs3\n",
    )?;
    let table = t(a)?;
    let repaired = Outcome::Repaired { table, changed: 1 };
    shows(rt, a, (1, Some(7)), repaired, b"1.7 repaired t changed 1\n")
}

#[test]
fn reports_are_printed(rt: HostRuntime) -> Result<(), Fail> {
    let a = rt.alloc();
    let shown = b"1.4 scan t at 1 rows 2\n  1 hello\n  12  \xFF x\n";
    shows(&rt, a, (1, Some(4)), scan(a)?, shown)?;
    shrinks_are_printed(&rt, a)?;
    usage_is_printed(&rt, a)?;
    repairs_are_printed(&rt, a)
}

/// Compares the line of a refusal.
fn refuses(rt: &impl Abort, alloc: Global, refusal: Refusal, text: &[u8]) -> Result<(), Fail> {
    shows(rt, alloc, (1, Some(2)), Outcome::Refused(refusal), text)
}

fn are_plain(rt: &impl Abort, a: Global) -> Result<(), Fail> {
    refuses(rt, a, Refusal::NoTable, b"1.2 refused no table\n")?;
    refuses(rt, a, Refusal::TableExists, b"1.2 refused table exists\n")?;
    refuses(
        rt,
        a,
        Refusal::TooManyTables,
        b"1.2 refused too many tables\n",
    )?;
    refuses(rt, a, Refusal::MovementOff, b"1.2 refused movement off\n")?;
    refuses(
        rt,
        a,
        Refusal::TransactionOpen,
        b"1.2 refused transaction open\n",
    )?;
    refuses(
        rt,
        a,
        Refusal::ShrinkBusy { session: 3 },
        b"1.2 refused shrink busy 3\n",
    )?;
    refuses(rt, a, Refusal::LogFull, b"1.2 refused log full\n")?;
    let block = Refusal::NotDataBlock { block: Dba(39) };
    refuses(rt, a, block, b"1.2 refused not a data block 39\n")?;
    refuses(
        rt,
        a,
        Refusal::BadValue { value: 6 },
        b"1.2 refused bad value 6\n",
    )?;
    refuses(
        rt,
        a,
        Refusal::Unbound { label: t(a)? },
        b"1.2 refused unbound t\n",
    )?;
    refuses(
        rt,
        a,
        Refusal::NoRow { row: RowNo(9) },
        b"1.2 refused no row 9\n",
    )?;
    refuses(
        rt,
        a,
        Refusal::Busy { txn: TxnId(2) },
        b"1.2 refused busy 2\n",
    )
}

fn are_told(rt: &impl Abort, a: Global) -> Result<(), Fail> {
    let txns = Sequence::from_vec(vec![in a; TxnId(2), TxnId(4), TxnId(3)]?);
    refuses(
        rt,
        a,
        Refusal::NoSlot { txns },
        b"1.2 refused no slot 2 4 3\n",
    )?;
    refuses(
        rt,
        a,
        Refusal::NoSpace { need: 1800 },
        b"1.2 refused no space 1800\n",
    )?;
    refuses(
        rt,
        a,
        Refusal::MaxExtents { count: 900 },
        b"1.2 refused max extents 900\n",
    )?;
    let holders = Sequence::from_vec(vec![in a; (Dba(37), TxnId(1)), (Dba(39), TxnId(7))]?);
    refuses(
        rt,
        a,
        Refusal::UndoFull { holders },
        b"1.2 refused undo full 37=1 39=7\n",
    )?;
    let gone = Refusal::ObjectGone {
        extent: 1,
        lowering: 2,
    };
    refuses(
        rt,
        a,
        gone,
        b"1.2 refused object no longer exists extent 1 lowering 2\n",
    )?;
    let at = UndoAddr {
        block: 37,
        seq: 1,
        nth: 2,
    };
    refuses(
        rt,
        a,
        Refusal::TooOld { at },
        b"1.2 refused snapshot too old undo 37.1.2\n",
    )?;
    let old = Refusal::TooOldEntry { txn: TxnId(5) };
    refuses(rt, a, old, b"1.2 refused snapshot too old transaction 5\n")?;
    refuses(
        rt,
        a,
        Refusal::NeedsBlock { len: 400 },
        b"1.2 refused needs block 400\n",
    )
}

#[test]
fn refusals_are_printed(rt: HostRuntime) -> Result<(), Fail> {
    let a = rt.alloc();
    are_plain(&rt, a)?;
    are_told(&rt, a)?;
    let mut commits = Sequence::new(a);
    for number in 2..18 {
        commits.push(Scn(number))?;
    }
    let shown = b"1.2 refused again 2 3 4 5 6 7 8 9 10 11 12 13 14 15 16 17\n";
    refuses(&rt, a, Refusal::Again { commits }, shown)
}
