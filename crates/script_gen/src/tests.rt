// Scripts and lines worked out outside of this program, from the rule alone.
use crate::{generate, summary};
use history_text::{Entry, Outcome, Refusal, RowOut};
use script_text::print;
use seg_base::{Lsn, Name, RowNo, Scn, Sequence, Text};
use std::alloc::Global;
use std::process::Abort;
use std::test::Fail;

fn spells(rt: &impl Abort, alloc: Global, number: u32, rows: u16, text: &[u8]) -> Result<(), Fail> {
    let scripts = generate(alloc, number, rows)?;
    let printed = print(alloc, &scripts)?;
    assert_eq!(rt; printed.as_slice(), text);
    Ok(())
}

/// Rows of 64, 66 and 30 bytes, of the letters m, e and a; of 22, q; of 28, r.
#[test]
fn rows_and_commits_are_as_the_rule_says(rt: HostRuntime) -> Result<(), Fail> {
    let a = rt.alloc();
    spells(
        &rt,
        a,
        7,
        3,
        b"session 1\ntable g 10\nmovement g on\ninsert g @r1 mmmmmmmmmmmmmmmmmmmmmmmmmmmmmmmmmmmmmmmmmmmmmmmmmmmmmmmmmmmmmmmm\ninsert g @r2 eeeeeeeeeeeeeeeeeeeeeeeeeeeeeeeeeeeeeeeeeeeeeeeeeeeeeeeeeeeeeeeeee\ninsert g @r3 aaaaaaaaaaaaaaaaaaaaaaaaaaaaaa\ncommit\ndelete g @r2\ncommit\nshrink g\nscan g\n",
    )?;
    spells(
        &rt,
        a,
        1,
        1,
        b"session 1\ntable g 10\nmovement g on\ninsert g @r1 qqqqqqqqqqqqqqqqqqqqqq\ncommit\ncommit\nshrink g\nscan g\n",
    )?;
    spells(
        &rt,
        a,
        4_294_967_295,
        1,
        b"session 1\ntable g 10\nmovement g on\ninsert g @r1 rrrrrrrrrrrrrrrrrrrrrrrrrrrr\ncommit\ncommit\nshrink g\nscan g\n",
    )
}

/// A hundred rows have one commit, and one more has another; 11,000 rows make 16,615 statements.
#[test]
fn statements_are_as_many(rt: HostRuntime) -> Result<(), Fail> {
    for (rows, statements) in [
        (99, 154),
        (100, 156),
        (101, 158),
        (200, 307),
        (11_000, 16_615),
    ] {
        let scripts = generate(rt.alloc(), 7, rows)?;
        for session in scripts.sessions() {
            assert_eq!(&rt; session.len(), statements);
        }
    }
    Ok(())
}

fn told(outcome: Outcome) -> Entry {
    Entry {
        session: 1,
        ordinal: Some(1),
        begins: Lsn(0),
        ends: Lsn(0),
        moment: 0,
        outcome,
    }
}

fn scanned(alloc: Global, rows: &[&[u8]]) -> Result<Entry, Fail> {
    let mut all = Sequence::new(alloc);
    for row in rows {
        let bytes = Text::copy(alloc, row)?;
        all.push(RowOut {
            row: RowNo(1),
            bytes,
        })?;
    }
    Ok(told(Outcome::Scan {
        table: Name::copy(alloc, b"g")?.ok_or("no name")?,
        at: Scn(2),
        rows: all,
    }))
}

/// The last scan that completed counts: neither an earlier one, nor one that was refused after it.
#[test]
fn the_line_sums_up(rt: HostRuntime) -> Result<(), Fail> {
    let a = rt.alloc();
    let none = summary(a, &[], Scn(0))?;
    assert_eq!(&rt;
        none.as_slice(),
        b"entries 0 refused 0 commits 0 rows 0 bytes 0\n".as_slice()
    );
    let entries = [
        scanned(a, &[b"one", b"two", b"three"])?,
        scanned(a, &[b"four", b"eleven"])?,
        told(Outcome::Refused(Refusal::NoTable)),
    ];
    let some = summary(a, &entries, Scn(7))?;
    assert_eq!(&rt;
        some.as_slice(),
        b"entries 3 refused 1 commits 7 rows 2 bytes 10\n".as_slice()
    );
    Ok(())
}
