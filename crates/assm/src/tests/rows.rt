// Scripts of several sessions, with their schedules, and the lines with which their runs end, worked out by hand. `{1800x}` stands
// for 1,800 letters x.
use super::call;
use crate::status::Status;
use disk_model::Memory;
use std::alloc::Global;
use std::process::Abort;
use std::sync::Wait;
use std::test::Fail;
use std::thread::Threads;
use text_port::{MemorySink, put, put_number};

/// The letters that stand for one piece in braces.
fn put_letters(text: &mut Vec<u8>, piece: &[u8]) -> Result<(), Fail> {
    let mut count = 0u32;
    for byte in piece {
        if byte.is_ascii_digit() {
            count = count.wrapping_mul(10).wrapping_add(u32::from(*byte - b'0'));
        } else {
            for _ in 0..count {
                text.push(*byte)?;
            }
        }
    }
    Ok(())
}

fn spelled(alloc: Global, text: &[u8]) -> Result<Vec<u8>, Fail> {
    let mut whole = Vec::new(alloc);
    for (nth, piece) in text
        .split(|byte| *byte == b'{' || *byte == b'}')
        .enumerate()
    {
        if nth % 2 == 0 {
            put(&mut whole, piece)?;
        } else {
            put_letters(&mut whole, piece)?;
        }
    }
    Ok(whole)
}

/// What a run of a script prints over a new store, of 64 blocks unless it is said otherwise.
fn run_over<R: Threads + Wait + Sync + Abort>(
    rt: &R,
    alloc: Global,
    format: [&str; 4],
    script: &[u8],
) -> Result<MemorySink, Fail> {
    let mut disk = Memory::new(alloc, &[], &[], &[])?;
    let (made, _) = call(rt, alloc, &format, &mut disk, b"", u64::MAX)?;
    assert_eq!(rt; made, Status::Done);
    let (status, sink) = call(rt, alloc, &["run"], &mut disk, script, u64::MAX)?;
    assert_eq!(rt; status, Status::Done);
    Ok(sink)
}

/// A run over a store of 64 blocks with so many undo blocks ends with these lines.
pub fn ends<R: Threads + Wait + Sync + Abort>(
    rt: &R,
    alloc: Global,
    undo: &str,
    script: &[u8],
    last: &[u8],
) -> Result<(), Fail> {
    let script = spelled(alloc, script)?;
    let last = spelled(alloc, last)?;
    let sink = run_over(rt, alloc, ["format", "64", "8", undo], &script)?;
    assert!(rt; sink.bytes().ends_with(&last));
    Ok(())
}

const SCAN_BESIDE_COMMIT: &[u8] =
    b"session 1\ntable t 50\ninsert t @a {1800x}\ninsert t @b {1800y}\ncommit\nscan t\nsession 2\nupdate t @b z\ncommit\nschedule 1x13 2x3 1\n";

const OLD_SNAPSHOT: &[u8] =
    b"session 1\ntable t 0\ninsert t @a {1800x}\ncommit\nscan t\nsession 2\nupdate t @a {1800y}\ncommit\nupdate t @a {1800y}\ncommit\nupdate t @a {1800y}\ncommit\nupdate t @a {1800y}\ncommit\nupdate t @a {1800y}\ncommit\nschedule 1x8 2x20 1\n";

const FULL_UNDO: &[u8] =
    b"session 1\ntable t 0\ninsert t @a {1800x}\nupdate t @a {1800y}\nupdate t @a {1800y}\nupdate t @a {1800y}\nupdate t @a {1800y}\ninsert t @b b\ninsert t @c c\ninsert t @d d\ninsert t @e e\nrollback\nsession 2\ninsert t @f f\ninsert t @g g\ncommit\nschedule 1x17 2 1x11 2\n";

const FULL_LIST: &[u8] =
    b"session 1\ntable t 10\ninsert t @a1 a\ninsert t @a2 a\ninsert t @a3 a\ninsert t @a4 a\ninsert t @a5 a\ninsert t @a6 a\ninsert t @a7 a\ninsert t @a8 a\ninsert t @a9 a\ncommit\nupdate t @a1 b\nsession 2\nupdate t @a2 b\nsession 3\nupdate t @a3 b\nsession 4\nupdate t @a4 b\nsession 5\nupdate t @a5 b\nsession 6\nupdate t @a6 b\nsession 7\nupdate t @a7 b\nsession 8\nupdate t @a8 b\nsession 9\nupdate t @a9 b\nschedule 1x16 2x2 3x2 4x2 5x2 6x2 7x2 8x2 9x2\n";

/// Each session's first events, in turns from session 1 on: the second scan begins once the table has blocks, the third once one
/// of them is formatted, and reads it after the insert.
const TURNS: &[u8] =
    b"session 1\ntable t 10\ninsert t @a a\ncommit\nsession 2\nscan t\nscan t\nscan t\n";

#[test]
fn sessions_run_beside_one_another(rt: HostRuntime) -> Result<(), Fail> {
    let cases: [(&str, &[u8], &[u8]); 6] = [
        (
            "2",
            SCAN_BESIDE_COMMIT,
            b"1.1 table t\n1.2 inserted 1\n1.3 inserted 2\n1.4 committed 1\n2.1 updated 2\n2.2 committed 2\n1.5 scan t at 1 rows 2\n  1 {1800x}\n  2 {1800y}\n",
        ),
        (
            "2",
            OLD_SNAPSHOT,
            b"1.4 refused snapshot too old undo 37.1.2\n",
        ),
        ("3", OLD_SNAPSHOT, b"1.4 scan t at 1 rows 1\n  1 {1800x}\n"),
        (
            "2",
            FULL_UNDO,
            b"1.10 inserted 5\n2.1 refused undo full 37=1\n1.11 rolled back\n2.2 inserted 6\n2.3 committed 1\n",
        ),
        (
            "2",
            FULL_LIST,
            b"9.1 refused no slot 2 3 4 5 6 7 8 9\n1.end rolled back\n2.end rolled back\n3.end rolled back\n4.end rolled back\n5.end rolled back\n6.end rolled back\n7.end rolled back\n8.end rolled back\n",
        ),
        (
            "2",
            TURNS,
            b"1.1 table t\n2.1 scan t at 0 rows 0\n2.2 scan t at 0 rows 0\n1.2 inserted 1\n2.3 scan t at 0 rows 0\n1.3 committed 1\n",
        ),
    ];
    for (undo, script, last) in cases {
        ends(&rt, rt.alloc(), undo, script, last)?;
    }
    Ok(())
}

/// Row 1 goes to block 44, whose rows then fill it. As row 2 is gone, it goes back to its head, is deleted there, and the rollback
/// gives back the row at its body.
const MIGRATION: &[u8] =
    b"session 1\ntable t 0\nmovement t on\ninsert t @a {100x}\ninsert t @b {1800y}\ninsert t @c {1800z}\ncommit\nupdate t @a {400w}\nscan t\ncommit\ninsert t @d {1800d}\ninsert t @e {1700e}\ndelete t @b\ncommit\nupdate t @a {500v}\ndelete t @a\nscan t\nrollback\nscan t\ndelete t @a\nscan t\n";

const USAGE: &[u8] =
    b"session 1\ntable t 25\ninsert t @a {1472x}\ninsert t @b {1472x}\nusage t\ninsert t @c y\nusage t\ncommit\n";

const FIX: &[u8] =
    b"session 1\ntable t 10\ninsert t @a hello\ncommit\nfix t 43 1\ninsert t @b world\nusage t\nrepair t\nusage t\nfix t 43 6\nfix t 39\ncommit\nrepair u\n";

#[test]
fn rows_move_and_blocks_are_counted(rt: HostRuntime) -> Result<(), Fail> {
    let cases: [(&[u8], &[u8]); 3] = [
        (
            MIGRATION,
            b"1.6 committed 1\n1.7 updated 1\n1.8 scan t at 1 rows 3\n  1 {400w}\n  2 {1800y}\n  3 {1800z}\n1.9 committed 2\n1.10 inserted 4\n1.11 inserted 5\n1.12 deleted 2\n1.13 committed 3\n1.14 updated 1\n1.15 deleted 1\n1.16 scan t at 3 rows 3\n  3 {1800z}\n  4 {1800d}\n  5 {1700e}\n1.17 rolled back\n1.18 scan t at 3 rows 4\n  1 {400w}\n  3 {1800z}\n  4 {1800d}\n  5 {1700e}\n1.19 deleted 1\n1.20 scan t at 3 rows 3\n  3 {1800z}\n  4 {1800d}\n  5 {1700e}\n1.end rolled back\n",
        ),
        (
            USAGE,
            b"1.4 usage t unformatted 3 fs1 0 fs2 1 fs3 0 fs4 0 full 0 low 0 high 4 extents 1\n  bytes 12288 0 4096 0 0 0\n1.5 inserted 3\n1.6 usage t unformatted 2 fs1 0 fs2 1 fs3 0 fs4 1 full 0 low 0 high 4 extents 1\n  bytes 8192 0 4096 0 4096 0\n1.7 committed 1\n",
        ),
        (
            FIX,
            b"1.4 fixed 43 full\n1.5 inserted 2\n1.6 usage t unformatted 2 fs1 0 fs2 0 fs3 0 fs4 1 full 1 low 0 high 4 extents 1\n  bytes 8192 0 0 0 4096 4096\n1.7 repaired t changed 1\n1.8 usage t unformatted 2 fs1 0 fs2 0 fs3 0 fs4 2 full 0 low 0 high 4 extents 1\n  bytes 8192 0 0 0 8192 0\n1.9 refused bad value 6\n1.10 refused not a data block 39\n1.11 committed 2\n1.12 refused no table\n",
        ),
    ];
    for (script, last) in cases {
        ends(&rt, rt.alloc(), "2", script, last)?;
    }
    Ok(())
}

/// A repair lists one block in its first event and settles it in its second, so that the other session's end of a transaction stands
/// before or after it by the schedule.
#[test]
fn a_repair_settles_a_block_an_event(rt: HostRuntime) -> Result<(), Fail> {
    let cases: [(&[u8], &[u8]); 2] = [
        (
            b"session 1\ntable t 10\ninsert t @a hello\ncommit\ncommit\nsession 2\nrepair t\nschedule 1x5 2x2 1x2\n",
            b"1.3 committed 1\n2.1 repaired t changed 0\n1.4 nothing to commit\n",
        ),
        (
            b"session 1\ntable t 10\ninsert t @a hello\ncommit\ncommit\nsession 2\nrepair t\nschedule 1x5 2 1x2 2\n",
            b"1.3 committed 1\n1.4 nothing to commit\n2.1 repaired t changed 0\n",
        ),
    ];
    for (script, last) in cases {
        ends(&rt, rt.alloc(), "2", script, last)?;
    }
    Ok(())
}

/// An update that starts again after each of sixteen commits.
fn restarts(alloc: Global) -> Result<Vec<u8>, Fail> {
    let mut script = Vec::from_slice(alloc, b"session 1\ntable t 10\ninsert t @a a\ncommit\n")?;
    for _ in 0..16 {
        put(&mut script, b"update t @a b\ncommit\n")?;
    }
    put(&mut script, b"session 2\nupdate t @a c\nschedule 1x6")?;
    for _ in 0..16 {
        put(&mut script, b" 2 1x4 2")?;
    }
    put(&mut script, b"\n")?;
    Ok(script)
}

/// Eleven hundred inserts in one transaction, which take as many turns and more.
fn inserts(alloc: Global) -> Result<Vec<u8>, Fail> {
    let mut script = Vec::from_slice(alloc, b"session 1\ntable t 10\n")?;
    for nth in 0..1_100 {
        put(&mut script, b"insert t @r")?;
        put_number(&mut script, nth)?;
        put(&mut script, b" x\n")?;
    }
    put(&mut script, b"commit\n")?;
    Ok(script)
}

#[test]
fn sessions_make_many_events(rt: HostRuntime) -> Result<(), Fail> {
    let alloc = rt.alloc();
    let script = restarts(alloc)?;
    let sink = run_over(&rt, alloc, ["format", "64", "8", "2"], &script)?;
    assert!(rt;
        sink.bytes().ends_with(b"2.1 refused again 2 3 4 5 6 7 8 9 10 11 12 13 14 15 16 17\n")
    );
    let script = inserts(alloc)?;
    let sink = run_over(&rt, alloc, ["format", "128", "8", "20"], &script)?;
    assert!(rt;
        sink.bytes()
            .ends_with(b"1.1101 inserted 1100\n1.1102 committed 1\n")
    );
    Ok(())
}
