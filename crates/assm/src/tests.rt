// What no clause says: that memory in plenty is enough, the bytes that are made, and texts against the formats page. What a
// run over real files prints is the crate's stored run.
mod rows;
mod shrinks;
mod sums;

use crate::status::{Status, StatusLine};
use crate::top::run_program;
use disk_model::{Disk, File, Memory, Stopping, Tear};
use script_text::Why;
use seg_base::Open;
use std::alloc::Global;
use std::process::Abort;
use std::sync::Wait;
use std::test::Fail;
use std::thread::Threads;
use text_port::{MemorySink, MemorySource, put, put_number};

const FORMAT: [&str; 4] = ["format", "64", "8", "2"];

const RUN: [&str; 1] = ["run"];

const FORMATTED: &[u8] = b"formatted 64 8 2 extents 3\n";

const ROW: &[u8] = b"session 1\ntable t 10\ninsert t @a hello\ncommit\nscan t\nscan u\n";

const ROW_TEXT: &[u8] =
    b"1.1 table t\n1.2 inserted 1\n1.3 committed 1\n1.4 scan t at 1 rows 1\n  1 hello\n1.5 refused no table\n";

fn words_of(alloc: Global, words: &[&str]) -> Result<Vec<String>, Fail> {
    let mut all = Vec::new(alloc);
    for word in words {
        all.push(String::from_str(alloc, word)?)?;
    }
    Ok(all)
}

/// One call, whose sink takes 7 bytes at a time and fails at this call: how it ends, and what it prints.
fn call<R: Threads + Wait + Sync, D: Disk + Send>(
    rt: &R,
    alloc: Global,
    words: &[&str],
    disk: &mut D,
    script: &[u8],
    fails_at: u64,
) -> Result<(Status, MemorySink), Fail> {
    let words = words_of(alloc, words)?;
    let mut source = MemorySource::new(alloc, script, &[])?;
    let mut sink = MemorySink::new(alloc, 7, &[fails_at])?;
    let status = run_program(rt, alloc, &words, disk, &mut source, &mut sink, &Open);
    Ok((status, sink))
}

/// A call ends so, and prints this.
fn check<R: Threads + Wait + Sync + Abort, D: Disk + Send>(
    rt: &R,
    alloc: Global,
    words: &[&str],
    disk: &mut D,
    script: &[u8],
    wanted: (Status, &[u8]),
) -> Result<(), Fail> {
    let (status, sink) = call(rt, alloc, words, disk, script, u64::MAX)?;
    assert_eq!(rt; status, wanted.0);
    assert_eq!(rt; sink.bytes(), wanted.1);
    Ok(())
}

/// An empty store of 64 blocks.
fn made<R: Threads + Wait + Sync + Abort>(rt: &R, alloc: Global) -> Result<Memory, Fail> {
    let mut disk = Memory::new(alloc, &[], &[], &[])?;
    check(
        rt,
        alloc,
        &FORMAT,
        &mut disk,
        b"",
        (Status::Done, FORMATTED),
    )?;
    Ok(disk)
}

#[test]
fn scripts_print_their_entries(rt: HostRuntime) -> Result<(), Fail> {
    let cases: [(&[u8], &[u8]); 4] = [
        (ROW, ROW_TEXT),
        (b"", b""),
        (
            b"session 1\ntable t 10\nscan t\n",
            b"1.1 table t\n1.2 scan t at 0 rows 0\n",
        ),
        (
            b"session 1\ncommit\ninsert t @a x\ntable t 50\ntable t 10\ninsert t @b y\ntable u 10",
            b"1.1 nothing to commit\n1.2 refused no table\n1.3 table t\n1.4 refused table exists\n1.5 inserted 1\n1.6 refused transaction open\n1.end rolled back\n",
        ),
    ];
    for (script, text) in cases {
        let mut disk = made(&rt, rt.alloc())?;
        check(
            &rt,
            rt.alloc(),
            &RUN,
            &mut disk,
            script,
            (Status::Done, text),
        )?;
    }
    Ok(())
}

/// Refused before the disk is called: its first call would fail.
#[test]
fn words_and_scripts_are_refused(rt: HostRuntime) -> Result<(), Fail> {
    let bad = |line, why| Status::BadScript { line, why };
    let cases: [(&[&str], &[u8], Status); 10] = [
        (&[], ROW, Status::BadWords),
        (&["run", "now"], ROW, Status::BadWords),
        (&["usage", "-t"], ROW, Status::BadWords),
        (&["repair"], ROW, Status::BadWords),
        (&["check", "t"], ROW, Status::BadWords),
        (&["format", "63", "8", "2"], ROW, Status::BadWords),
        (&["format", "064", "8", "2"], ROW, Status::BadWords),
        (&RUN, b"table t 10\n", bad(1, Why::SessionOrder)),
        (&RUN, b"session 1\ntable t 010\n", bad(2, Why::BadNumber)),
        (
            &RUN,
            b"session 1\ncommit\ncheckpoint\n",
            bad(3, Why::NotAStatement),
        ),
    ];
    for (words, script, status) in cases {
        let mut disk = Memory::new(rt.alloc(), &[], &[], &[0])?;
        check(&rt, rt.alloc(), words, &mut disk, script, (status, b""))?;
    }
    let mut disk = Memory::new(rt.alloc(), &[], &[], &[0])?;
    check(
        &rt,
        rt.alloc(),
        &RUN,
        &mut disk,
        ROW,
        (Status::DeviceFault, b""),
    )
}

/// The head of a log, whose name ends with this digit.
fn head_of(digit: u8) -> [u8; 64] {
    let mut head = [0; 64];
    head[..21].copy_from_slice(b"\x01ASSMSEG1\0\0\0\x40\0\0\0\x08\0\0\0\x02");
    head[8] = digit;
    head
}

#[test]
fn logs_of_no_store_are_refused(rt: HostRuntime) -> Result<(), Fail> {
    let earlier = Status::BadFile {
        file: File::Log,
        offset: 8,
        seen: 48,
    };
    let short = Status::BadFile {
        file: File::Data,
        offset: 0,
        seen: 0,
    };
    let cases: [(&[u8], Status); 3] = [
        (&[], Status::NotFormatted),
        (&head_of(b'0'), earlier),
        (&head_of(b'1'), short),
    ];
    for (log, status) in cases {
        let mut disk = Memory::new(rt.alloc(), &[], log, &[])?;
        check(&rt, rt.alloc(), &RUN, &mut disk, ROW, (status, b""))?;
    }
    Ok(())
}

/// The sink fails at each write of 7 bytes in turn.
#[test]
fn a_fault_of_the_sink_is_told(rt: HostRuntime) -> Result<(), Fail> {
    for fails_at in 0..8u64 {
        let mut disk = made(&rt, rt.alloc())?;
        let (status, sink) = call(&rt, rt.alloc(), &RUN, &mut disk, ROW, fails_at)?;
        assert_eq!(rt; status, Status::WriteFault);
        assert!(rt; ROW_TEXT.starts_with(sink.bytes()));
    }
    Ok(())
}

/// The second line is too long for any statement, so that the greatest script is refused by its grammar.
#[test]
fn scripts_end_at_sixteen_mebibytes(rt: HostRuntime) -> Result<(), Fail> {
    let mut script = Vec::from_slice(rt.alloc(), b"session 1\n")?;
    script.resize(1 << 24, b'x')?;
    let why = Why::NotAStatement;
    let mut disk = Memory::new(rt.alloc(), &[], &[], &[])?;
    let refused = Status::BadScript { line: 2, why };
    check(&rt, rt.alloc(), &RUN, &mut disk, &script, (refused, b""))?;
    script.push(b'x')?;
    check(
        &rt,
        rt.alloc(),
        &RUN,
        &mut disk,
        &script,
        (Status::ScriptTooLong, b""),
    )
}

fn put_insert(script: &mut Vec<u8>, nth: u64, len: usize) -> Result<(), Fail> {
    put(script, b"insert t @a")?;
    put_number(script, nth)?;
    put(script, b" ")?;
    for _ in 0..len {
        put(script, b"x")?;
    }
    put(script, b"\n")?;
    Ok(())
}

#[test]
fn rows_have_at_most_1800_bytes(rt: HostRuntime) -> Result<(), Fail> {
    let why = Why::RowTooLong;
    let cases: [(usize, Status, &[u8]); 2] = [
        (
            1800,
            Status::Done,
            b"1.1 table t\n1.2 inserted 1\n1.end rolled back\n",
        ),
        (1801, Status::BadScript { line: 3, why }, b""),
    ];
    for (len, status, text) in cases {
        let mut script = Vec::from_slice(rt.alloc(), b"session 1\ntable t 10\n")?;
        put_insert(&mut script, 1, len)?;
        let mut disk = made(&rt, rt.alloc())?;
        check(&rt, rt.alloc(), &RUN, &mut disk, &script, (status, text))?;
    }
    Ok(())
}

/// The eighteen data blocks of a store of 64 blocks take one row of 1,800 bytes each.
fn filling(alloc: Global) -> Result<Vec<u8>, Fail> {
    let mut script = Vec::from_slice(alloc, b"session 1\ntable t 50\n")?;
    for nth in 1..20 {
        put_insert(&mut script, nth, 1800)?;
    }
    put(&mut script, b"commit\ndelete t @a1\ncommit\n")?;
    put_insert(&mut script, 20, 1800)?;
    put(&mut script, b"commit\n")?;
    Ok(script)
}

#[test]
fn a_store_is_full_and_takes_a_row_again(rt: HostRuntime) -> Result<(), Fail> {
    let script = filling(rt.alloc())?;
    let mut disk = made(&rt, rt.alloc())?;
    let (status, sink) = call(&rt, rt.alloc(), &RUN, &mut disk, &script, u64::MAX)?;
    assert_eq!(rt; status, Status::Done);
    assert!(rt;
        sink.bytes().ends_with(
            b"1.19 inserted 18\n1.20 refused no space 1800\n1.21 committed 1\n1.22 deleted 1\n1.23 committed 2\n1.24 inserted 19\n1.25 committed 3\n"
        )
    );
    Ok(())
}

#[test]
fn a_store_is_made_once_and_keeps_its_rows(rt: HostRuntime) -> Result<(), Fail> {
    let mut disk = made(&rt, rt.alloc())?;
    call(&rt, rt.alloc(), &RUN, &mut disk, ROW, u64::MAX)?;
    let cases: [(&[&str], Status, &[u8]); 5] = [
        (&FORMAT, Status::AlreadyFormatted, b""),
        (
            &["check"],
            Status::Done,
            b"records 9 commits 1 tables 1 inexact 0\n",
        ),
        (&RUN, Status::Done, b"1.1 scan t at 1 rows 1\n  1 hello\n"),
        (
            &["usage", "t"],
            Status::Done,
            b"1.1 usage t unformatted 3 fs1 0 fs2 0 fs3 0 fs4 1 full 0 low 0 high 4 extents 1\n  bytes 12288 0 0 0 4096 0\n",
        ),
        (
            &["repair", "t"],
            Status::Done,
            b"1.1 repaired t changed 0\n",
        ),
    ];
    for (words, status, text) in cases {
        check(
            &rt,
            rt.alloc(),
            words,
            &mut disk,
            b"session 1\nscan t",
            (status, text),
        )?;
    }
    Ok(())
}

/// What a run prints before its commit is acknowledged.
const BEFORE_COMMIT: &[u8] = b"1.1 table t\n1.2 inserted 1\n";

/// A run of one commit is stopped at each write, and the torn bytes are lost. What is opened then has the row, where its
/// commit was printed.
#[test]
fn a_printed_commit_survives_each_stop(rt: HostRuntime) -> Result<(), Fail> {
    for writes in 0..6 {
        let mut disk = Stopping::new(made(&rt, rt.alloc())?, writes);
        let (_, sink) = call(&rt, rt.alloc(), &RUN, &mut disk, ROW, u64::MAX)?;
        let stopped = disk.into_disk();
        let mut image = stopped.crashed(stopped.moment(), Tear::Zero)?;
        let (after, scan) = call(
            &rt,
            rt.alloc(),
            &RUN,
            &mut image,
            b"session 1\nscan t",
            u64::MAX,
        )?;
        assert_eq!(rt; after, Status::Done);
        let is_kept = scan.bytes().ends_with(b"  1 hello\n");
        assert!(rt; is_kept || BEFORE_COMMIT.starts_with(sink.bytes()));
        assert!(rt; is_kept == (writes >= 3));
    }
    Ok(())
}

#[test]
fn a_status_is_printed_with_its_fields(rt: HostRuntime) -> Result<(), Fail> {
    let why = Why::BadName;
    let file = File::Data;
    let cases = [
        (Status::Done, 0, "assm: Done"),
        (Status::BadWords, 1, "assm: BadWords"),
        (
            Status::BadScript { line: 3, why },
            2,
            "assm: BadScript 3 BadName",
        ),
        (Status::DeviceFault, 3, "assm: DeviceFault"),
        (Status::NoMemory, 4, "assm: NoMemory"),
        (
            Status::BadFile {
                file,
                offset: 176_128,
                seen: 255,
            },
            5,
            "assm: BadFile data 176128 255",
        ),
        (Status::NotFormatted, 6, "assm: NotFormatted"),
        (Status::ReadFault, 7, "assm: ReadFault"),
        (Status::WriteFault, 8, "assm: WriteFault"),
        (Status::ScriptTooLong, 9, "assm: ScriptTooLong"),
        (Status::AlreadyFormatted, 10, "assm: AlreadyFormatted"),
    ];
    for (status, number, text) in cases {
        assert_eq!(rt; status.number(), number);
        assert_eq!(rt; StatusLine { status }.to_string(rt.alloc())?.as_str(), text);
    }
    Ok(())
}
