// Lines that are refused, each with its cause, and scripts as they are printed again.
use crate::form::{ALL_FORMS, Forms};
use crate::parsing::parse;
use crate::printing::print;
use crate::why::{ScriptFault, Why};
use std::alloc::Global;
use std::process::Abort;
use std::test::Fail;

/// Without flushes, shrinks that lower marks, and checkpoints.
const SOME_FORMS: Forms = Forms {
    flushes: false,
    shrink: false,
    checkpoint: false,
    ..ALL_FORMS
};

/// Why the bytes are no script of these forms.
#[tactic(auto, using(crate::proofs::Cuts::few_lines))]
fn fault(rt: &impl Abort, alloc: Global, forms: &Forms, text: &[u8]) -> Option<ScriptFault> {
    assert!(rt; text.len() < 10_000);
    match parse(alloc, forms, text) {
        Ok(_) => None,
        Err(fault) => Some(fault),
    }
}

const LINES: [(&[u8], u32, Why); 52] = [
    (b"session 1\ntable t 10\ncommit\x07\n", 3, Why::BadByte),
    (b"session 1\ninsert t @a x\x7F\n", 2, Why::BadByte),
    (b"session 1\nco\rmmit\n", 2, Why::BadByte),
    (b"session 1\ninsert t @a x\r\r\n", 2, Why::BadByte),
    (b"session 1\ncommit\r", 2, Why::BadByte),
    (b"\r", 1, Why::BadByte),
    (b"table t 10\n", 1, Why::SessionOrder),
    (b"\n-- first\nsession 2\n", 3, Why::SessionOrder),
    (b"session 1 \n", 1, Why::SessionOrder),
    (b"session 01\n", 1, Why::SessionOrder),
    (b"session 1\nsession 3\n", 2, Why::SessionOrder),
    (b"session 1\nsession\n", 2, Why::SessionOrder),
    (b"session 1\nschedule 1\ncommit\n", 3, Why::SessionOrder),
    (b"session 1\nschedule 1\nsession 2\n", 3, Why::SessionOrder),
    (b"session 1\nselect t\n", 2, Why::NotAStatement),
    (b"session 1\n commit\n", 2, Why::NotAStatement),
    (b"session 1\ncommit \n", 2, Why::NotAStatement),
    (b"session 1\nscan  t\n", 2, Why::NotAStatement),
    (b"session 1\ntable T\n", 2, Why::NotAStatement),
    (b"session 1\ntable T  10\n", 2, Why::NotAStatement),
    (b"session 1\nmovement T maybe\n", 2, Why::NotAStatement),
    (b"session 1\nshrink T now\n", 2, Why::NotAStatement),
    (b"session 1\nfix t 1 2 3\n", 2, Why::NotAStatement),
    (b"session 1\ninsert T @A\n", 2, Why::NotAStatement),
    (b"session 1\ninsert T a x\n", 2, Why::NotAStatement),
    (b"session 1\ninsert t #1 x\n", 2, Why::NotAStatement),
    (b"session 1\ndelete t a\n", 2, Why::NotAStatement),
    (b"session 1\ndelete t \n", 2, Why::NotAStatement),
    (b"session 1\nschedule\n", 2, Why::NotAStatement),
    (b"session 1\nscan \n", 2, Why::BadName),
    (b"session 1\nscan T\nselect\n", 2, Why::BadName),
    (b"session 1\ntable  99\n", 2, Why::BadName),
    (b"session 1\ninsert t @1 \n", 2, Why::BadName),
    (b"session 1\nupdate T #0 x\n", 2, Why::BadName),
    (
        b"session 1\ninsert t @abcdefghijklmnopqrstuvwxyz01234 x\n",
        2,
        Why::BadName,
    ),
    (b"session 1\ntable t 51\n", 2, Why::BadNumber),
    (b"session 1\ntable t 05\n", 2, Why::BadNumber),
    (b"session 1\nupdate t #0 \n", 2, Why::BadNumber),
    (b"session 1\ndelete t #\n", 2, Why::BadNumber),
    (b"session 1\ndelete t #281474976710657\n", 2, Why::BadNumber),
    (b"session 1\nfix t 4294967296\n", 2, Why::BadNumber),
    (b"session 1\nfix t 0 x\n", 2, Why::BadNumber),
    (b"session 1\nschedule 1x0\n", 2, Why::BadNumber),
    (b"session 1\nschedule 1x1000001\n", 2, Why::BadNumber),
    (b"session 1\nschedule 1  1\n", 2, Why::BadNumber),
    (b"session 1\nschedule 9 x\n", 2, Why::BadNumber),
    (b"session 1\ninsert t @a \n", 2, Why::RowEmpty),
    (
        b"session 1\ninsert t @a x\nupdate t @a \n",
        3,
        Why::RowEmpty,
    ),
    (
        b"session 1\ninsert t @a x\ninsert u @a y\n",
        3,
        Why::DuplicateLabel,
    ),
    (
        b"session 1\ninsert t @a x\nsession 2\ninsert t @a y\n",
        4,
        Why::DuplicateLabel,
    ),
    (b"session 1\nschedule 1 2\n", 2, Why::ScheduleSession),
    (
        b"session 1\nschedule 99999999999999999999\n",
        2,
        Why::ScheduleSession,
    ),
];

/// Lines of forms that aren't built.
const CLOSED: [&[u8]; 4] = [
    b"session 1\nshrink t\n",
    b"session 1\nshrink T now\n",
    b"session 1\ncheckpoint\n",
    b"session 1\nschedule 1 0x2\n",
];

#[test]
fn lines_are_refused(rt: HostRuntime) -> Result<(), Fail> {
    for (text, line, why) in LINES {
        let expected = Some(ScriptFault::BadLine { line, why });
        assert_eq!(rt; fault(&rt, rt.alloc(), &ALL_FORMS, text), expected);
    }
    let why = Why::NotAStatement;
    let expected = Some(ScriptFault::BadLine { line: 2, why });
    for text in CLOSED {
        assert_eq!(rt; fault(&rt, rt.alloc(), &SOME_FORMS, text), expected);
    }
    let single = Forms {
        sessions: false,
        schedule: false,
        ..ALL_FORMS
    };
    let texts: [&[u8]; 2] = [b"session 1\nsession 2\n", b"session 1\nschedule 1\n"];
    for text in texts {
        assert_eq!(rt; fault(&rt, rt.alloc(), &single, text), expected);
    }
    Ok(())
}

#[test]
fn rows_have_1800_bytes(rt: HostRuntime) -> Result<(), Fail> {
    let mut text = Vec::from_slice(rt.alloc(), b"session 1\ninsert t @a ")?;
    for _ in 0..1800 {
        text.push(b'x')?;
    }
    assert_eq!(rt; fault(&rt, rt.alloc(), &SOME_FORMS, &text), None);
    text.push(b'\n')?;
    assert_eq!(rt; fault(&rt, rt.alloc(), &SOME_FORMS, &text), None);
    text.pop();
    text.push(b'x')?;
    let why = Why::RowTooLong;
    let expected = Some(ScriptFault::BadLine { line: 2, why });
    assert_eq!(rt; fault(&rt, rt.alloc(), &SOME_FORMS, &text), expected);
    Ok(())
}

/// Parses, prints and compares.
#[tactic(auto, using(crate::proofs::Cuts::few_lines))]
fn prints(
    rt: &impl Abort,
    alloc: Global,
    forms: &Forms,
    text: &[u8],
    printed: &[u8],
) -> Result<(), Fail> {
    assert!(rt; text.len() < 10_000);
    let scripts = parse(alloc, forms, text)?;
    assert_eq!(rt; print(alloc, &scripts)?.as_slice(), printed);
    Ok(())
}

/// Two sessions, as they are printed.
const BUSY: &[u8] =
    b"session 1\ntable t 10\ninsert t @a one\ncommit\nupdate t @a two\ncommit\nsession 2\nupdate t @a three\nupdate t @a three\ncommit\nscan t\nschedule 1x8 2x2 1x2\n";

/// Every form, with comments, empty lines, a CR before each LF, and no last LF.
const FORMS: &[u8] =
    b"\r\n-- \x00\xFF\r\r\nsession 1\r\n--\r\ntable t 0\r\nmovement t on\r\nmovement t off\r\ninsert t @k_1  \xFF --x\r\nupdate t @k_1 #\r\nupdate t #281474976710656 y\r\ndelete t @k_1\r\ndelete t #1\r\ncommit\r\nrollback\r\nscan t\r\n\r\nsession 2\r\nsession 3\r\nshrink t\r\nshrink t compact\r\nusage t\r\nfix t 43\r\nfix t 4294967295 0\r\nrepair t\r\ncheckpoint\r\nschedule 0 3x1000000\r\nschedule 2x1\r\n-- \r";

const FORMS_PRINTED: &[u8] =
    b"session 1\ntable t 0\nmovement t on\nmovement t off\ninsert t @k_1  \xFF --x\nupdate t @k_1 #\nupdate t #281474976710656 y\ndelete t @k_1\ndelete t #1\ncommit\nrollback\nscan t\nsession 2\nsession 3\nshrink t\nshrink t compact\nusage t\nfix t 43\nfix t 4294967295 0\nrepair t\ncheckpoint\nschedule 0 3x1000000 2\n";

#[test]
fn scripts_are_printed(rt: HostRuntime) -> Result<(), Fail> {
    let alloc = rt.alloc();
    prints(&rt, alloc, &ALL_FORMS, BUSY, BUSY)?;
    prints(&rt, alloc, &ALL_FORMS, FORMS, FORMS_PRINTED)?;
    prints(&rt, alloc, &ALL_FORMS, FORMS_PRINTED, FORMS_PRINTED)?;
    prints(&rt, alloc, &SOME_FORMS, BUSY, BUSY)?;
    prints(&rt, alloc, &SOME_FORMS, b"-- nothing", b"")?;
    let scripts = parse(alloc, &SOME_FORMS, b"session 1\nscan t")?;
    assert_eq!(rt; scripts.sessions().len(), 1);
    assert_eq!(rt; scripts.schedule().len(), 0);
    assert_eq!(rt;
        print(alloc, &scripts)?.as_slice(),
        b"session 1\nscan t\n".as_slice()
    );
    Ok(())
}
