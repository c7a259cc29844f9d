// Runs that are summed up, and the text that names the commands. The numbers are worked out by hand from the rule by which a script
// is made.
use super::{check, made};
use crate::status::Status;
use crate::usage::usage_text;
use std::process::Abort;
use std::test::Fail;

/// Of 1 the first three rows have 22, 44 and 68 bytes, of which the second is deleted. A script makes its table, switches its movement,
/// inserts, commits, deletes, commits, shrinks and scans. In the store of a run before it the table is there, with rows and commits.
#[test]
fn made_scripts_are_summed_up(rt: HostRuntime) -> Result<(), Fail> {
    let calls: [(&[&str], &[u8]); 3] = [
        (
            &["gen", "1", "3"],
            b"entries 10 refused 0 commits 2 rows 2 bytes 90\n",
        ),
        (
            &["gen", "1", "1"],
            b"entries 7 refused 1 commits 3 rows 3 bytes 112\n",
        ),
        (
            &["gen", "4294967295", "1"],
            b"entries 7 refused 1 commits 4 rows 4 bytes 140\n",
        ),
    ];
    let mut disk = made(&rt, rt.alloc())?;
    for (words, line) in calls {
        check(&rt, rt.alloc(), words, &mut disk, b"", (Status::Done, line))?;
    }
    Ok(())
}

/// Neither the source nor the disk is called.
#[test]
fn numbers_out_of_range_are_refused(rt: HostRuntime) -> Result<(), Fail> {
    let calls: [&[&str]; 6] = [
        &["gen", "1", "0"],
        &["gen", "1", "20001"],
        &["gen", "4294967296", "1"],
        &["gen", "01", "1"],
        &["gen", "-1", "1"],
        &["gen", "1"],
    ];
    for words in calls {
        let mut disk = made(&rt, rt.alloc())?;
        check(
            &rt,
            rt.alloc(),
            words,
            &mut disk,
            b"",
            (Status::BadWords, b""),
        )?;
    }
    Ok(())
}

#[test]
fn the_usage_text_names_each_command(rt: HostRuntime) -> Result<(), Fail> {
    let text = usage_text(rt.alloc())?;
    for command in ["format", "run", "usage", "repair", "check", "gen"] {
        let is_named = text
            .as_str()
            .lines()
            .any(|line| line.trim_start().starts_with(command));
        assert!(&rt; is_named);
    }
    Ok(())
}
