// Scripts of shrinks, and the lines with which their runs end, worked out by hand: rows that move behind a scan and before an update,
// extents that are released, and two sessions at one table.
use super::rows::ends;
use std::test::Fail;

/// Row 2 goes from a block that the scan has yet to read to one that it has read.
const MOVED_BEHIND_A_SCAN: &[u8] =
    b"session 1\ntable t 50\nmovement t on\ninsert t @a {1800x}\ninsert t @b {1800y}\ncommit\ndelete t @a\ncommit\nscan t\nsession 2\nshrink t compact\nschedule 1x18 2x5 1\n";

/// Row 3 is moved twice before the scan reads a block.
const MOVED_TWICE: &[u8] =
    b"session 1\ntable t 50\nmovement t on\ninsert t @a {1800x}\ninsert t @b {1800y}\ninsert t @c {1800z}\ncommit\ndelete t @b\ncommit\nscan t\nsession 2\nshrink t compact\ndelete t @a\ncommit\nshrink t compact\nschedule 1x21 2x14 1x3\n";

/// The scan has read block 43 as extent 1 is released, and the insert takes the extent again.
const RELEASED_BEHIND_A_SCAN: &[u8] =
    b"session 1\ntable t 50\nmovement t on\ninsert t @a {1800x}\ninsert t @b {1800x}\ninsert t @c {1800x}\ninsert t @d {1800x}\ninsert t @e {1800x}\ncommit\ndelete t @a\ncommit\nscan t\nsession 2\nshrink t\ninsert t @f {1800y}\ncommit\nschedule 1x32 2x13 1\n";

/// The row is moved between the look at it and its update, which starts again.
const MOVED_BEFORE_AN_UPDATE: &[u8] =
    b"session 1\ntable t 50\nmovement t on\ninsert t @a {1800x}\ninsert t @b {1800y}\ncommit\ndelete t @a\ncommit\nshrink t compact\nsession 2\nupdate t @b w\ncommit\nschedule 1x16 2 1x5 2x4\n";

/// Row 1 is migrated from block 43 to 44, and goes back as its head's block has room.
const HEADS_AND_BODIES: &[u8] =
    b"session 1\ntable t 0\nmovement t on\ninsert t @a {100x}\ninsert t @b {1800y}\ninsert t @c {1800z}\ncommit\nupdate t @a {400w}\nscan t\ncommit\ndelete t @b\ncommit\nshrink t\nscan t\nusage t\n";

const WITHOUT_MOVEMENT: &[u8] = b"session 1\ntable t 50\nshrink t\n";

const COMPACT_AND_WHOLE: &[u8] =
    b"session 1\ntable t 50\nmovement t on\ninsert t @a {1800x}\ninsert t @b {1800x}\ninsert t @c {1800x}\ninsert t @d {1800x}\ninsert t @e {1800x}\ncommit\ndelete t @a\ncommit\nshrink t compact\nusage t\nshrink t\nusage t\n";

/// The last row is another transaction's, and stays where it is with its extent.
const ACTIVE_ROW_SKIPPED: &[u8] =
    b"session 1\ntable t 50\nmovement t on\ninsert t @a {1800x}\ninsert t @b {1800x}\ninsert t @c {1800x}\ninsert t @d {1800x}\ninsert t @e {1800x}\ncommit\ndelete t @a\ncommit\nshrink t\nsession 2\nupdate t @e w\ncommit\nschedule 1x30 2x2 1x7\n";

/// One session shrinks the table, so another one neither shrinks it nor switches its row movement.
const SHRUNK_ALREADY: &[u8] =
    b"session 1\ntable t 50\nmovement t on\ninsert t @a {1800x}\ninsert t @b {1800y}\ncommit\ndelete t @a\ncommit\nshrink t compact\nsession 2\nshrink t compact\nmovement t off\nschedule 1x17 2x2\n";

#[test]
fn rows_move_beside_other_sessions(rt: HostRuntime) -> Result<(), Fail> {
    let cases: [(&[u8], &[u8]); 5] = [
        (
            MOVED_BEHIND_A_SCAN,
            b"2.1 shrink t moved 1 skipped 0 bottom\n1.8 scan t at 2 rows 1\n  2 {1800y}\n",
        ),
        (
            MOVED_TWICE,
            b"2.1 shrink t moved 1 skipped 0 nofit 44.0\n2.2 deleted 1\n2.3 committed 4\n2.4 shrink t moved 1 skipped 0 bottom\n1.9 scan t at 2 rows 2\n  1 {1800x}\n  3 {1800z}\n",
        ),
        (
            MOVED_BEFORE_AN_UPDATE,
            b"1.8 shrink t moved 1 skipped 0 bottom\n2.1 updated 2\n2.2 committed 4\n",
        ),
        (WITHOUT_MOVEMENT, b"1.2 refused movement off\n"),
        (
            SHRUNK_ALREADY,
            b"2.1 refused shrink busy 1\n2.2 refused shrink busy 1\n1.8 shrink t moved 1 skipped 0 bottom\n",
        ),
    ];
    for (script, last) in cases {
        ends(&rt, rt.alloc(), "2", script, last)?;
    }
    Ok(())
}

#[test]
fn extents_are_released(rt: HostRuntime) -> Result<(), Fail> {
    let cases: [(&[u8], &[u8]); 4] = [
        (
            RELEASED_BEHIND_A_SCAN,
            b"2.1 shrink t moved 1 skipped 0 nofit 46.0 released 1 high 4\n2.2 inserted 6\n2.3 committed 4\n1.11 refused object no longer exists extent 1 lowering 1\n",
        ),
        (
            HEADS_AND_BODIES,
            b"1.11 committed 3\n1.12 shrink t moved 1 skipped 0 bottom released 0 high 4\n1.13 scan t at 4 rows 2\n  1 {400w}\n  3 {1800z}\n1.14 usage t unformatted 2 fs1 0 fs2 1 fs3 0 fs4 1 full 0 low 0 high 4 extents 1\n  bytes 8192 0 4096 0 4096 0\n",
        ),
        (
            COMPACT_AND_WHOLE,
            b"1.11 shrink t moved 1 skipped 0 nofit 46.0\n1.12 usage t unformatted 6 fs1 0 fs2 0 fs3 4 fs4 1 full 0 low 4 high 11 extents 2\n  bytes 24576 0 0 16384 4096 0\n1.13 shrink t moved 0 skipped 0 nofit 46.0 released 1 high 4\n1.14 usage t unformatted 0 fs1 0 fs2 0 fs3 4 fs4 0 full 0 low 4 high 4 extents 1\n  bytes 0 0 0 16384 0 0\n",
        ),
        (
            ACTIVE_ROW_SKIPPED,
            b"2.1 updated 5\n1.11 shrink t moved 1 skipped 1 nofit 45.0 released 0 high 11\n2.2 committed 4\n",
        ),
    ];
    for (script, last) in cases {
        ends(&rt, rt.alloc(), "2", script, last)?;
    }
    Ok(())
}
