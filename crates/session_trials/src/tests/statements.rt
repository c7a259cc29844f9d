// Statements on tables, inserts, commits and scans.
use super::check;
use std::test::Fail;

// A scan of a table without formatted blocks is told as it opens. Before the first row the marks advance and block 43 is formatted,
// each an event with its record; the row is a Begin, a Reuse and an Insert. The commit's block is cleaned before the next statement
// begins. A scan has one event for its opening and one for each block.
#[test]
fn marks_move_before_a_row_and_a_scan_reads_each_block(rt: HostRuntime) -> Result<(), Fail> {
    let alloc = rt.alloc();
    check(
        &rt,
        alloc,
        "session 1\ntable t 10\nscan t\n",
        &[(1, "<2><0>..")],
    )?;
    check(
        &rt,
        alloc,
        "session 1\ntable t 10\ninsert t @a hello\ncommit\nscan t\n",
        &[(1, "<2><113><1>1<00>..")],
    )?;
    check(
        &rt,
        alloc,
        "session 1\ntable t 50\ninsert t @a X\ninsert t @b X\ninsert t @c X\ncommit\nscan t\n",
        &[(1, "<2><113>1<11>1<11>1<1>111<0000>..")],
    )
}

// Whatever the cause, a statement that is refused in its first event has no other one, and adds no record. So have a commit and a
// rollback without a transaction.
#[test]
fn a_refusal_is_one_event(rt: HostRuntime) -> Result<(), Fail> {
    check(
        &rt,
        rt.alloc(),
        "session 1\ntable t 10\ncommit\nrollback\ntable t 10\nscan u\nmovement u on\ninsert u @a x\nupdate t @a x\n\
         delete t #1\nusage u\nfix u 43\nrepair u\nshrink t\nshrink u compact\nmovement t on\ninsert t @b x\ntable v 10\n\
         movement t off\nshrink t\n",
        &[
            (
                1,
                "<2><0><0><0><0><0><0><0><0><0><0><0><0><0><1><113><0><0><0><1",
            ),
            (1, "1>.."),
        ],
    )
}

// A session without statements has ended before another one begins, and after it.
#[test]
fn a_session_without_statements_has_ended(rt: HostRuntime) -> Result<(), Fail> {
    check(
        &rt,
        rt.alloc(),
        "session 1\nsession 2\ntable t 10\n",
        &[(1, ".."), (2, "<2>.."), (1, ".")],
    )
}

// 18 data blocks take one row each: an event that formats the block, one that inserts, and one that settles the class before the next
// statement; and where an extent begins, one more that extends the table and one that advances its marks. The nineteenth row is
// refused in its only event. The commit leaves 18 blocks to clean, one an event. The delete leaves its block to be cleaned and to get
// another class, two records of one event; then a row goes there.
#[test]
fn a_table_is_full_and_takes_a_row_again(rt: HostRuntime) -> Result<(), Fail> {
    check(
        &rt,
        rt.alloc(),
        "session 1\ntable t 50\n\
         insert t @a X\ninsert t @b X\ninsert t @c X\ninsert t @d X\ninsert t @e X\ninsert t @f X\ninsert t @g X\ninsert t @h X\n\
         insert t @i X\ninsert t @j X\ninsert t @k X\ninsert t @l X\ninsert t @m X\ninsert t @n X\ninsert t @o X\ninsert t @p X\n\
         insert t @q X\ninsert t @r X\ninsert t @s X\ncommit\ndelete t @a\ncommit\ninsert t @t X\ncommit\n",
        &[
            (1, "<2><113>1<11>1<11>1<11>1"),
            (1, "<1111>1<11>1<11>1<11>1<11>1<11>1<11>1"),
            (1, "<1111>1<11>1<11>1<11>1<11>1<11>1<11>1"),
            (1, "<0><1>111111111111111111"),
            (1, "<02><1>2<2>1<1>1.."),
        ],
    )
}
