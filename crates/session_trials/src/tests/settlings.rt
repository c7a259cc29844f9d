// What a session settles before it goes on, one block an event.
use super::check;
use std::test::Fail;

// Two rows leave exactly the room that PCTFREE keeps, so that the third formats a block of its own, and the block is settled before
// each next statement. The commit leaves two blocks to clean.
#[test]
fn owed_blocks_come_before_the_next_statement(rt: HostRuntime) -> Result<(), Fail> {
    check(
        &rt,
        rt.alloc(),
        "session 1\ntable t 25\ninsert t @a W\ninsert t @b W\nusage t\ninsert t @c y\nusage t\ncommit\n",
        &[(1, "<2><113>1<1>1<0><11><0><1>11..")],
    )
}

// A class that is set is one record, and owes nothing: the block stays full, so that the next row formats another one. A repair has an
// event for its list and one for each block.
#[test]
fn a_class_that_is_set_stays(rt: HostRuntime) -> Result<(), Fail> {
    check(
        &rt,
        rt.alloc(),
        "session 1\ntable t 10\ninsert t @a hello\ncommit\nfix t 43 1\ninsert t @b world\nusage t\nrepair t\nusage t\n\
         fix t 43 6\nfix t 39\ncommit\n",
        &[(1, "<2><113><1>1<1><12><0><010><0><0><0><1>1..")],
    )
}

// Block 44 calls for nothing while session 2's transaction is active, but stands behind block 43, which does: so it stays owed by
// session 1, which settles it once that transaction has committed, with a Clean and a Class. Then session 2 finds nothing to settle.
#[test]
fn a_block_behind_one_that_is_settled_stays_owed(rt: HostRuntime) -> Result<(), Fail> {
    check(
        &rt,
        rt.alloc(),
        "session 1\ntable t 50\ninsert t @a X\ninsert t @b X\ncommit\nsession 2\nupdate t @b z\ncommit\n",
        &[
            (1, "<2><113>1<11>1<1>"),
            (2, "<02>"),
            (1, "1"),
            (2, "<1>"),
            (1, "2.."),
            (2, ".."),
        ],
    )
}

// A block that was settled stays owed until a later turn of its session finds that it calls for nothing. Session 1 has no such turn
// before session 2 changes the row and commits: so session 1 cleans that up as well.
#[test]
fn a_block_that_was_settled_stays_owed(rt: HostRuntime) -> Result<(), Fail> {
    check(
        &rt,
        rt.alloc(),
        "session 1\ntable t 10\ninsert t @a hello\ncommit\nusage t\nsession 2\nupdate t @a b\ncommit\n",
        &[
            (1, "<2><113><1>1"),
            (2, "<02><1>"),
            (1, "1<0>.."),
            (2, ".."),
        ],
    )
}

// A repair cleans what session 2 left, and doesn't owe the block for that: what session 2 leaves next is its own to clean.
#[test]
fn a_repair_owes_nothing(rt: HostRuntime) -> Result<(), Fail> {
    check(
        &rt,
        rt.alloc(),
        "session 1\ntable t 10\ninsert t @a hello\ncommit\nusage t\nrepair t\nusage t\n\
         session 2\nupdate t @a b\ncommit\nupdate t @a c\ncommit\n",
        &[
            (1, "<2><113><1>1<0>"),
            (2, "<02><1>"),
            (1, "<01>"),
            (2, "<02><1>"),
            (1, "<0>.."),
            (2, "1.."),
        ],
    )
}

// A session that formatted a block doesn't owe it. Another session's row takes the block first, so that the insert looks for a block
// again and formats the next one, and the class of the first is settled by the session whose row it has.
#[test]
fn a_block_that_was_formatted_is_not_owed(rt: HostRuntime) -> Result<(), Fail> {
    check(
        &rt,
        rt.alloc(),
        "session 1\ntable t 50\ninsert t @a X\ncommit\ninsert t @b X\ncommit\nsession 2\ninsert t @c X\ncommit\n",
        &[
            (1, "<2><113>1<1>1<1"),
            (2, "<2>"),
            (1, "12>1<1>1.."),
            (2, "1<1>1.."),
        ],
    )
}
