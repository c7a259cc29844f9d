// Updates, deletes and rollbacks.
use super::check;
use std::test::Fail;

// An update and a delete have an event that looks for the row and one that changes it. A row that outgrows its block has one more,
// which formats another block, and the change and its Begin are two records of one event. A session that ends takes its transaction
// back, one record an event, and tells so in an event of its own; one that commits cleans both blocks.
#[test]
fn a_row_is_found_before_it_is_changed(rt: HostRuntime) -> Result<(), Fail> {
    let alloc = rt.alloc();
    check(
        &rt,
        alloc,
        "session 1\ntable t 10\ninsert t @a hello\nupdate t @a world\ndelete t @a\ndelete t @a\ncommit\n",
        &[(1, "<2><113><01><01><0><1>1..")],
    )?;
    check(
        &rt,
        alloc,
        "session 1\ntable t 0\ninsert t @a U\ninsert t @b X\ninsert t @c X\ncommit\nupdate t @a V\n",
        &[(1, "<2><113><1>1<1>1<1>1<012><11>..")],
    )?;
    check(
        &rt,
        alloc,
        "session 1\ntable t 0\ninsert t @a U\ninsert t @b X\ninsert t @c X\ncommit\nupdate t @a V\ncommit\n",
        &[(1, "<2><113><1>1<1>1<1>1<012><1>11..")],
    )
}

// A row that outgrows its block finds undo full only after another block was formatted for it, which stays.
#[test]
fn a_mark_moves_before_undo_is_found_full(rt: HostRuntime) -> Result<(), Fail> {
    check(
        &rt,
        rt.alloc(),
        "session 1\ntable t 0\ninsert t @a U\ninsert t @b X\ninsert t @c X\ncommit\n\
         update t @b X\nupdate t @b X\nupdate t @b X\nupdate t @b X\ninsert t @d d\ninsert t @e e\n\
         session 2\nupdate t @a V\n",
        &[
            (1, "<2><113><1>1<1>1<1>1<02><01><02><01><1><1>"),
            (2, "<010>.."),
            (1, "<1111111>.."),
        ],
    )
}

// An update that finds its row busy is over with its second event. One whose row was changed and committed since it was found has an
// event that notes so, and looks for the row again in the next. Of two sessions that owe one block the first to come settles it, and
// the other one has ended.
#[test]
fn an_update_starts_again_in_an_event_of_its_own(rt: HostRuntime) -> Result<(), Fail> {
    check(
        &rt,
        rt.alloc(),
        "session 1\ntable t 10\ninsert t @a one\ncommit\nupdate t @a two\ncommit\n\
         session 2\nupdate t @a three\nupdate t @a three\ncommit\n",
        &[
            (1, "<2><113><1>1<02>"),
            (2, "<00><0"),
            (1, "<1>"),
            (2, "002><1>1."),
            (1, ".."),
            (2, "."),
        ],
    )
}

// One record, and the class that its block gets before it is taken back and after. Nine records, of which the third update takes the
// other undo block into use; another session's insert finds undo full meanwhile, in one event, and takes the first undo block into use
// again once the nine are taken back.
#[test]
fn a_rollback_takes_back_a_record_an_event(rt: HostRuntime) -> Result<(), Fail> {
    let alloc = rt.alloc();
    check(
        &rt,
        alloc,
        "session 1\ntable t 10\ninsert t @a X\n",
        &[(1, "<2><113>1<111>..")],
    )?;
    check(
        &rt,
        alloc,
        "session 1\ntable t 0\ninsert t @a X\nupdate t @a X\nupdate t @a X\nupdate t @a X\nupdate t @a X\n\
         insert t @b b\ninsert t @c c\ninsert t @d d\ninsert t @e e\nrollback\n\
         session 2\ninsert t @f f\ninsert t @g g\ncommit\n",
        &[
            (1, "<2><113>1<01><01><02><01><1><1><1><1>"),
            (2, "<0>"),
            (1, "<11111111111>.."),
            (2, "<3><1>1.."),
        ],
    )
}
