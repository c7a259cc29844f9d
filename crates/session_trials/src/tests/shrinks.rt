// Shrinks.
use super::check;
use std::test::Fail;

// A shrink's first event finds its cursor. The row of block 44 goes to 43, whose class and that of 44 are settled before the next step,
// which stops at the bottom.
#[test]
fn a_compaction_stops_in_an_event_of_its_own(rt: HostRuntime) -> Result<(), Fail> {
    check(
        &rt,
        rt.alloc(),
        "session 1\ntable t 50\nmovement t on\ninsert t @a X\ninsert t @b X\ncommit\ndelete t @a\ncommit\nshrink t compact\n",
        &[(1, "<2><1><113>1<11>1<1>11<02><1>2<01110>..")],
    )
}

// Row 5 goes from block 48 to 43, for which the other undo block is taken into use; both blocks are settled; the row of block 46 fits
// nowhere, and the stop is an event, as is the lowering, whose record releases the second extent. An insert takes it again, and
// session 1's scan, which has block 48 to read yet, is refused in its next event.
#[test]
fn a_shrink_releases_an_extent_in_its_last_event(rt: HostRuntime) -> Result<(), Fail> {
    check(
        &rt,
        rt.alloc(),
        "session 1\ntable t 50\nmovement t on\ninsert t @a X\ninsert t @b X\ninsert t @c X\ninsert t @d X\ninsert t @e X\n\
         commit\ndelete t @a\ncommit\nscan t\nsession 2\nshrink t\ninsert t @f X\ncommit\n",
        &[
            (1, "<2><1><113>1<11>1<11>1<11>1<1111>1<1>11111<02><1>2<00"),
            (2, "<021101><1112>1<1>1.."),
            (1, "0>.."),
        ],
    )
}

// The row of block 48 has an active writer and is skipped, in an event; the next row goes down; the one after that fits nowhere. With
// nothing to release the last event adds no record.
#[test]
fn a_skip_is_an_event(rt: HostRuntime) -> Result<(), Fail> {
    check(
        &rt,
        rt.alloc(),
        "session 1\ntable t 50\nmovement t on\ninsert t @a X\ninsert t @b X\ninsert t @c X\ninsert t @d X\ninsert t @e X\n\
         commit\ndelete t @a\ncommit\nshrink t\nsession 2\nupdate t @e w\ncommit\n",
        &[
            (1, "<2><1><113>1<11>1<11>1<11>1<1111>1<1>11111<02><1>2"),
            (2, "<03>"),
            (1, "<0011100>.."),
            (2, "<1>2.."),
        ],
    )
}

// A repair's event of a block that was released since its list was made does nothing, also where the block is there again with
// another class than it keeps.
#[test]
fn a_repair_passes_over_what_was_released(rt: HostRuntime) -> Result<(), Fail> {
    check(
        &rt,
        rt.alloc(),
        "session 1\ntable t 50\nmovement t on\ninsert t @a X\ninsert t @b X\ninsert t @c X\ninsert t @d X\ninsert t @e X\n\
         commit\ndelete t @e\ncommit\nrepair t\nsession 2\nshrink t\ninsert t @f X\ncommit\n",
        &[
            (
                1,
                "<2><1><113>1<11>1<11>1<11>1<1111>1<1>11111<02><1>2<00000",
            ),
            (2, "<001><1112>"),
            (1, "0>.."),
            (2, "1<1>1.."),
        ],
    )
}
