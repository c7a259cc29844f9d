// The numbers of slots and list entries are in the ranges of their types.
ghost use Rattle.seg_words.specs.Types.{AllByRecursion};
ghost use Rattle.page_bytes.specs.Types.{HasSlotForm, IsSlot, IsListEntry};

use page_bytes::{in_range, slot_in_range};
use seg_base::{ListEntry, Slot};

/// Each slot of these has a spelling where it is of the form that has one.
pub fn slots_in_range(slots: &[Slot])
    ensures { AllByRecursion HasSlotForm slots.now → AllByRecursion IsSlot slots.now }
{
    match slots {
        [] => {}
        [first, rest @ ..] => {
            slot_in_range(first);
            slots_in_range(rest);
        }
    }
}

/// Each list entry has a spelling.
pub fn entries_in_range(entries: &[ListEntry])
    ensures { AllByRecursion IsListEntry entries.now }
{
    match entries {
        [] => {}
        [first, rest @ ..] => {
            in_range(0, first.txn.0);
            in_range(0, first.number.0);
            entries_in_range(rest);
        }
    }
}
