// Which parts have a spelling.
ghost use Rattle.std.specs.Prelude.{◌<◌, ◌^◌, ◌↔◌, IsTrue};
ghost use Rattle.seg_words.specs.Types.{AllByRecursion};
ghost use Rattle.undo_block.specs.Parts.{PlaceIsThere, HasPartForm};
ghost use Rattle.undo_block.specs.UndoPage.{PlaceFits, IsPart};

use crate::part::Part;
use page_bytes::{byte_in_range, has_slot_form, in_range, slot_in_range};
use seg_base::UndoPlace;

fn place_is_there(place: &Option<UndoPlace>) -> bool
    ensures { IsTrue result ↔ PlaceIsThere place.now }
{
    match place {
        None => true,
        Some(place) => 0 < place.block,
    }
}

fn has_part_form(part: &Part) -> bool
    ensures { IsTrue result ↔ HasPartForm part.now }
{
    place_is_there(&part.previous) && has_slot_form(&part.old)
}

/// Whether each of these parts has a spelling: the place of the undo before it, where there is one, is at a block other than
/// 0, and its old slot has a spelling.
pub fn have_part_form(parts: &[Part]) -> bool
    ensures { IsTrue result ↔ AllByRecursion HasPartForm parts.now }
{
    match parts {
        [] => true,
        [first, rest @ ..] => has_part_form(first) && have_part_form(rest),
    }
}

fn place_in_range(place: &Option<UndoPlace>)
    ensures { PlaceIsThere place.now → PlaceFits place.now }
{
    if let Some(place) = place {
        in_range(place.block, 0);
        byte_in_range(place.nth);
    }
}

fn part_in_range(part: &Part)
    ensures { HasPartForm part.now → IsPart part.now }
{
    in_range(part.dba.0, part.txn.0);
    place_in_range(&part.previous);
    slot_in_range(&part.old);
}

/// Parts of this form have a spelling: their numbers are in the ranges of their types.
pub fn parts_in_range(parts: &[Part])
    ensures { AllByRecursion HasPartForm parts.now → AllByRecursion IsPart parts.now }
{
    match parts {
        [] => {}
        [first, rest @ ..] => {
            part_in_range(first);
            parts_in_range(rest);
        }
    }
}
