// The images of a slot, and what made them.
ghost use Rattle.version_laws.specs.Known.{AddressesArePast, SlotsAreKnown, SlotsPastTheLast};

/// A part that a maker of an image names is of a use of its block, at most the present one; a transaction that made an image
/// has begun; the last image of a slot is the new one.
pub fn slots_are_known()
    ensures { SlotsAreKnown }
{}

/// No image of a slot names an undo address whose sequence is above that of its block. So where the sequences differ the
/// address was reused.
pub fn addresses_are_past()
    ensures { AddressesArePast }
{}

/// A slot past the last one of its block is as a new one, and gives no row.
pub fn slots_past_the_last_are_new()
    ensures { SlotsPastTheLast }
{}
