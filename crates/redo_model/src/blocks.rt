// A block as one value, and slot by slot.
ghost use Rattle.redo_model.specs.Bridges.{BlocksAreBridged};

/// After any records, the slots and list entries of a block's value are its images and entries, one by one.
pub fn block_is_its_slots()
    ensures { BlocksAreBridged }
{}
