// The records of changes of rows are allowed.
ghost use Rattle.change_laws.specs.Ready.{UpdatesGo};
ghost use Rattle.change_laws.specs.Spots.{SpotsState};
ghost use Rattle.change_laws.specs.Allowed.{BeginsAreLawful, ChangesAreLawful, DeletesAreReady, FullIsTold, InsertsAreReady, MigratesAreReady, ReturnsAreReady, UpdatesAreReady};

/// An insert into a row block that takes the row may be made, wherever its undo goes.
pub fn inserts_are_ready()
    ensures { InsertsAreReady }
{}

/// An update in place may be made of a row that may be changed, where the bytes fit.
pub fn updates_are_ready()
    ensures { UpdatesAreReady }
{}

/// A row that fits neither where it stands nor at its head may be migrated to a block that takes it.
pub fn migrates_are_ready()
    ensures { MigratesAreReady }
{}

/// A migrated row that doesn't fit at its body may go back to its head where it fits there.
pub fn returns_are_ready()
    ensures { ReturnsAreReady }
{}

/// A row that may be changed may be deleted.
pub fn deletes_are_ready()
    ensures { DeletesAreReady }
{}

/// A session without an active transaction may begin one, with the entry that a Begin takes.
pub fn begins_are_lawful()
    ensures { BeginsAreLawful }
{}

/// Parts of a row record or a Move go to the end of the current undo block where they fit there, else to the start of the first
/// block in ring order without a holder, after a Reuse that they call for; where there is no such block undo is full.
pub fn spots_state()
    ensures { SpotsState }
{}

/// The record of a change that may be made is allowed where its undo goes: in the current undo block where it fits there,
/// else after a Reuse of the first block in ring order without a holder. Where there is no such block undo is full.
pub fn changes_are_lawful()
    ensures { ChangesAreLawful }
{}

/// Where undo is full for so many bytes, each other undo block has a holder, no Reuse is allowed, and no row record whose
/// parts need as many bytes is.
pub fn full_is_told()
    ensures { FullIsTold }
{}

/// Where no block that an update must change lacks an entry, the row may be updated in place, go back to its head, or go to any
/// other block of its table that takes it, as the way of the update says.
pub fn updates_go()
    ensures { UpdatesGo }
{}
