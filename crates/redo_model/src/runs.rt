// What the definitions say of small runs.
ghost use Rattle.redo_model.specs.Computed.{NineRight, MigratedRight, MovedRight, ReusedRight};
ghost use Rattle.redo_model.specs.Lawful.{IsLawful};
ghost use Rattle.redo_model.specs.Refused.{NotAllowed};
ghost use Rattle.redo_model.specs.Worked.{small, nine, backed, reused, lowered};

/// A row is inserted and committed: nine records.
pub fn inserted_row_computes()
    ensures { NineRight }
{}

/// A row outgrows its block and is migrated; the migration is taken back, or committed.
pub fn migrated_row_computes()
    ensures { MigratedRight }
{}

/// An update is rolled back, a row deleted, a migrated row returns to its first slot, a row moves, and an extent is
/// released.
pub fn moved_row_computes()
    ensures { MovedRight }
{}

/// An undo block is taken into use again: the parts that it held are lost, and a reader of the past needs them.
pub fn reused_undo_computes()
    ensures { ReusedRight }
{}

/// Each kind of record is allowed where it stands in one of these runs.
pub fn runs_of_all_kinds_are_lawful()
    ensures inserted { IsLawful small nine }
    ensures rolled_back { IsLawful small backed }
    ensures undo_reused { IsLawful small reused }
    ensures all_kinds { IsLawful small lowered }
{}

/// For each kind of record there is a list after which it is not allowed.
pub fn records_out_of_place_are_refused()
    ensures { NotAllowed }
{}
