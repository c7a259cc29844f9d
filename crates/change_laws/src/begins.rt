// What a Begin and a Reuse leave of what was found before them.
ghost use Rattle.change_laws.specs.Begun.{BeginsKeepMays, BeginsLeave, BegunChangesAreLawful, ReusesLeave};

/// A Begin leaves what blocks have and take for its transaction, where undo goes, how an update goes and what the transaction
/// sees: they are what they were for a transaction that had not begun.
pub fn begins_leave()
    ensures { BeginsLeave }
{}

/// What may be changed by a transaction that has not begun may be changed by it after its Begin.
pub fn begins_keep_mays()
    ensures { BeginsKeepMays }
{}

/// A Reuse leaves the record that was drafted before it.
pub fn reuses_leave()
    ensures { ReusesLeave }
{}

/// The records of a change that begins its transaction are lawful, with its undo where it was found to go before the Begin.
pub fn begun_changes_are_lawful()
    ensures { BegunChangesAreLawful }
{}
