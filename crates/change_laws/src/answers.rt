// What an insert, an update and a delete of a row answer.
ghost use Rattle.change_laws.specs.Answers.{AnswersMean, BlocksAreNeeded, DeletesAreMade, InsertsAreMade, PlacesAnswer, UpdatesAreMade};

/// Each answer of an update or a delete means its cause, and that none of the causes before it is one: the row has changed, is
/// busy, a block that must be changed has no list entry for the transaction, another block is needed, undo is full; else the
/// change is made.
pub fn answers_mean()
    ensures { AnswersMean }
{}

/// Of a row that was found, the image that its transaction sees at the place and the newest image there tell the answer.
pub fn places_answer()
    ensures { PlacesAnswer }
{}

/// An update needs a block exactly where it goes to another one and none is given.
pub fn blocks_are_needed()
    ensures { BlocksAreNeeded }
{}

/// Where the answer of an update is that its change is made, its transaction may make it, also one that begins with it; its undo
/// has a place, and the list with its record is lawful.
pub fn updates_are_made()
    ensures { UpdatesAreMade }
{}

/// The same of a delete.
pub fn deletes_are_made()
    ensures { DeletesAreMade }
{}

/// An insert that may be made is made, with a lawful list, or undo is full for it.
pub fn inserts_are_made()
    ensures { InsertsAreMade }
{}
