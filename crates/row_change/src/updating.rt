// A row updated.
ghost use Rattle.std.specs.Prelude.{◌≡◌, ◌≤◌, ◌∷◌, [], ℕ, true, false, List, Option, Some, None, length, IfOk, IfErr};
ghost use Rattle.seg_words.specs.Types.{LONGEST_ROW};
ghost use Rattle.redo_model.specs.Records.{Record};
ghost use Rattle.redo_model.specs.Model.{IsRowSize};
ghost use Rattle.change_laws.specs.Types.{Apart, InPlace, MayBeTarget, Stand as TheStand, ToHead, ToOther, WasFound, blocks_at, by_change, by_lack, first_lacking, holder_of, stand_at, update_answer};
ghost use Rattle.store_core.specs.Causes.{HasCause, HasLooked, IsSoundFault};
ghost use Rattle.store_core.specs.Store.{IsTrue, SameLoan};
ghost use Rattle.row_change.specs.Acting.{MayAct};
ghost use Rattle.row_change.specs.Answering.{Answers, store_answer};
ghost use Rattle.row_change.specs.Deciding.{DecisionMeans};
ghost use Rattle.row_change.specs.Fitting.{told_way};
ghost use Rattle.row_change.specs.Lacking.{names_at};
ghost use Rattle.row_change.specs.Looking.{IsFreeAt};
ghost use Rattle.row_change.specs.Opening.{ActsBy};
ghost use Rattle.row_change.specs.Standing.{told_stand};
ghost use Rattle.row_change.specs.Updating.{IsUpdate, MayChange, Updates, blocks_for, change_now};
ghost use Rattle.row_change.specs.declared.place.Place.{Place as ThePlace};

use crate::Place;
use crate::answer::{ChangeFault, Done};
use crate::deciding::{Decision, carry_out, decide};
use crate::draft::{Change, ChangeKind, Fills};
use crate::filling::{migrated, returned, rewritten};
use crate::fitting::{Way, way_of};
use crate::lacking::{lack_at, lack_of};
use crate::looking::{Front, Look, look_again};
use crate::opening::{Opening, begin_change};
use crate::stand::{Stand, stand_of};
use disk_model::Disk;
use seg_base::{Dba, Obj, RowNo, Rowid, Sequence, TxnId};
use std::alloc::Global;
use store_core::{Store, StoreFault};

/// A row of a table that is updated: its number, the slot that holds it with its image, where it stands, its new bytes, and the
/// block to which it may go.
#[derive(Clone, Copy)]
pub struct Updating<'b> {
    pub obj: Obj,
    pub row: RowNo,
    pub at: Rowid,
    pub front: Front,
    pub stand: Stand,
    pub bytes: &'b [u8],
    pub to: Option<Dba>,
}

fn length_of(bytes: &[u8]) -> u16
    requires { length bytes.now ≤ LONGEST_ROW }
    ensures { result ≡ length bytes.now }
{
    bytes.len() as u16
}

/// Decides for a row whose new bytes fit where it stands.
fn decide_in_place<D: Disk>(
    alloc: Global,
    store: &mut Store<D>,
    opening: &Opening,
    u: &Updating,
) -> Result<Decision, StoreFault>
    requires unspent { store.old.fault ≡ None }
    requires size { length u.now.bytes.now ≤ LONGEST_ROW }
    ensures looked { HasLooked D.meaning store.old store.new result }
    ensures says { (R : List Record) (who : ℕ) (own : Option ℕ) → IsTrue D.meaning R store.old → MayAct R who own → ActsBy R who own opening.now → IsUpdate store.old.shape R own u.now → MayChange store.old.shape R own u.now InPlace → IfOk result (DecisionMeans store.old.shape R who own (by_change store.old.shape R (length u.now.bytes.now) (change_now R u.now InPlace))) }
    ensures sound { (R : List Record) (who : ℕ) (own : Option ℕ) → IsTrue D.meaning R store.old → ActsBy R who own opening.now → IsUpdate store.old.shape R own u.now → IfErr result IsSoundFault }
{
    let fill = match rewritten(alloc, store, opening, &u.at, &u.front, u.bytes) {
        Ok(fill) => fill,
        Err(fault) => return Err(fault),
    };
    let change = Change {
        kind: ChangeKind::Update,
        obj: u.obj,
        row: u.row,
        fills: Fills::One(fill),
    };
    decide(alloc, store, opening, change)
}

/// Decides for a row that goes back to its head.
fn decide_return<D: Disk>(
    alloc: Global,
    store: &mut Store<D>,
    opening: &Opening,
    u: &Updating,
    head: &Rowid,
    body: &Rowid,
) -> Result<Decision, StoreFault>
    requires unspent { store.old.fault ≡ None }
    requires size { length u.now.bytes.now ≤ LONGEST_ROW }
    ensures looked { HasLooked D.meaning store.old store.new result }
    ensures says { (R : List Record) (who : ℕ) (own : Option ℕ) → IsTrue D.meaning R store.old → MayAct R who own → ActsBy R who own opening.now → IsUpdate store.old.shape R own u.now → told_stand u.now.stand ≡ Apart head.now body.now → MayChange store.old.shape R own u.now ToHead → IfOk result (DecisionMeans store.old.shape R who own (by_change store.old.shape R (length u.now.bytes.now) (change_now R u.now ToHead))) }
    ensures sound { (R : List Record) (who : ℕ) (own : Option ℕ) → IsTrue D.meaning R store.old → ActsBy R who own opening.now → IsUpdate store.old.shape R own u.now → told_stand u.now.stand ≡ Apart head.now body.now → IfErr result IsSoundFault }
{
    let fills = match returned(alloc, store, opening, head, body, u.row, u.bytes) {
        Ok(fills) => fills,
        Err(fault) => return Err(fault),
    };
    let change = Change {
        kind: ChangeKind::Return,
        obj: u.obj,
        row: u.row,
        fills,
    };
    decide(alloc, store, opening, change)
}

/// The same by where it stands: a row that stands whole has no head to go back to.
fn decide_to_head<D: Disk>(
    alloc: Global,
    store: &mut Store<D>,
    opening: &Opening,
    u: &Updating,
) -> Result<Decision, StoreFault>
    requires unspent { store.old.fault ≡ None }
    requires size { length u.now.bytes.now ≤ LONGEST_ROW }
    ensures looked { HasLooked D.meaning store.old store.new result }
    ensures says { (R : List Record) (who : ℕ) (own : Option ℕ) → IsTrue D.meaning R store.old → MayAct R who own → ActsBy R who own opening.now → IsUpdate store.old.shape R own u.now → MayChange store.old.shape R own u.now ToHead → IfOk result (DecisionMeans store.old.shape R who own (by_change store.old.shape R (length u.now.bytes.now) (change_now R u.now ToHead))) }
    ensures sound { (R : List Record) (who : ℕ) (own : Option ℕ) → IsTrue D.meaning R store.old → ActsBy R who own opening.now → IsUpdate store.old.shape R own u.now → IfErr result IsSoundFault }
{
    match u.stand {
        Stand::Whole(_) => Ok(Decision::NeedsBlock(length_of(u.bytes))),
        Stand::Apart(head, body) => decide_return(alloc, store, opening, u, &head, &body),
    }
}

/// Decides for a row that goes to a block.
fn decide_migration<D: Disk>(
    alloc: Global,
    store: &mut Store<D>,
    opening: &Opening,
    u: &Updating,
    to: Dba,
) -> Result<Decision, StoreFault>
    requires unspent { store.old.fault ≡ None }
    requires size { length u.now.bytes.now ≤ LONGEST_ROW }
    ensures looked { HasLooked D.meaning store.old store.new result }
    ensures says { (R : List Record) (who : ℕ) (own : Option ℕ) → IsTrue D.meaning R store.old → MayAct R who own → ActsBy R who own opening.now → IsUpdate store.old.shape R own u.now → u.now.to ≡ Some to → MayChange store.old.shape R own u.now ToOther → IfOk result (DecisionMeans store.old.shape R who own (by_change store.old.shape R (length u.now.bytes.now) (change_now R u.now ToOther))) }
    ensures sound { (R : List Record) (who : ℕ) (own : Option ℕ) → IsTrue D.meaning R store.old → ActsBy R who own opening.now → IsUpdate store.old.shape R own u.now → u.now.to ≡ Some to → IfErr result IsSoundFault }
{
    let fills = match migrated(alloc, store, opening, &u.stand, to, u.row, u.bytes) {
        Ok(fills) => fills,
        Err(fault) => return Err(fault),
    };
    let change = Change {
        kind: ChangeKind::Migrate,
        obj: u.obj,
        row: u.row,
        fills,
    };
    decide(alloc, store, opening, change)
}

/// The same where a block is given, else another one is needed.
fn decide_to_other<D: Disk>(
    alloc: Global,
    store: &mut Store<D>,
    opening: &Opening,
    u: &Updating,
) -> Result<Decision, StoreFault>
    requires unspent { store.old.fault ≡ None }
    requires size { length u.now.bytes.now ≤ LONGEST_ROW }
    ensures looked { HasLooked D.meaning store.old store.new result }
    ensures says { (R : List Record) (who : ℕ) (own : Option ℕ) → IsTrue D.meaning R store.old → MayAct R who own → ActsBy R who own opening.now → IsUpdate store.old.shape R own u.now → MayChange store.old.shape R own u.now ToOther → IfOk result (DecisionMeans store.old.shape R who own (by_change store.old.shape R (length u.now.bytes.now) (change_now R u.now ToOther))) }
    ensures sound { (R : List Record) (who : ℕ) (own : Option ℕ) → IsTrue D.meaning R store.old → ActsBy R who own opening.now → IsUpdate store.old.shape R own u.now → IfErr result IsSoundFault }
{
    match u.to {
        None => Ok(Decision::NeedsBlock(length_of(u.bytes))),
        Some(to) => decide_migration(alloc, store, opening, u, to),
    }
}

/// Decides for a row whose blocks have the list entries, by the way that it goes.
fn decide_by_way<D: Disk>(
    alloc: Global,
    store: &mut Store<D>,
    opening: &Opening,
    u: &Updating,
    way: &Way,
) -> Result<Decision, StoreFault>
    requires unspent { store.old.fault ≡ None }
    requires size { length u.now.bytes.now ≤ LONGEST_ROW }
    ensures looked { HasLooked D.meaning store.old store.new result }
    ensures says { (R : List Record) (who : ℕ) (own : Option ℕ) → IsTrue D.meaning R store.old → MayAct R who own → ActsBy R who own opening.now → IsUpdate store.old.shape R own u.now → MayChange store.old.shape R own u.now (told_way way.now) → IfOk result (DecisionMeans store.old.shape R who own (by_change store.old.shape R (length u.now.bytes.now) (change_now R u.now (told_way way.now)))) }
    ensures sound { (R : List Record) (who : ℕ) (own : Option ℕ) → IsTrue D.meaning R store.old → ActsBy R who own opening.now → IsUpdate store.old.shape R own u.now → IfErr result IsSoundFault }
{
    match way {
        Way::InPlace => decide_in_place(alloc, store, opening, u),
        Way::ToHead => decide_to_head(alloc, store, opening, u),
        Way::ToOther => decide_to_other(alloc, store, opening, u),
    }
}

/// All blocks of the row must be changed, not only that of the slot that holds it.
fn changes_all(way: &Way) -> bool
    ensures all { result ≡ true → (x : TheStand) → blocks_for x (told_way way.now) ≡ blocks_at x }
    ensures one { result ≡ false → (x : TheStand) → blocks_for x (told_way way.now) ≡ (holder_of x).dba ∷ [] }
{
    match way {
        Way::InPlace => false,
        Way::ToHead => true,
        Way::ToOther => true,
    }
}

/// Whom the list entries of the first block name that must be changed and has none.
fn lack_for<D: Disk>(
    alloc: Global,
    store: &mut Store<D>,
    opening: &Opening,
    u: &Updating,
    way: &Way,
) -> Result<Option<Sequence<TxnId>>, StoreFault>
    ensures looked { HasLooked D.meaning store.old store.new result }
    ensures says { (R : List Record) (who : ℕ) (own : Option ℕ) → IsTrue D.meaning R store.old → ActsBy R who own opening.now → IsUpdate store.old.shape R own u.now → IfOk result (λ x. x ≡ names_at R (first_lacking R own (blocks_for (told_stand u.now.stand) (told_way way.now)))) }
    ensures sound { (R : List Record) (who : ℕ) (own : Option ℕ) → IsTrue D.meaning R store.old → ActsBy R who own opening.now → IsUpdate store.old.shape R own u.now → store.old.fault ≡ None → IfErr result IsSoundFault }
{
    if changes_all(way) {
        return lack_of(alloc, store, opening, &u.stand);
    }
    lack_at(alloc, store, opening, u.at.dba)
}

/// Decides for a row that goes this way.
fn decide_going<D: Disk>(
    alloc: Global,
    store: &mut Store<D>,
    opening: &Opening,
    u: &Updating,
    way: &Way,
) -> Result<Decision, StoreFault>
    requires size { length u.now.bytes.now ≤ LONGEST_ROW }
    ensures looked { HasLooked D.meaning store.old store.new result }
    ensures says { (R : List Record) (who : ℕ) (own : Option ℕ) → IsTrue D.meaning R store.old → MayAct R who own → ActsBy R who own opening.now → IsUpdate store.old.shape R own u.now → (first_lacking R own (blocks_for (told_stand u.now.stand) (told_way way.now)) ≡ None → MayChange store.old.shape R own u.now (told_way way.now)) → IfOk result (DecisionMeans store.old.shape R who own (by_lack R (first_lacking R own (blocks_for (told_stand u.now.stand) (told_way way.now))) (by_change store.old.shape R (length u.now.bytes.now) (change_now R u.now (told_way way.now))))) }
    ensures sound { (R : List Record) (who : ℕ) (own : Option ℕ) → IsTrue D.meaning R store.old → ActsBy R who own opening.now → IsUpdate store.old.shape R own u.now → store.old.fault ≡ None → IfErr result IsSoundFault }
{
    match lack_for(alloc, store, opening, u, way) {
        Ok(None) => decide_by_way(alloc, store, opening, u, way),
        Ok(Some(txns)) => Ok(Decision::NoSlot(txns)),
        Err(fault) => Err(fault),
    }
}

/// Decides for a row that stands free.
fn decide_free<D: Disk>(
    alloc: Global,
    store: &mut Store<D>,
    opening: &Opening,
    own: &Option<TxnId>,
    u: &Updating,
) -> Result<Decision, StoreFault>
    requires size { length u.now.bytes.now ≤ LONGEST_ROW }
    ensures looked { HasLooked D.meaning store.old store.new result }
    ensures says { (R : List Record) (who n : ℕ) (p : ThePlace) → IsTrue D.meaning R store.old → MayAct R who own.now → ActsBy R who own.now opening.now → Updates store.old.shape R own.now n p u.now → IfOk result (DecisionMeans store.old.shape R who own.now (update_answer store.old.shape R own.now u.now.obj n p.at p.start u.now.bytes.now u.now.to)) }
    ensures sound { (R : List Record) (who : ℕ) → IsTrue D.meaning R store.old → ActsBy R who own.now opening.now → IsUpdate store.old.shape R own.now u.now → store.old.fault ≡ None → IfErr result IsSoundFault }
{
    let len = length_of(u.bytes);
    match way_of(alloc, store, opening, own, &u.stand, len) {
        Ok(way) => decide_going(alloc, store, opening, u, &way),
        Err(fault) => Err(fault),
    }
}

/// The same with who updates the row, which was looked at.
fn decide_at<D: Disk>(
    alloc: Global,
    store: &mut Store<D>,
    who: u8,
    own: &Option<TxnId>,
    u: &Updating,
) -> Result<Decision, StoreFault>
    requires size { length u.now.bytes.now ≤ LONGEST_ROW }
    ensures looked { HasLooked D.meaning store.old store.new result }
    ensures says { (R : List Record) (n : ℕ) (p : ThePlace) → IsTrue D.meaning R store.old → MayAct R who own.now → Updates store.old.shape R own.now n p u.now → IfOk result (DecisionMeans store.old.shape R who own.now (update_answer store.old.shape R own.now u.now.obj n p.at p.start u.now.bytes.now u.now.to)) }
    ensures sound { (R : List Record) → IsTrue D.meaning R store.old → MayAct R who own.now → IsUpdate store.old.shape R own.now u.now → store.old.fault ≡ None → IfErr result IsSoundFault }
{
    match begin_change(alloc, store, who, *own) {
        Ok(opening) => decide_free(alloc, store, &opening, own, u),
        Err(fault) => Err(fault),
    }
}

/// The same for the row at a place.
fn decide_found<D: Disk>(
    alloc: Global,
    store: &mut Store<D>,
    who: u8,
    own: &Option<TxnId>,
    obj: Obj,
    place: &Place,
    front: &Front,
    bytes: &[u8],
    to: Option<Dba>,
) -> Result<Decision, StoreFault>
    requires size { length bytes.now ≤ LONGEST_ROW }
    ensures looked { HasLooked D.meaning store.old store.new result }
    ensures says { (R : List Record) (n : ℕ) → IsTrue D.meaning R store.old → MayAct R who own.now → WasFound store.old.shape R own.now obj n place.now.at place.now.born place.now.undo place.now.start → IsFreeAt store.old.shape R own.now obj n place.now front.now → IsRowSize bytes.now → MayBeTarget store.old.shape R own.now obj (stand_at R place.now.at) (length bytes.now) to → IfOk result (DecisionMeans store.old.shape R who own.now (update_answer store.old.shape R own.now obj n place.now.at place.now.start bytes.now to)) }
    ensures sound { (R : List Record) (n : ℕ) → IsTrue D.meaning R store.old → MayAct R who own.now → WasFound store.old.shape R own.now obj n place.now.at place.now.born place.now.undo place.now.start → IsFreeAt store.old.shape R own.now obj n place.now front.now → IsRowSize bytes.now → MayBeTarget store.old.shape R own.now obj (stand_at R place.now.at) (length bytes.now) to → store.old.fault ≡ None → IfErr result IsSoundFault }
{
    let stand = stand_of(front, &place.at);
    let u = Updating {
        obj,
        row: front.row,
        at: place.at,
        front: *front,
        stand,
        bytes,
        to,
    };
    decide_at(alloc, store, who, own, &u)
}

fn decide_update<D: Disk>(
    alloc: Global,
    store: &mut Store<D>,
    who: u8,
    own: Option<TxnId>,
    obj: Obj,
    place: &Place,
    bytes: &[u8],
    to: Option<Dba>,
) -> Result<Decision, StoreFault>
    requires size { length bytes.now ≤ LONGEST_ROW }
    ensures looked { HasLooked D.meaning store.old store.new result }
    ensures says { (R : List Record) (n : ℕ) → IsTrue D.meaning R store.old → MayAct R who own → WasFound store.old.shape R own obj n place.now.at place.now.born place.now.undo place.now.start → IsRowSize bytes.now → MayBeTarget store.old.shape R own obj (stand_at R place.now.at) (length bytes.now) to → IfOk result (DecisionMeans store.old.shape R who own (update_answer store.old.shape R own obj n place.now.at place.now.start bytes.now to)) }
    ensures sound { (R : List Record) (n : ℕ) → IsTrue D.meaning R store.old → MayAct R who own → WasFound store.old.shape R own obj n place.now.at place.now.born place.now.undo place.now.start → IsRowSize bytes.now → MayBeTarget store.old.shape R own obj (stand_at R place.now.at) (length bytes.now) to → store.old.fault ≡ None → IfErr result IsSoundFault }
{
    let look = match look_again(alloc, store, &obj, &own, place) {
        Ok(look) => look,
        Err(fault) => return Err(fault),
    };
    match look {
        Look::Free(front) => {
            decide_found(alloc, store, who, &own, obj, place, &front, bytes, to)
        }
        Look::Changed(commits) => Ok(Decision::Changed(commits)),
        Look::Busy(txn) => Ok(Decision::Busy(txn)),
    }
}

/// Updates a row of a table to 1 to 1,800 bytes: in place where they fit, else, where the row was moved, back at its head where
/// they fit there, else whole in the block `to`, with a head where the row stood first. `own` is the active transaction of the
/// session `who`, or None where it has none, and then one begins. The place is what `locate` answered for `own` in this or an
/// earlier state of the store, since which `own` added no record. The block, where one is given, is a formatted one of the table
/// under its high mark that takes the row, and none of the row's own. A refusal leaves the list of records as it was.
pub fn update<D: Disk>(
    alloc: Global,
    store: &mut Store<D>,
    who: u8,
    own: Option<TxnId>,
    obj: Obj,
    place: &Place,
    bytes: &[u8],
    to: Option<Dba>,
) -> Result<Done, ChangeFault>
    requires { length bytes.now ≤ LONGEST_ROW }
    ensures answers { (R : List Record) (n : ℕ) → IsTrue D.meaning R store.old → MayAct R who own → WasFound store.old.shape R own obj n place.now.at place.now.born place.now.undo place.now.start → IsRowSize bytes.now → MayBeTarget store.old.shape R own obj (stand_at R place.now.at) (length bytes.now) to → Answers D.meaning R who own (update_answer store.old.shape R own obj n place.now.at place.now.start bytes.now to) store.old store.new result }
    ensures loan { SameLoan D.meaning store.old store.new }
    ensures cause { HasCause D.meaning store.old store.new (store_answer result) }
{
    match decide_update(alloc, store, who, own, obj, place, bytes, to) {
        Ok(decision) => carry_out(store, decision),
        Err(fault) => Err(ChangeFault::Store(fault)),
    }
}
