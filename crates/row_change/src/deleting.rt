// A row deleted.
ghost use Rattle.std.specs.Prelude.{◌≡◌, ◌∷◌, [], ℕ, List, Option, None, IfOk, IfErr};
ghost use Rattle.redo_model.specs.Records.{Record};
ghost use Rattle.redo_model.specs.Model.{IsRowBlock, IsTable, nothing};
ghost use Rattle.change_laws.specs.Types.{WasFound, blocks_at, by_lack, by_spot, change_size, delete_answer, delete_fills, delete_of, fill, first_lacking, spot_for};
ghost use Rattle.store_core.specs.Causes.{HasCause, HasLooked, IsSoundFault};
ghost use Rattle.store_core.specs.Store.{IsTrue, SameLoan};
ghost use Rattle.row_change.specs.Acting.{MayAct};
ghost use Rattle.row_change.specs.Answering.{Answers, store_answer};
ghost use Rattle.row_change.specs.Deciding.{DecisionMeans};
ghost use Rattle.row_change.specs.Drafting.{FillsAre, fill_list};
ghost use Rattle.row_change.specs.Looking.{IsFreeAt};
ghost use Rattle.row_change.specs.Opening.{ActsBy};
ghost use Rattle.row_change.specs.Planning.{CanBeMade};
ghost use Rattle.row_change.specs.Standing.{AreAtHome, told_stand};

use crate::Place;
use crate::answer::{ChangeFault, Done};
use crate::deciding::{Decision, carry_out, decide};
use crate::draft::{Change, ChangeKind, Fills};
use crate::filling::{emptied, then_emptied};
use crate::lacking::lack_of;
use crate::looking::{Front, Look, look_again};
use crate::opening::{Opening, begin_change};
use crate::stand::{Stand, stand_of};
use disk_model::Disk;
use seg_base::{Obj, RowNo, Rowid, TxnId};
use std::alloc::Global;
use store_core::{Store, StoreFault};

fn both_emptied<D: Disk>(
    alloc: Global,
    store: &mut Store<D>,
    opening: &Opening,
    head: &Rowid,
    body: &Rowid,
) -> Result<Fills, StoreFault>
    ensures looked { HasLooked D.meaning store.old store.new result }
    ensures says { (R : List Record) (o who : ℕ) (own : Option ℕ) → IsTrue D.meaning R store.old → ActsBy R who own opening.now → IsRowBlock store.old.shape R o head.now.dba → IsRowBlock store.old.shape R o body.now.dba → IfOk result (λ fs. FillsAre R own (fill_list fs) (fill head.now nothing ∷ fill body.now nothing ∷ [])) }
    ensures sound { (R : List Record) (o who : ℕ) (own : Option ℕ) → IsTrue D.meaning R store.old → ActsBy R who own opening.now → IsRowBlock store.old.shape R o head.now.dba → IsRowBlock store.old.shape R o body.now.dba → store.old.fault ≡ None → IfErr result IsSoundFault }
{
    match emptied(alloc, store, opening, head) {
        Ok(first) => then_emptied(alloc, store, opening, first, body),
        Err(fault) => Err(fault),
    }
}

/// What a delete puts where the row stands.
fn all_emptied<D: Disk>(
    alloc: Global,
    store: &mut Store<D>,
    opening: &Opening,
    stand: &Stand,
) -> Result<Fills, StoreFault>
    ensures looked { HasLooked D.meaning store.old store.new result }
    ensures says { (R : List Record) (o who : ℕ) (own : Option ℕ) → IsTrue D.meaning R store.old → ActsBy R who own opening.now → AreAtHome store.old.shape R o (told_stand stand.now) → IfOk result (λ fs. FillsAre R own (fill_list fs) (delete_fills (told_stand stand.now))) }
    ensures sound { (R : List Record) (o who : ℕ) (own : Option ℕ) → IsTrue D.meaning R store.old → ActsBy R who own opening.now → AreAtHome store.old.shape R o (told_stand stand.now) → store.old.fault ≡ None → IfErr result IsSoundFault }
{
    match stand {
        Stand::Whole(at) => match emptied(alloc, store, opening, at) {
            Ok(fill) => Ok(Fills::One(fill)),
            Err(fault) => Err(fault),
        },
        Stand::Apart(head, body) => both_emptied(alloc, store, opening, head, body),
    }
}

/// Decides for a row that stands free, and whose blocks have the list entries.
fn decide_deletion<D: Disk>(
    alloc: Global,
    store: &mut Store<D>,
    opening: &Opening,
    obj: Obj,
    row: RowNo,
    stand: &Stand,
) -> Result<Decision, StoreFault>
    ensures looked { HasLooked D.meaning store.old store.new result }
    ensures says { (R : List Record) (who : ℕ) (own : Option ℕ) → IsTrue D.meaning R store.old → MayAct R who own → ActsBy R who own opening.now → AreAtHome store.old.shape R obj (told_stand stand.now) → CanBeMade store.old.shape R own (delete_of obj row (told_stand stand.now)) → IfOk result (DecisionMeans store.old.shape R who own (by_spot (delete_of obj row (told_stand stand.now)) (spot_for store.old.shape R (change_size R (delete_of obj row (told_stand stand.now)))))) }
    ensures sound { (R : List Record) (who : ℕ) (own : Option ℕ) → IsTrue D.meaning R store.old → ActsBy R who own opening.now → IsTable R obj → AreAtHome store.old.shape R obj (told_stand stand.now) → store.old.fault ≡ None → IfErr result IsSoundFault }
{
    let fills = match all_emptied(alloc, store, opening, stand) {
        Ok(fills) => fills,
        Err(fault) => return Err(fault),
    };
    let change = Change {
        kind: ChangeKind::Delete,
        obj,
        row,
        fills,
    };
    decide(alloc, store, opening, change)
}

/// Decides for a row that stands free.
fn decide_free<D: Disk>(
    alloc: Global,
    store: &mut Store<D>,
    opening: &Opening,
    obj: Obj,
    row: RowNo,
    stand: &Stand,
) -> Result<Decision, StoreFault>
    ensures looked { HasLooked D.meaning store.old store.new result }
    ensures says { (R : List Record) (who : ℕ) (own : Option ℕ) → IsTrue D.meaning R store.old → MayAct R who own → ActsBy R who own opening.now → AreAtHome store.old.shape R obj (told_stand stand.now) → (first_lacking R own (blocks_at (told_stand stand.now)) ≡ None → CanBeMade store.old.shape R own (delete_of obj row (told_stand stand.now))) → IfOk result (DecisionMeans store.old.shape R who own (by_lack R (first_lacking R own (blocks_at (told_stand stand.now))) (by_spot (delete_of obj row (told_stand stand.now)) (spot_for store.old.shape R (change_size R (delete_of obj row (told_stand stand.now))))))) }
    ensures sound { (R : List Record) (who : ℕ) (own : Option ℕ) → IsTrue D.meaning R store.old → ActsBy R who own opening.now → IsTable R obj → AreAtHome store.old.shape R obj (told_stand stand.now) → store.old.fault ≡ None → IfErr result IsSoundFault }
{
    match lack_of(alloc, store, opening, stand) {
        Ok(None) => decide_deletion(alloc, store, opening, obj, row, stand),
        Ok(Some(txns)) => Ok(Decision::NoSlot(txns)),
        Err(fault) => Err(fault),
    }
}

/// The same with who deletes the row, which was looked at.
fn decide_at<D: Disk>(
    alloc: Global,
    store: &mut Store<D>,
    who: u8,
    own: Option<TxnId>,
    obj: Obj,
    place: &Place,
    front: &Front,
) -> Result<Decision, StoreFault>
    ensures looked { HasLooked D.meaning store.old store.new result }
    ensures says { (R : List Record) (n : ℕ) → IsTrue D.meaning R store.old → MayAct R who own → WasFound store.old.shape R own obj n place.now.at place.now.born place.now.undo place.now.start → IsFreeAt store.old.shape R own obj n place.now front.now → IfOk result (DecisionMeans store.old.shape R who own (delete_answer store.old.shape R own obj n place.now.at place.now.start)) }
    ensures sound { (R : List Record) (n : ℕ) → IsTrue D.meaning R store.old → MayAct R who own → WasFound store.old.shape R own obj n place.now.at place.now.born place.now.undo place.now.start → IsFreeAt store.old.shape R own obj n place.now front.now → store.old.fault ≡ None → IfErr result IsSoundFault }
{
    let opening = match begin_change(alloc, store, who, own) {
        Ok(opening) => opening,
        Err(fault) => return Err(fault),
    };
    let row = front.row;
    let stand = stand_of(front, &place.at);
    decide_free(alloc, store, &opening, obj, row, &stand)
}

fn decide_delete<D: Disk>(
    alloc: Global,
    store: &mut Store<D>,
    who: u8,
    own: Option<TxnId>,
    obj: Obj,
    place: &Place,
) -> Result<Decision, StoreFault>
    ensures looked { HasLooked D.meaning store.old store.new result }
    ensures says { (R : List Record) (n : ℕ) → IsTrue D.meaning R store.old → MayAct R who own → WasFound store.old.shape R own obj n place.now.at place.now.born place.now.undo place.now.start → IfOk result (DecisionMeans store.old.shape R who own (delete_answer store.old.shape R own obj n place.now.at place.now.start)) }
    ensures sound { (R : List Record) (n : ℕ) → IsTrue D.meaning R store.old → MayAct R who own → WasFound store.old.shape R own obj n place.now.at place.now.born place.now.undo place.now.start → store.old.fault ≡ None → IfErr result IsSoundFault }
{
    let look = match look_again(alloc, store, &obj, &own, place) {
        Ok(look) => look,
        Err(fault) => return Err(fault),
    };
    match look {
        Look::Free(front) => decide_at(alloc, store, who, own, obj, place, &front),
        Look::Changed(commits) => Ok(Decision::Changed(commits)),
        Look::Busy(txn) => Ok(Decision::Busy(txn)),
    }
}

/// Deletes a row of a table: its slot is emptied, and that of its head where it has one of its own. `own` is the active
/// transaction of the session `who`, or None where it has none, and then one begins. The place is what `locate` answered for
/// `own` in this or an earlier state of the store, since which `own` added no record. `NeedsBlock` doesn't come; a refusal
/// leaves the list of records as it was.
pub fn delete<D: Disk>(
    alloc: Global,
    store: &mut Store<D>,
    who: u8,
    own: Option<TxnId>,
    obj: Obj,
    place: &Place,
) -> Result<Done, ChangeFault>
    ensures answers { (R : List Record) (n : ℕ) → IsTrue D.meaning R store.old → MayAct R who own → WasFound store.old.shape R own obj n place.now.at place.now.born place.now.undo place.now.start → Answers D.meaning R who own (delete_answer store.old.shape R own obj n place.now.at place.now.start) store.old store.new result }
    ensures loan { SameLoan D.meaning store.old store.new }
    ensures cause { HasCause D.meaning store.old store.new (store_answer result) }
{
    match decide_delete(alloc, store, who, own, obj, place) {
        Ok(decision) => carry_out(store, decision),
        Err(fault) => Err(ChangeFault::Store(fault)),
    }
}
