// What the next step of a shrink is.
ghost use Rattle.std.specs.Prelude.{◌≡◌, ◌<◌, ◌≤◌, ℕ, true, None, List, length, IfOk, IfErr, IfSome, IfNone};
ghost use Rattle.seg_words.specs.Types.{is_shape, writer_has_ended};
ghost use Rattle.redo_model.specs.Records.{Record};
ghost use Rattle.redo_model.specs.Model.{data_blocks, image};
ghost use Rattle.version_laws.specs.Types.{ended_by};
ghost use Rattle.store_core.specs.Causes.{HasLooked, IsSoundFault};
ghost use Rattle.shrink_laws.specs.declared.skip.Skip.{Skip as TheSkip};
ghost use Rattle.shrink_laws.specs.Cursor.{Finds};
ghost use Rattle.shrink_laws.specs.Stops.{LeadsDown};
ghost use Rattle.shrink_move.specs.Asked.{body_of};
ghost use Rattle.shrink_move.specs.Known.{Knows};
ghost use Rattle.shrink_move.specs.Nexts.{NextIs};
ghost use Rattle.shrink_move.specs.Nexting.{BodyBelow, CanGo, HasCome, IsActiveBy};

use crate::below::stands_below;
use crate::come::{Come, come_down};
use crate::ground::Ground;
use crate::outline::{Outline, body_of, row_outline, slot_outline};
use crate::taking::taker_below;
use disk_model::Disk;
use seg_base::{Dba, Ended, Newest, Rowid, TxnId, Writer};
use shrink_laws::Skip;
use std::alloc::Global;
use store_core::{Store, StoreFault};
use txn_block::TxnBlock;
use version_read::EndedIn;

/// The next step of a shrink.
#[derive(Clone, Copy, Debug, PartialEq, Eq, Drop)]
pub enum Next {
    /// Nothing is left to come to down to the first position.
    Bottom,
    /// The row of this slot was last written by an active transaction, and is skipped.
    Skips(Come, TxnId),
    /// The row of this slot could move, but no block below takes it.
    NoFit(Come),
    /// This slot is a head, whose body stands below: the body becomes the row.
    ToBody(Come, Rowid),
    /// The row of this slot goes to this block, the first one below that takes it.
    ToBlock(Come, Dba),
}

/// The active transaction that wrote an image.
fn active_writer(table: &TxnBlock, writer: &Writer) -> Option<TxnId>
    ensures active { IfSome result (IsActiveBy table.now writer.now) }
    ensures over { IfNone result (writer_has_ended (ended_by table.now) writer.now ≡ true) }
{
    match writer {
        Writer::At(_) => None,
        Writer::By(txn) => {
            if EndedIn::of(table).ended(*txn) {
                return None;
            }
            Some(*txn)
        }
    }
}

/// The place of a body, where it stands below this position.
fn body_below<D: Disk>(
    store: &mut Store<D>,
    ground: &Ground,
    body: Option<Rowid>,
    place: u32,
) -> Result<Option<Rowid>, StoreFault>
    requires shape { is_shape ground.now.shape ≡ true }
    requires unspent { store.old.fault ≡ None }
    ensures looked { HasLooked D.meaning store.old store.new result }
    ensures says { (R : List Record) (o : ℕ) → Knows D.meaning R o store.old ground.now → IfOk result (BodyBelow ground.now.shape R o place body) }
    ensures sound { (R : List Record) (o : ℕ) → Knows D.meaning R o store.old ground.now → place ≤ length (data_blocks ground.now.shape R o) → IfErr result IsSoundFault }
{
    let at = match body {
        None => return Ok(None),
        Some(at) => at,
    };
    match stands_below(store, ground, &at.dba, place) {
        Ok(true) => Ok(Some(at)),
        Ok(false) => Ok(None),
        Err(fault) => Err(fault),
    }
}

/// The step of a row that may be moved and has no body below.
fn next_below<D: Disk>(
    alloc: Global,
    store: &mut Store<D>,
    ground: &Ground,
    come: &Come,
    len: u16,
) -> Result<Next, StoreFault>
    requires shape { is_shape ground.now.shape ≡ true }
    requires unspent { store.old.fault ≡ None }
    ensures looked { HasLooked D.meaning store.old store.new result }
    ensures says { (R : List Record) (o cursor : ℕ) (skips : List TheSkip) → Knows D.meaning R o store.old ground.now → CanGo ground.now.shape R o skips cursor come.now len → (LeadsDown ground.now.shape R o come.now.place come.now.at.dba come.now.at.slot → ⊥) → IfOk result (NextIs ground.now.shape R o skips cursor) }
    ensures sound { (R : List Record) (o cursor : ℕ) (skips : List TheSkip) → Knows D.meaning R o store.old ground.now → CanGo ground.now.shape R o skips cursor come.now len → IfErr result IsSoundFault }
{
    match taker_below(alloc, store, ground, come.place, len) {
        Ok(Some(target)) => Ok(Next::ToBlock(*come, target)),
        Ok(None) => Ok(Next::NoFit(*come)),
        Err(fault) => Err(fault),
    }
}

/// The step of a row that may be moved.
fn next_free<D: Disk>(
    alloc: Global,
    store: &mut Store<D>,
    ground: &Ground,
    come: &Come,
    body: Option<Rowid>,
    len: u16,
) -> Result<Next, StoreFault>
    requires shape { is_shape ground.now.shape ≡ true }
    requires unspent { store.old.fault ≡ None }
    ensures looked { HasLooked D.meaning store.old store.new result }
    ensures says { (R : List Record) (o cursor : ℕ) (skips : List TheSkip) → Knows D.meaning R o store.old ground.now → CanGo ground.now.shape R o skips cursor come.now len → body ≡ body_of (image R come.now.at.dba come.now.at.slot).kind (image R come.now.at.dba come.now.at.slot).link → IfOk result (NextIs ground.now.shape R o skips cursor) }
    ensures sound { (R : List Record) (o cursor : ℕ) (skips : List TheSkip) → Knows D.meaning R o store.old ground.now → CanGo ground.now.shape R o skips cursor come.now len → IfErr result IsSoundFault }
{
    match body_below(store, ground, body, come.place) {
        Ok(Some(at)) => Ok(Next::ToBody(*come, at)),
        Ok(None) => next_below(alloc, store, ground, come, len),
        Err(fault) => Err(fault),
    }
}

/// The step of a slot, by the image that holds its row.
fn next_of_row<D: Disk>(
    alloc: Global,
    store: &mut Store<D>,
    ground: &Ground,
    come: &Come,
    body: Option<Rowid>,
    row: &Outline,
) -> Result<Next, StoreFault>
    requires shape { is_shape ground.now.shape ≡ true }
    requires unspent { store.old.fault ≡ None }
    ensures looked { HasLooked D.meaning store.old store.new result }
    ensures says { (R : List Record) (o cursor : ℕ) (skips : List TheSkip) → Knows D.meaning R o store.old ground.now → HasCome ground.now.shape R o skips cursor come.now body row.now → IfOk result (NextIs ground.now.shape R o skips cursor) }
    ensures sound { (R : List Record) (o cursor : ℕ) (skips : List TheSkip) → Knows D.meaning R o store.old ground.now → HasCome ground.now.shape R o skips cursor come.now body row.now → IfErr result IsSoundFault }
{
    match active_writer(&ground.table, &row.writer) {
        Some(txn) => Ok(Next::Skips(*come, txn)),
        None => next_free(alloc, store, ground, come, body, row.len),
    }
}

/// The step of a slot to which the cursor has come.
fn next_at<D: Disk>(
    alloc: Global,
    store: &mut Store<D>,
    ground: &Ground,
    come: &Come,
) -> Result<Next, StoreFault>
    requires { is_shape ground.now.shape ≡ true }
    ensures looked { HasLooked D.meaning store.old store.new result }
    ensures says { (R : List Record) (o cursor : ℕ) (skips : List TheSkip) → Knows D.meaning R o store.old ground.now → Finds ground.now.shape R o skips cursor come.now.place come.now.at.dba come.now.at.slot → IfOk result (NextIs ground.now.shape R o skips cursor) }
    ensures sound { (R : List Record) (o cursor : ℕ) (skips : List TheSkip) → Knows D.meaning R o store.old ground.now → Finds ground.now.shape R o skips cursor come.now.place come.now.at.dba come.now.at.slot → store.old.fault ≡ None → IfErr result IsSoundFault }
{
    let own = match slot_outline(alloc, store, &come.at) {
        Ok(own) => own,
        Err(fault) => return Err(fault),
    };
    let body = body_of(&own);
    let row = match row_outline(alloc, store, &own, &body) {
        Ok(row) => row,
        Err(fault) => return Err(fault),
    };
    next_of_row(alloc, store, ground, come, body, &row)
}

/// The next step from where the cursor stands, over the slots that were skipped.
pub fn next_from<D: Disk>(
    alloc: Global,
    store: &mut Store<D>,
    ground: &Ground,
    skips: &Newest<Skip>,
    cursor: u32,
) -> Result<Next, StoreFault>
    requires shape { is_shape ground.now.shape ≡ true }
    requires unspent { store.old.fault ≡ None }
    ensures looked { HasLooked D.meaning store.old store.new result }
    ensures says { (R : List Record) (o : ℕ) → Knows D.meaning R o store.old ground.now → IfOk result (NextIs ground.now.shape R o skips.now cursor) }
    ensures sound { (R : List Record) (o : ℕ) → Knows D.meaning R o store.old ground.now → cursor < length (data_blocks ground.now.shape R o) → IfErr result IsSoundFault }
{
    match come_down(alloc, store, ground, skips, cursor) {
        Ok(Some(come)) => next_at(alloc, store, ground, &come),
        Ok(None) => Ok(Next::Bottom),
        Err(fault) => Err(fault),
    }
}
