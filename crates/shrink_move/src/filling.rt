// What becomes of the slots of a row that is moved.
ghost use Rattle.std.specs.Prelude.{◌≡◌, ℕ, List, None, IfOk, IfErr};
ghost use Rattle.seg_words.specs.Types.{Rowid as TheRowid};
ghost use Rattle.redo_model.specs.Records.{Record};
ghost use Rattle.redo_model.specs.Model.{image};
ghost use Rattle.change_laws.specs.Types.{Whole, Apart, free_place, holder_of};
ghost use Rattle.row_change.specs.Standing.{told_stand};
ghost use Rattle.store_core.specs.Causes.{HasLooked, IsSoundFault};
ghost use Rattle.shrink_laws.specs.declared.skip.Skip.{Skip};
ghost use Rattle.shrink_move.specs.Drafting.{HasRows, IsMoving, standing_of};
ghost use Rattle.shrink_move.specs.Filling.{AreAtHome};
ghost use Rattle.shrink_move.specs.Known.{Knows};
ghost use Rattle.shrink_move.specs.MoveLaws.{block_fills, body_fills};
ghost use Rattle.shrink_move.specs.Moves.{row_stand, to_block_fills, to_body_fills};
ghost use Rattle.shrink_move.specs.Nexts.{GoesToBlock, GoesToBody};

use crate::draft::{Moving, moved_apart, moved_into, moved_whole};
use crate::ground::Ground;
use crate::outline::{Outline, slot_outline};
use crate::standing::{Standing, stands};
use disk_model::Disk;
use row_change::Stand;
use seg_base::{Dba, Kind, RowNo, Rowid};
use std::alloc::Global;
use store_core::{Store, StoreFault};

/// Where the row of a slot stands.
fn row_stand(own: &Outline, at: &Rowid) -> Stand
    ensures { told_stand result ≡ row_stand own.now.kind own.now.link at.now }
{
    match own.kind {
        Kind::Empty | Kind::Row => Stand::Whole(*at),
        Kind::Head => match own.link {
            None => Stand::Whole(*at),
            Some(body) => Stand::Apart(*at, body),
        },
        Kind::Body => match own.link {
            None => Stand::Whole(*at),
            Some(head) => Stand::Apart(head, *at),
        },
    }
}

/// Puts a row that stands whole into a block.
fn whole_to_block<D: Disk>(
    alloc: Global,
    store: &mut Store<D>,
    ground: &Ground,
    row: RowNo,
    whole: Standing,
    target: Dba,
) -> Result<Moving, StoreFault>
    ensures looked { HasLooked D.meaning store.old store.new result }
    ensures says { (R : List Record) (o : ℕ) (p : TheRowid) → Knows D.meaning R o store.old ground.now → whole ≡ standing_of R p.dba p.slot → HasRows ground.now.shape R target → IfOk result (λ m. IsMoving R m row (to_block_fills row (Whole p) (free_place R target) (image R p.dba p.slot).bytes)) }
    ensures sound { (R : List Record) (o : ℕ) → Knows D.meaning R o store.old ground.now → HasRows ground.now.shape R target → store.old.fault ≡ None → IfErr result IsSoundFault }
{
    let there = match stands(alloc, store, ground, target, None) {
        Ok(there) => there,
        Err(fault) => return Err(fault),
    };
    match moved_whole(alloc, row, whole, there) {
        Ok(moving) => Ok(moving),
        Err(_) => Err(StoreFault::NoMemory),
    }
}

/// A row that stands whole in a slot goes to a block.
fn from_slot<D: Disk>(
    alloc: Global,
    store: &mut Store<D>,
    ground: &Ground,
    row: RowNo,
    at: &Rowid,
    target: Dba,
) -> Result<Moving, StoreFault>
    ensures looked { HasLooked D.meaning store.old store.new result }
    ensures says { (R : List Record) (o : ℕ) → Knows D.meaning R o store.old ground.now → HasRows ground.now.shape R at.now.dba → HasRows ground.now.shape R target → IfOk result (λ m. IsMoving R m row (to_block_fills row (Whole at.now) (free_place R target) (image R at.now.dba at.now.slot).bytes)) }
    ensures sound { (R : List Record) (o : ℕ) → Knows D.meaning R o store.old ground.now → HasRows ground.now.shape R at.now.dba → HasRows ground.now.shape R target → store.old.fault ≡ None → IfErr result IsSoundFault }
{
    match stands(alloc, store, ground, at.dba, Some(at.slot)) {
        Ok(whole) => whole_to_block(alloc, store, ground, row, whole, target),
        Err(fault) => Err(fault),
    }
}

/// Puts a migrated row into a block.
fn apart_to_block<D: Disk>(
    alloc: Global,
    store: &mut Store<D>,
    ground: &Ground,
    row: RowNo,
    head: Standing,
    body: Standing,
    target: Dba,
) -> Result<Moving, StoreFault>
    ensures looked { HasLooked D.meaning store.old store.new result }
    ensures says { (R : List Record) (o : ℕ) (p q : TheRowid) → Knows D.meaning R o store.old ground.now → head ≡ standing_of R p.dba p.slot → body ≡ standing_of R q.dba q.slot → HasRows ground.now.shape R target → IfOk result (λ m. IsMoving R m row (to_block_fills row (Apart p q) (free_place R target) (image R q.dba q.slot).bytes)) }
    ensures sound { (R : List Record) (o : ℕ) → Knows D.meaning R o store.old ground.now → HasRows ground.now.shape R target → store.old.fault ≡ None → IfErr result IsSoundFault }
{
    let there = match stands(alloc, store, ground, target, None) {
        Ok(there) => there,
        Err(fault) => return Err(fault),
    };
    match moved_apart(alloc, row, head, body, there) {
        Ok(moving) => Ok(moving),
        Err(_) => Err(StoreFault::NoMemory),
    }
}

/// A migrated row, with its head, goes to a block.
fn from_body<D: Disk>(
    alloc: Global,
    store: &mut Store<D>,
    ground: &Ground,
    row: RowNo,
    head: Standing,
    body: &Rowid,
    target: Dba,
) -> Result<Moving, StoreFault>
    ensures looked { HasLooked D.meaning store.old store.new result }
    ensures says { (R : List Record) (o : ℕ) (p : TheRowid) → Knows D.meaning R o store.old ground.now → head ≡ standing_of R p.dba p.slot → HasRows ground.now.shape R body.now.dba → HasRows ground.now.shape R target → IfOk result (λ m. IsMoving R m row (to_block_fills row (Apart p body.now) (free_place R target) (image R body.now.dba body.now.slot).bytes)) }
    ensures sound { (R : List Record) (o : ℕ) → Knows D.meaning R o store.old ground.now → HasRows ground.now.shape R body.now.dba → HasRows ground.now.shape R target → store.old.fault ≡ None → IfErr result IsSoundFault }
{
    match stands(alloc, store, ground, body.dba, Some(body.slot)) {
        Ok(old) => apart_to_block(alloc, store, ground, row, head, old, target),
        Err(fault) => Err(fault),
    }
}

/// A row with a head and a body goes to a block.
fn from_both<D: Disk>(
    alloc: Global,
    store: &mut Store<D>,
    ground: &Ground,
    row: RowNo,
    head: &Rowid,
    body: &Rowid,
    target: Dba,
) -> Result<Moving, StoreFault>
    ensures looked { HasLooked D.meaning store.old store.new result }
    ensures says { (R : List Record) (o : ℕ) → Knows D.meaning R o store.old ground.now → HasRows ground.now.shape R head.now.dba → HasRows ground.now.shape R body.now.dba → HasRows ground.now.shape R target → IfOk result (λ m. IsMoving R m row (to_block_fills row (Apart head.now body.now) (free_place R target) (image R body.now.dba body.now.slot).bytes)) }
    ensures sound { (R : List Record) (o : ℕ) → Knows D.meaning R o store.old ground.now → HasRows ground.now.shape R head.now.dba → HasRows ground.now.shape R body.now.dba → HasRows ground.now.shape R target → store.old.fault ≡ None → IfErr result IsSoundFault }
{
    match stands(alloc, store, ground, head.dba, Some(head.slot)) {
        Ok(old) => from_body(alloc, store, ground, row, old, body, target),
        Err(fault) => Err(fault),
    }
}

/// A row that stands so goes to a block.
fn from_stand<D: Disk>(
    alloc: Global,
    store: &mut Store<D>,
    ground: &Ground,
    row: RowNo,
    stand: &Stand,
    target: Dba,
) -> Result<Moving, StoreFault>
    ensures looked { HasLooked D.meaning store.old store.new result }
    ensures says { (R : List Record) (o : ℕ) → Knows D.meaning R o store.old ground.now → AreAtHome ground.now.shape R (told_stand stand.now) → HasRows ground.now.shape R target → IfOk result (λ m. IsMoving R m row (to_block_fills row (told_stand stand.now) (free_place R target) (image R (holder_of (told_stand stand.now)).dba (holder_of (told_stand stand.now)).slot).bytes)) }
    ensures sound { (R : List Record) (o : ℕ) → Knows D.meaning R o store.old ground.now → AreAtHome ground.now.shape R (told_stand stand.now) → HasRows ground.now.shape R target → store.old.fault ≡ None → IfErr result IsSoundFault }
{
    match stand {
        Stand::Whole(at) => from_slot(alloc, store, ground, row, at, target),
        Stand::Apart(head, body) => from_both(alloc, store, ground, row, head, body, target),
    }
}

/// What becomes of the slots of the row to which the cursor has come, where it goes to a block.
pub fn to_block<D: Disk>(
    alloc: Global,
    store: &mut Store<D>,
    ground: &Ground,
    at: &Rowid,
    target: Dba,
) -> Result<Moving, StoreFault>
    requires unspent { store.old.fault ≡ None }
    ensures looked { HasLooked D.meaning store.old store.new result }
    ensures says { (R : List Record) (o cursor place : ℕ) (skips : List Skip) → Knows D.meaning R o store.old ground.now → GoesToBlock ground.now.shape R o skips cursor place at.now.dba at.now.slot target → IfOk result (λ m. IsMoving R m (image R at.now.dba at.now.slot).row (block_fills R at.now.dba at.now.slot target)) }
    ensures sound { (R : List Record) (o cursor place : ℕ) (skips : List Skip) → Knows D.meaning R o store.old ground.now → GoesToBlock ground.now.shape R o skips cursor place at.now.dba at.now.slot target → IfErr result IsSoundFault }
{
    let own = match slot_outline(alloc, store, at) {
        Ok(own) => own,
        Err(fault) => return Err(fault),
    };
    let stand = row_stand(&own, at);
    from_stand(alloc, store, ground, own.row, &stand, target)
}

/// The body of a row becomes the row.
fn into_body<D: Disk>(
    alloc: Global,
    store: &mut Store<D>,
    ground: &Ground,
    row: RowNo,
    head: Standing,
    body: &Rowid,
) -> Result<Moving, StoreFault>
    ensures looked { HasLooked D.meaning store.old store.new result }
    ensures says { (R : List Record) (o : ℕ) (p : TheRowid) → Knows D.meaning R o store.old ground.now → head ≡ standing_of R p.dba p.slot → HasRows ground.now.shape R body.now.dba → IfOk result (λ m. IsMoving R m row (to_body_fills row p body.now (image R body.now.dba body.now.slot).bytes)) }
    ensures sound { (R : List Record) (o : ℕ) → Knows D.meaning R o store.old ground.now → HasRows ground.now.shape R body.now.dba → store.old.fault ≡ None → IfErr result IsSoundFault }
{
    let old = match stands(alloc, store, ground, body.dba, Some(body.slot)) {
        Ok(old) => old,
        Err(fault) => return Err(fault),
    };
    match moved_into(alloc, row, head, old) {
        Ok(moving) => Ok(moving),
        Err(_) => Err(StoreFault::NoMemory),
    }
}

/// The same of the head that leads to the body.
fn from_head<D: Disk>(
    alloc: Global,
    store: &mut Store<D>,
    ground: &Ground,
    row: RowNo,
    head: &Rowid,
    body: &Rowid,
) -> Result<Moving, StoreFault>
    ensures looked { HasLooked D.meaning store.old store.new result }
    ensures says { (R : List Record) (o : ℕ) → Knows D.meaning R o store.old ground.now → HasRows ground.now.shape R head.now.dba → HasRows ground.now.shape R body.now.dba → IfOk result (λ m. IsMoving R m row (to_body_fills row head.now body.now (image R body.now.dba body.now.slot).bytes)) }
    ensures sound { (R : List Record) (o : ℕ) → Knows D.meaning R o store.old ground.now → HasRows ground.now.shape R head.now.dba → HasRows ground.now.shape R body.now.dba → store.old.fault ≡ None → IfErr result IsSoundFault }
{
    match stands(alloc, store, ground, head.dba, Some(head.slot)) {
        Ok(old) => into_body(alloc, store, ground, row, old, body),
        Err(fault) => Err(fault),
    }
}

/// What becomes of the slots of the row to whose head the cursor has come, where its body becomes the row.
pub fn to_body<D: Disk>(
    alloc: Global,
    store: &mut Store<D>,
    ground: &Ground,
    at: &Rowid,
    body: &Rowid,
) -> Result<Moving, StoreFault>
    requires unspent { store.old.fault ≡ None }
    ensures looked { HasLooked D.meaning store.old store.new result }
    ensures says { (R : List Record) (o cursor place : ℕ) (skips : List Skip) → Knows D.meaning R o store.old ground.now → GoesToBody ground.now.shape R o skips cursor place at.now.dba at.now.slot body.now → IfOk result (λ m. IsMoving R m (image R at.now.dba at.now.slot).row (body_fills R at.now.dba at.now.slot body.now)) }
    ensures sound { (R : List Record) (o cursor place : ℕ) (skips : List Skip) → Knows D.meaning R o store.old ground.now → GoesToBody ground.now.shape R o skips cursor place at.now.dba at.now.slot body.now → IfErr result IsSoundFault }
{
    let own = match slot_outline(alloc, store, at) {
        Ok(own) => own,
        Err(fault) => return Err(fault),
    };
    from_head(alloc, store, ground, own.row, at, body)
}
