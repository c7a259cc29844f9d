// Where the undo of a change goes.
ghost use Rattle.std.specs.Prelude.{◌≡◌, ℕ, ◌+◌, ◌-◌, ◌<◌, ◌^◌, ◌++◌, ◌∷◌, [], List, true, ltb, Some, None, OnOk, IfOk, IfErr, IfSome, IfNone};
ghost use Rattle.seg_words.specs.Types.{BLOCK_ROOM, MOST_UNDO_PARTS, OWN_BLOCKS, is_shape};
ghost use Rattle.redo_model.specs.Records.{Record};
ghost use Rattle.redo_model.specs.Model.{IsTable, current_undo, undo_sequence};
ghost use Rattle.change_laws.specs.Types.{Next, reuse_of, spot_by, spot_for};
ghost use Rattle.version_laws.specs.Types.{HoldsTable, IsInRing};
ghost use Rattle.store_core.specs.Causes.{HasLooked, IsSoundFault};
ghost use Rattle.store_core.specs.Store.{IsTrue};
ghost use Rattle.row_change.specs.Spots.{HasPlace, IsBehind, UsedAs, nth_of_ring, spot_behind, told_spot};

use crate::counting::next_number;
use crate::ring::{StateOf, UndoState};
use disk_model::Disk;
use redo_record::ReuseRecord;
use seg_base::{
    BLOCK_ROOM, Dba, MOST_UNDO_PARTS, NoMemory, OWN_BLOCKS, Sequence, Shape, TxnId, UndoAddr,
};
use std::alloc::Global;
use store_core::{Store, StoreFault, ask};
use txn_block::TxnBlock;

/// Where undo goes: behind the parts of the current undo block, to the start of a block that is taken into use, or nowhere,
/// since each other block has a holder.
#[derive(Drop)]
pub enum Spot {
    Here(UndoAddr),
    Next(ReuseRecord),
    Full(Sequence<(Dba, TxnId)>),
}

/// How many other blocks the ring has, none of a block outside it.
fn others_in_ring(shape: &Shape, block: u32) -> Option<u32>
    ensures others { IfSome result (λ n. n + 1 ≡ shape.now.undo) }
    ensures within { IfSome result (λ _. is_shape shape.now ≡ true) }
    ensures ring { IfSome result (λ _. IsInRing shape.now block) }
    ensures outside { is_shape shape.now ≡ true → IsInRing shape.now block → IfNone result ⊥ }
{
    if !shape.is_within_limits() || block < OWN_BLOCKS || block >= OWN_BLOCKS + shape.undo {
        return None;
    }
    Some(shape.undo - 1)
}

/// The block so many steps behind the next one after a block of the ring.
fn nth_of_ring(shape: &Shape, block: u32, step: u32) -> u32
    requires shape { is_shape shape.now ≡ true }
    requires ring { IsInRing shape.now block }
    requires step { step + 1 < shape.now.undo }
    ensures value { result ≡ nth_of_ring shape.now block step }
    ensures ring { IsInRing shape.now result }
{
    let next = block + 1 + step;
    if next < OWN_BLOCKS + shape.undo {
        next
    } else {
        next - shape.undo
    }
}

/// How a block of the ring is used.
fn undo_state<D: Disk>(
    alloc: Global,
    store: &mut Store<D>,
    table: &TxnBlock,
    block: u32,
) -> Result<UndoState, StoreFault>
    ensures looked { HasLooked D.meaning store.old store.new result }
    ensures says { (R : List Record) → IsTrue D.meaning R store.old → HoldsTable R table.now → IsInRing store.old.shape block → IfOk result (UsedAs R block) }
    ensures sound { (R : List Record) → IsTrue D.meaning R store.old → HoldsTable R table.now → IsInRing store.old.shape block → store.old.fault ≡ None → IfErr result IsSoundFault }
{
    match ask(alloc, store, Dba(block), &StateOf { table }) {
        Ok(state) => Ok(state),
        Err(fault) => Err(fault),
    }
}

/// What a block behind the current one is to undo: it is taken into use next, or a transaction of this number holds it.
#[derive(Clone, Copy, Drop)]
enum Behind {
    Free(ReuseRecord),
    Held(u64),
}

fn number_of(txn: TxnId) -> u64
    ensures { result ≡ txn }
{
    txn.0
}

/// Adds a block with its holder.
fn hold(holders: &mut Sequence<(Dba, TxnId)>, block: u32, number: u64) -> Result<(), NoMemory>
    ensures ok { OnOk result (holders.new ≡ holders.old ++ (block, number) ∷ []) }
{
    holders.push((Dba(block), TxnId(number)))
}

/// A block with this sequence taken into use.
fn reuse<D: Disk>(
    store: &mut Store<D>,
    block: u32,
    sequence: u64,
) -> Result<ReuseRecord, StoreFault>
    requires unspent { store.old.fault ≡ None }
    ensures looked { HasLooked D.meaning store.old store.new result }
    ensures says { (R : List Record) → sequence ≡ undo_sequence R block → IfOk result (λ q. q ≡ reuse_of R block) }
    ensures sound { sequence < 2 ^ 64 - 1 → IfErr result IsSoundFault }
{
    match next_number(sequence) {
        None => Err(store.refuse(Dba(block))),
        Some(sequence) => Ok(ReuseRecord { block, sequence }),
    }
}

/// Asks a block of the ring whether it may be taken into use.
fn ask_behind<D: Disk>(
    alloc: Global,
    store: &mut Store<D>,
    table: &TxnBlock,
    block: u32,
) -> Result<Behind, StoreFault>
    ensures looked { HasLooked D.meaning store.old store.new result }
    ensures says { (R : List Record) → IsTrue D.meaning R store.old → HoldsTable R table.now → IsInRing store.old.shape block → IfOk result (IsBehind R block) }
    ensures sound { (R : List Record) (o : ℕ) → IsTrue D.meaning R store.old → HoldsTable R table.now → IsTable R o → IsInRing store.old.shape block → store.old.fault ≡ None → IfErr result IsSoundFault }
{
    let state = match undo_state(alloc, store, table, block) {
        Ok(state) => state,
        Err(fault) => return Err(fault),
    };
    match state.holder {
        Some(txn) => Ok(Behind::Held(number_of(txn))),
        None => match reuse(store, block, state.sequence) {
            Ok(reuse) => Ok(Behind::Free(reuse)),
            Err(fault) => Err(fault),
        },
    }
}

/// Where undo goes that doesn't fit in the current block: to the first block behind it in the ring that has no holder.
fn next_spot<D: Disk>(
    alloc: Global,
    store: &mut Store<D>,
    table: &TxnBlock,
    current: u32,
) -> Result<Spot, StoreFault>
    requires unspent { store.old.fault ≡ None }
    ensures looked { HasLooked D.meaning store.old store.new result }
    ensures says { (R : List Record) → IsTrue D.meaning R store.old → HoldsTable R table.now → current_undo R ≡ Some current → IfOk result (λ s. told_spot s ≡ spot_behind store.old.shape R current) }
    ensures sound { (R : List Record) (o : ℕ) → IsTrue D.meaning R store.old → HoldsTable R table.now → IsTable R o → current_undo R ≡ Some current → IfErr result IsSoundFault }
    ensures place { IfOk result HasPlace }
{
    let shape = store.shape();
    let others = match others_in_ring(&shape, current) {
        Some(others) => others,
        None => return Err(store.refuse(Dba(current))),
    };
    let mut holders = Sequence::new(alloc);
    for step in 0..others {
        let block = nth_of_ring(&shape, current, step);
        let behind = match ask_behind(alloc, store, table, block) {
            Ok(behind) => behind,
            Err(fault) => return Err(fault),
        };
        match behind {
            Behind::Free(reuse) => return Ok(Spot::Next(reuse)),
            Behind::Held(number) => match hold(&mut holders, block, number) {
                Ok(()) => {}
                Err(_) => return Err(StoreFault::NoMemory),
            },
        }
    }
    Ok(Spot::Full(holders))
}

/// So many bytes more don't fit in an undo block.
fn is_over(used: u16, need: u32) -> bool
    requires { need < 2 ^ 31 }
    ensures { result ≡ ltb BLOCK_ROOM (used + need) }
{
    u32::from(used) + need > BLOCK_ROOM
}

/// An undo block has never so many parts.
fn is_past(count: u8) -> bool
    ensures { result ≡ ltb MOST_UNDO_PARTS count }
{
    count > MOST_UNDO_PARTS
}

/// Where so many bytes of undo go, the current block being used so.
fn spot_beside<D: Disk>(
    alloc: Global,
    store: &mut Store<D>,
    table: &TxnBlock,
    need: u32,
    current: u32,
    state: UndoState,
) -> Result<Spot, StoreFault>
    requires unspent { store.old.fault ≡ None }
    requires few { need < 2 ^ 31 }
    ensures looked { HasLooked D.meaning store.old store.new result }
    ensures says { (R : List Record) → IsTrue D.meaning R store.old → HoldsTable R table.now → current_undo R ≡ Some current → UsedAs R current state → IfOk result (λ s. told_spot s ≡ spot_by store.old.shape R need (Some current)) }
    ensures sound { (R : List Record) (o : ℕ) → IsTrue D.meaning R store.old → HoldsTable R table.now → IsTable R o → current_undo R ≡ Some current → UsedAs R current state → IfErr result IsSoundFault }
    ensures place { IfOk result HasPlace }
{
    if is_over(state.used, need) {
        return next_spot(alloc, store, table, current);
    }
    if is_past(state.count) {
        return Err(store.refuse(Dba(current)));
    }
    Ok(Spot::Here(UndoAddr {
        block: current,
        seq: state.sequence,
        nth: state.count,
    }))
}

/// Where undo goes before any undo block was taken into use: into the first one.
fn first_spot<D: Disk>(store: &mut Store<D>) -> Result<Spot, StoreFault>
    requires unspent { store.old.fault ≡ None }
    ensures looked { HasLooked D.meaning store.old store.new result }
    ensures says { (R : List Record) → undo_sequence R OWN_BLOCKS ≡ 0 → IfOk result (λ s. told_spot s ≡ Next (reuse_of R OWN_BLOCKS)) }
    ensures sound { IfErr result IsSoundFault }
    ensures place { IfOk result HasPlace }
{
    match reuse(store, OWN_BLOCKS, 0) {
        Ok(reuse) => Ok(Spot::Next(reuse)),
        Err(fault) => Err(fault),
    }
}

/// Where so many bytes of undo go.
pub fn find_spot<D: Disk>(
    alloc: Global,
    store: &mut Store<D>,
    table: &TxnBlock,
    need: u32,
) -> Result<Spot, StoreFault>
    requires unspent { store.old.fault ≡ None }
    requires few { need < 2 ^ 31 }
    ensures looked { HasLooked D.meaning store.old store.new result }
    ensures says { (R : List Record) → IsTrue D.meaning R store.old → HoldsTable R table.now → IfOk result (λ s. told_spot s ≡ spot_for store.old.shape R need) }
    ensures sound { (R : List Record) (o : ℕ) → IsTrue D.meaning R store.old → HoldsTable R table.now → IsTable R o → IfErr result IsSoundFault }
    ensures place { IfOk result HasPlace }
{
    let current = match table.current_undo() {
        Some(current) => current,
        None => return first_spot(store),
    };
    let state = match undo_state(alloc, store, table, current) {
        Ok(state) => state,
        Err(fault) => return Err(fault),
    };
    spot_beside(alloc, store, table, need, current, state)
}
