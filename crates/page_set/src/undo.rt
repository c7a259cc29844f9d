// What a record does to an undo block.
ghost use Rattle.std.specs.Prelude.{◌≡◌, ◌+◌, ◌≤◌, ◌++◌, length, cond, eqb, OnOk, IfErr, List, false, true};
ghost use Rattle.redo_model.specs.Effects.{Step, Adds, effect_of, row_step, move_step};
ghost use Rattle.seg_words.specs.Types.{AllByRecursion, BLOCK_ROOM};
ghost use Rattle.undo_block.specs.Parts.{used_by, HasPartForm};
ghost use Rattle.page_set.specs.Undo.{kept_parts, parts_of, undo_after, undo_changed, StepFits, txn_of};
ghost use Rattle.page_set.specs.Faults.{Kept};
ghost use Rattle.page_set.specs.Changes.{UndoFits};
ghost use Rattle.page_set.specs.declared.fault.Unfit.TheVariants as faults;

use crate::fault::Unfit;
use redo_record::{MoveRecord, Record, RowBody, RowPart};
use seg_base::{Lsn, NoMemory, TxnId, UndoPlace};
use std::alloc::Global;
use undo_block::{Part, UndoBlock, UndoFault, have_part_form};

/// Adds the parts that a record keeps: the old images, in order.
#[tactic(auto, using(crate::proofs::Adding::added_next, crate::proofs::Adding::added_none))]
fn keep(
    alloc: Global,
    kept: &mut Vec<Part>,
    txn: TxnId,
    previous: Option<UndoPlace>,
    count: u8,
    parts: &[RowPart],
) -> Result<(), NoMemory>
    ensures { OnOk result (kept.new.items ≡ kept.old.items ++ kept_parts txn previous count parts.now) }
{
    match parts {
        [] => Ok(()),
        [first, rest @ ..] => {
            let old = first.old.duplicate(alloc)?;
            kept.push(Part {
                txn,
                previous,
                dba: first.dba,
                slot: first.slot,
                parts: count,
                old,
            })?;
            keep(alloc, kept, txn, previous, count, rest)
        }
    }
}

fn append(block: &mut UndoBlock, kept: Vec<Part>) -> Result<(), Unfit>
    ensures done { OnOk result (block.new ≡ record block.old { parts = block.old.parts ++ kept.items }) }
    ensures fits { OnOk result ((used_by block.old.parts + used_by kept.items ≤ BLOCK_ROOM) × AllByRecursion HasPartForm kept.items) }
    ensures fault { used_by block.old.parts + used_by kept.items ≤ BLOCK_ROOM → AllByRecursion HasPartForm kept.items → IfErr result (λ e. e ≡ faults.NoMemory) }
    ensures kept { Kept result block.old block.new }
{
    if !have_part_form(&kept) {
        return Err(Unfit::Misfit);
    }
    match block.append_owned(kept) {
        Ok(_) => Ok(()),
        Err(UndoFault::NoMemory) => Err(Unfit::NoMemory),
        Err(_) => Err(Unfit::Misfit),
    }
}

/// Adds the parts of a step to the undo block that the step names.
fn add(
    alloc: Global,
    block: &mut UndoBlock,
    at: u32,
    txn: TxnId,
    previous: Option<UndoPlace>,
    parts: &[RowPart],
) -> Result<(), Unfit>
    requires { length parts.now ≤ 3 }
    ensures done { OnOk result (block.new ≡ record block.old { parts = cond (eqb at block.old.dba) (block.old.parts ++ kept_parts txn previous (length parts.now) parts.now) block.old.parts }) }
    ensures fits { OnOk result ((at ≡ block.old.dba) × (used_by block.old.parts + used_by (kept_parts txn previous (length parts.now) parts.now) ≤ BLOCK_ROOM) × AllByRecursion HasPartForm (kept_parts txn previous (length parts.now) parts.now)) }
    ensures fault { at ≡ block.old.dba → used_by block.old.parts + used_by (kept_parts txn previous (length parts.now) parts.now) ≤ BLOCK_ROOM → AllByRecursion HasPartForm (kept_parts txn previous (length parts.now) parts.now) → IfErr result (λ e. e ≡ faults.NoMemory) }
    ensures kept { Kept result block.old block.new }
{
    if at != block.dba().0 {
        return Err(Unfit::Misfit);
    }
    let mut kept = Vec::new(alloc);
    keep(alloc, &mut kept, txn, previous, parts.len() as u8, parts)?;
    append(block, kept)
}

fn add_row(alloc: Global, block: &mut UndoBlock, w: &RowBody) -> Result<(), Unfit>
    ensures done { OnOk result (block.new ≡ record block.old { parts = undo_changed (Adds (row_step w.now false)) block.old.dba block.old.parts }) }
    ensures deleted { OnOk result (block.new ≡ record block.old { parts = undo_changed (Adds (row_step w.now true)) block.old.dba block.old.parts }) }
    ensures fits { OnOk result (StepFits (row_step w.now false) block.old) }
    ensures fits_deleted { OnOk result (StepFits (row_step w.now true) block.old) }
    ensures fault { StepFits (row_step w.now false) block.old → IfErr result (λ e. e ≡ faults.NoMemory) }
    ensures fault_deleted { StepFits (row_step w.now true) block.old → IfErr result (λ e. e ≡ faults.NoMemory) }
    ensures kept { Kept result block.old block.new }
{
    add(
        alloc,
        block,
        w.undo.block,
        w.txn,
        w.previous,
        w.parts.as_slice(),
    )
}

fn add_move(alloc: Global, block: &mut UndoBlock, m: &MoveRecord) -> Result<(), Unfit>
    ensures done { OnOk result (block.new ≡ record block.old { parts = undo_changed (Adds (move_step m.now)) block.old.dba block.old.parts }) }
    ensures fits { OnOk result (StepFits (move_step m.now) block.old) }
    ensures fault { StepFits (move_step m.now) block.old → IfErr result (λ e. e ≡ faults.NoMemory) }
    ensures kept { Kept result block.old block.new }
{
    add(
        alloc,
        block,
        m.undo.block,
        TxnId(0),
        None,
        m.parts.as_slice(),
    )
}

fn change(alloc: Global, block: &mut UndoBlock, rec: &Record) -> Result<(), Unfit>
    ensures done { OnOk result (block.new ≡ record block.old { parts = undo_changed (effect_of rec.now) block.old.dba block.old.parts }) }
    ensures fits { OnOk result (UndoFits rec.now block.old) }
    ensures fault { UndoFits rec.now block.old → IfErr result (λ e. e ≡ faults.NoMemory) }
    ensures kept { Kept result block.old block.new }
{
    match rec {
        Record::Insert(w)
        | Record::Update(w)
        | Record::Migrate(w)
        | Record::Return(w)
        | Record::Delete(w) => add_row(alloc, block, w),
        Record::Move(m) => add_move(alloc, block, m),
        Record::Reuse(q) => {
            if q.block != block.dba().0 {
                return Err(Unfit::Misfit);
            }
            Ok(())
        }
        _ => Err(Unfit::Misfit),
    }
}

pub fn change_undo(
    alloc: Global,
    block: &mut UndoBlock,
    rec: &Record,
    lsn: Lsn,
) -> Result<(), Unfit>
    ensures done { OnOk result (block.new ≡ undo_after (effect_of rec.now) lsn block.old) }
    ensures fits { OnOk result (UndoFits rec.now block.old) }
    ensures fault { UndoFits rec.now block.old → IfErr result (λ e. e ≡ faults.NoMemory) }
    ensures kept { Kept result block.old block.new }
{
    change(alloc, block, rec)?;
    block.set_lsn(lsn);
    Ok(())
}
