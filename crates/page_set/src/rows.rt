// What a record does to a row block.
ghost use Rattle.std.specs.Prelude.{◌≡◌, true, false, eqb, OnOk, IfErr};
ghost use Rattle.seg_base.specs.Blocks.{put_slot};
ghost use Rattle.redo_model.specs.Effects.{effect_of, written, restored};
ghost use Rattle.redo_model.specs.Blocks.{place_all, enter_all, enter_at};
ghost use Rattle.row_block.specs.RowPage.{with_block, CanPut};
ghost use Rattle.page_set.specs.Among.{is_among, blocks_of, back_blocks};
ghost use Rattle.page_set.specs.Faults.{Kept, IsMisfit};
ghost use Rattle.page_set.specs.Rows.{with_images, with_names, changed_block, ImagesFit, NamesFit, EntryFits, EffectFits, rows_after};
ghost use Rattle.page_set.specs.declared.fault.Unfit.TheVariants as faults;

use crate::fault::Unfit;
use crate::page::rows_copy;
use redo_record::{BackPart, Record, RowPart};
use row_block::RowBlock;
use seg_base::{Dba, ListEntry, Lsn, Scn, Slot, TxnId};
use std::alloc::Global;

fn put_image(alloc: Global, block: &mut RowBlock, slot: u8, image: &Slot) -> Result<(), Unfit>
    ensures done { OnOk result (block.new ≡ with_block block.old (put_slot slot image.now block.old.block)) }
    ensures fits { OnOk result (CanPut block.old.block slot image.now) }
    ensures fault { CanPut block.old.block slot image.now → IfErr result (λ e. e ≡ faults.NoMemory) }
    ensures kept { Kept result block.old block.new }
{
    if !block.can_put(slot, image) {
        return Err(Unfit::Misfit);
    }
    let copy = image.duplicate(alloc)?;
    match block.put_slot(slot, copy) {
        Ok(()) => Ok(()),
        Err(_) => Err(Unfit::NoMemory),
    }
}

/// Whether some part names the block.
fn name_block(parts: &[RowPart], dba: Dba) -> bool
    ensures { result ≡ is_among (blocks_of parts.now) dba }
{
    match parts {
        [] => false,
        [first, rest @ ..] => first.dba == dba || name_block(rest, dba),
    }
}

/// Puts the new images of a record's parts, the last one first. Where two of them stand in this block, a copy of the block is
/// changed, so that without memory the block stays as it is.
#[tactic(auto, using(crate::proofs::Quiet::first_other, crate::proofs::Quiet::rest_other))]
fn put_parts(alloc: Global, block: &mut RowBlock, parts: &[RowPart]) -> Result<(), Unfit>
    ensures done { OnOk result (block.new ≡ with_block block.old (with_images (written parts.now) block.old.dba block.old.block)) }
    ensures fits { OnOk result (ImagesFit (written parts.now) block.old.dba block.old.block) }
    ensures fault { ImagesFit (written parts.now) block.old.dba block.old.block → IfErr result (λ e. e ≡ faults.NoMemory) }
    ensures quiet { is_among (blocks_of parts.now) block.old.dba ≡ false → block.new ≡ block.old }
    ensures kept { Kept result block.old block.new }
{
    match parts {
        [] => Ok(()),
        [first, rest @ ..] => {
            if first.dba != block.dba() {
                return put_parts(alloc, block, rest);
            }
            if name_block(rest, block.dba()) {
                let mut copy = rows_copy(alloc, block)?;
                put_parts(alloc, &mut copy, rest)?;
                put_image(alloc, &mut copy, first.slot, &first.new)?;
                *block = copy;
                return Ok(());
            }
            put_parts(alloc, block, rest)?;
            put_image(alloc, block, first.slot, &first.new)
        }
    }
}

/// Whether some part names the block.
fn name_block_back(parts: &[BackPart], dba: Dba) -> bool
    ensures { result ≡ is_among (back_blocks parts.now) dba }
{
    match parts {
        [] => false,
        [first, rest @ ..] => first.dba == dba || name_block_back(rest, dba),
    }
}

/// Puts back the images that a Back states, the last one first. Where two of them stand in this block, a copy of the block is
/// changed, so that without memory the block stays as it is.
#[tactic(auto, using(crate::proofs::Quiet::first_other, crate::proofs::Quiet::rest_other))]
fn put_back(alloc: Global, block: &mut RowBlock, parts: &[BackPart]) -> Result<(), Unfit>
    ensures done { OnOk result (block.new ≡ with_block block.old (with_images (restored parts.now) block.old.dba block.old.block)) }
    ensures fits { OnOk result (ImagesFit (restored parts.now) block.old.dba block.old.block) }
    ensures fault { ImagesFit (restored parts.now) block.old.dba block.old.block → IfErr result (λ e. e ≡ faults.NoMemory) }
    ensures quiet { is_among (back_blocks parts.now) block.old.dba ≡ false → block.new ≡ block.old }
    ensures kept { Kept result block.old block.new }
{
    match parts {
        [] => Ok(()),
        [first, rest @ ..] => {
            if first.dba != block.dba() {
                return put_back(alloc, block, rest);
            }
            if name_block_back(rest, block.dba()) {
                let mut copy = rows_copy(alloc, block)?;
                put_back(alloc, &mut copy, rest)?;
                put_image(alloc, &mut copy, first.slot, &first.new)?;
                *block = copy;
                return Ok(());
            }
            put_back(alloc, block, rest)?;
            put_image(alloc, block, first.slot, &first.new)
        }
    }
}

fn enter(block: &mut RowBlock, txn: TxnId, entry: Option<u8>) -> Result<(), Unfit>
    ensures done { OnOk result (block.new ≡ with_block block.old (record { slots = block.old.block.slots; entries = enter_at entry txn block.old.block.entries })) }
    ensures fault { IsMisfit result (EntryFits entry block.old.block) }
{
    match entry {
        None => Ok(()),
        Some(i) => {
            if !block.can_enter(i) {
                return Err(Unfit::Misfit);
            }
            block.put_entry(
                i,
                ListEntry {
                    txn,
                    number: Scn(0),
                },
            );
            Ok(())
        }
    }
}

fn enter_parts(block: &mut RowBlock, txn: TxnId, parts: &[RowPart]) -> Result<(), Unfit>
    ensures done { OnOk result (block.new ≡ with_block block.old (with_names parts.now txn block.old.dba block.old.block)) }
    ensures fault { IsMisfit result (NamesFit parts.now txn block.old.dba block.old.block) }
{
    match parts {
        [] => Ok(()),
        [first, rest @ ..] => {
            enter_parts(block, txn, rest)?;
            if first.dba == block.dba() {
                enter(block, txn, first.entry)?;
            }
            Ok(())
        }
    }
}

fn add_step(alloc: Global, block: &mut RowBlock, txn: TxnId, parts: &[RowPart]) -> Result<(), Unfit>
    ensures done { OnOk result (block.new ≡ with_block block.old (with_names parts.now txn block.old.dba (with_images (written parts.now) block.old.dba block.old.block))) }
    ensures images { OnOk result (ImagesFit (written parts.now) block.old.dba block.old.block) }
    ensures names { OnOk result (NamesFit parts.now txn block.old.dba (with_images (written parts.now) block.old.dba block.old.block)) }
    ensures fault { ImagesFit (written parts.now) block.old.dba block.old.block → NamesFit parts.now txn block.old.dba (with_images (written parts.now) block.old.dba block.old.block) → IfErr result (λ e. e ≡ faults.NoMemory) }
    ensures kept { Kept result block.old block.new }
{
    put_parts(alloc, block, parts)?;
    enter_parts(block, txn, parts)
}

fn change(alloc: Global, block: &mut RowBlock, rec: &Record) -> Result<(), Unfit>
    ensures done { OnOk result (block.new ≡ with_block block.old (changed_block (effect_of rec.now) block.old.dba block.old.block)) }
    ensures fits { OnOk result (EffectFits (effect_of rec.now) block.old.dba block.old.block) }
    ensures fault { EffectFits (effect_of rec.now) block.old.dba block.old.block → IfErr result (λ e. e ≡ faults.NoMemory) }
    ensures kept { Kept result block.old block.new }
{
    match rec {
        Record::Insert(w)
        | Record::Update(w)
        | Record::Migrate(w)
        | Record::Return(w)
        | Record::Delete(w) => add_step(alloc, block, w.txn, w.parts.as_slice()),
        Record::Move(m) => put_parts(alloc, block, m.parts.as_slice()),
        Record::Back(k) => put_back(alloc, block, k.parts.as_slice()),
        Record::FormatBlock(f) => {
            if f.dba != block.dba() {
                return Err(Unfit::Misfit);
            }
            block.clear();
            Ok(())
        }
        Record::Clean(c) => {
            if c.dba != block.dba() {
                return Err(Unfit::Misfit);
            }
            block.clean(c.ended.as_slice());
            Ok(())
        }
        _ => Err(Unfit::Misfit),
    }
}

pub fn change_rows(alloc: Global, block: &mut RowBlock, rec: &Record, lsn: Lsn) -> Result<(), Unfit>
    ensures done { OnOk result (block.new ≡ rows_after (effect_of rec.now) lsn block.old) }
    ensures fits { OnOk result (EffectFits (effect_of rec.now) block.old.dba block.old.block) }
    ensures fault { EffectFits (effect_of rec.now) block.old.dba block.old.block → IfErr result (λ e. e ≡ faults.NoMemory) }
    ensures kept { Kept result block.old block.new }
{
    change(alloc, block, rec)?;
    block.set_lsn(lsn);
    Ok(())
}
