// What a record does to the bitmaps of the three levels. It takes no memory.
ghost use Rattle.std.specs.Prelude.{◌≡◌, ◌<◌, ◌≤◌, ◌-◌, ◌%◌, ◌/◌, OnOk};
ghost use Rattle.page_set.specs.Faults.{IsMisfit};
ghost use Rattle.page_set.specs.Maps.{with_code, with_best, IsIn, is_block, covered_from, first_changed, FirstFits, second_changed, SecondFits, third_changed, ThirdFits, first_after, second_after, third_after};
ghost use Rattle.redo_record.specs.declared.record.Record.TheVariants.{Lower};

use crate::fault::Unfit;
use bitmap_block::{L1, L2, L3};
use redo_record::{LowerRecord, Record};
use seg_base::{Dba, EXTENTS_OF_L2, Lsn, MOST_EXTENT_BLOCKS, MOST_EXTENTS, class_code};

fn set_first(map: &mut L1, dba: Dba, code: u8) -> Result<(), Unfit>
    requires { code ≤ 5 }
    ensures done { OnOk result (map.new ≡ with_code map.old (dba - map.old.dba) code) }
    ensures fault { IsMisfit result (IsIn map.old dba) }
{
    let first = map.dba();
    if dba < first || dba.0 - first.0 >= MOST_EXTENT_BLOCKS {
        return Err(Unfit::Misfit);
    }
    map.set((dba.0 - first.0) as u16, code);
    Ok(())
}

fn set_second(map: &mut L2, index: u16, code: u8) -> Result<(), Unfit>
    ensures done { OnOk result (map.new ≡ with_best map.old (index % EXTENTS_OF_L2) code) }
    ensures fault { IsMisfit result (code ≤ 5) }
{
    if code > 5 {
        return Err(Unfit::Misfit);
    }
    map.set(index % EXTENTS_OF_L2 as u16, code);
    Ok(())
}

fn set_third(map: &mut L3, index: u16, code: u8) -> Result<(), Unfit>
    ensures done { OnOk result (map.new ≡ with_best map.old (index / EXTENTS_OF_L2) code) }
    ensures fault { IsMisfit result ((index < MOST_EXTENTS) × (code ≤ 5)) }
{
    if code > 5 || index >= MOST_EXTENTS {
        return Err(Unfit::Misfit);
    }
    map.set(index / EXTENTS_OF_L2 as u16, code);
    Ok(())
}

fn is_block(block: Option<Dba>, dba: Dba) -> bool
    ensures { result ≡ is_block block dba }
{
    match block {
        None => false,
        Some(other) => other == dba,
    }
}

/// The index of the first extent that a second level covers, by its place among those of its table.
fn covered_from(l2: &[Option<Dba>; 3], dba: Dba) -> u16
    ensures { result ≡ covered_from l2.now dba }
{
    if is_block(l2[0], dba) {
        return 0;
    }
    if is_block(l2[1], dba) {
        return EXTENTS_OF_L2 as u16;
    }
    (2 * EXTENTS_OF_L2) as u16
}

fn lower_second(map: &mut L2, l: &LowerRecord)
    ensures { map.new ≡ second_changed (Lower l.now) map.old }
{
    let kept = l.kept.saturating_sub(covered_from(&l.l2, map.dba()));
    map.clear_from(kept.min(EXTENTS_OF_L2 as u16));
}

fn lower_third(map: &mut L3, l: &LowerRecord) -> Result<(), Unfit>
    ensures done { OnOk result (map.new ≡ third_changed (Lower l.now) map.old) }
    ensures fault { IsMisfit result (ThirdFits (Lower l.now)) }
{
    let [first, second, third] = l.bests;
    if first > 5 || second > 5 || third > 5 {
        return Err(Unfit::Misfit);
    }
    map.set(0, first);
    map.set(1, second);
    map.set(2, third);
    Ok(())
}

fn first(map: &mut L1, rec: &Record) -> Result<(), Unfit>
    ensures done { OnOk result (map.new ≡ first_changed rec.now map.old) }
    ensures fault { IsMisfit result (FirstFits rec.now map.old) }
{
    match rec {
        Record::Extend(_) => Ok(()),
        Record::FormatBlock(f) => set_first(map, f.dba, 5),
        Record::Class(k) => set_first(map, k.dba, class_code(k.class)),
        _ => Err(Unfit::Misfit),
    }
}

fn second(map: &mut L2, rec: &Record) -> Result<(), Unfit>
    ensures done { OnOk result (map.new ≡ second_changed rec.now map.old) }
    ensures fault { IsMisfit result (SecondFits rec.now) }
{
    match rec {
        Record::Extend(e) => set_second(map, e.index, 0),
        Record::FormatBlock(f) => set_second(map, f.index, f.best_of_l1),
        Record::Class(k) => set_second(map, k.index, k.best_of_l1),
        Record::Lower(l) => {
            lower_second(map, l);
            Ok(())
        }
        _ => Err(Unfit::Misfit),
    }
}

fn third(map: &mut L3, rec: &Record) -> Result<(), Unfit>
    ensures done { OnOk result (map.new ≡ third_changed rec.now map.old) }
    ensures fault { IsMisfit result (ThirdFits rec.now) }
{
    match rec {
        Record::Extend(_) => Ok(()),
        Record::FormatBlock(f) => set_third(map, f.index, f.best_of_l2),
        Record::Class(k) => set_third(map, k.index, k.best_of_l2),
        Record::Lower(l) => lower_third(map, l),
        _ => Err(Unfit::Misfit),
    }
}

pub fn change_first(map: &mut L1, rec: &Record, lsn: Lsn) -> Result<(), Unfit>
    ensures done { OnOk result (map.new ≡ first_after rec.now lsn map.old) }
    ensures fault { IsMisfit result (FirstFits rec.now map.old) }
{
    first(map, rec)?;
    map.set_lsn(lsn);
    Ok(())
}

pub fn change_second(map: &mut L2, rec: &Record, lsn: Lsn) -> Result<(), Unfit>
    ensures done { OnOk result (map.new ≡ second_after rec.now lsn map.old) }
    ensures fault { IsMisfit result (SecondFits rec.now) }
{
    second(map, rec)?;
    map.set_lsn(lsn);
    Ok(())
}

pub fn change_third(map: &mut L3, rec: &Record, lsn: Lsn) -> Result<(), Unfit>
    ensures done { OnOk result (map.new ≡ third_after rec.now lsn map.old) }
    ensures fault { IsMisfit result (ThirdFits rec.now) }
{
    third(map, rec)?;
    map.set_lsn(lsn);
    Ok(())
}
