// What a record does to the space bitmap. It takes no memory.
ghost use Rattle.std.specs.Prelude.{◌≡◌, ◌<◌, OnOk, IfErr};
ghost use Rattle.page_set.specs.Spaces.{freed, AreCovered, space_changed, space_after, SpaceFits};
ghost use Rattle.page_set.specs.Faults.{IsMisfit};
ghost use Rattle.redo_record.specs.declared.record.Record.TheVariants.{Extend, Lower};

use crate::fault::Unfit;
use redo_record::{ExtendRecord, LowerRecord, Record};
use seg_base::Lsn;
use segment_blocks::SpaceBitmap;

fn take(space: &mut SpaceBitmap, e: &ExtendRecord) -> Result<(), Unfit>
    ensures done { OnOk result (space.new ≡ space_changed (Extend e.now) space.old) }
    ensures fault { IsMisfit result (SpaceFits (Extend e.now)) }
{
    let extent = e.extent;
    if extent >= 2043 {
        return Err(Unfit::Misfit);
    }
    space.mark(extent, true);
    Ok(())
}

fn free(space: &mut SpaceBitmap, extents: &[u32]) -> Result<(), Unfit>
    ensures done { OnOk result (space.new ≡ record space.old { bits = freed extents.now space.old.bits }) }
    ensures fault { IsMisfit result (AreCovered extents.now) }
{
    match extents {
        [] => Ok(()),
        [first, rest @ ..] => {
            if *first >= 2043 {
                return Err(Unfit::Misfit);
            }
            space.mark(*first, false);
            free(space, rest)
        }
    }
}

fn lower(space: &mut SpaceBitmap, l: &LowerRecord) -> Result<(), Unfit>
    ensures done { OnOk result (space.new ≡ space_changed (Lower l.now) space.old) }
    ensures fault { IsMisfit result (SpaceFits (Lower l.now)) }
{
    space.set_lowerings(l.lowering);
    free(space, l.released.as_slice())
}

fn change(space: &mut SpaceBitmap, rec: &Record) -> Result<(), Unfit>
    ensures done { OnOk result (space.new ≡ space_changed rec.now space.old) }
    ensures fault { IsMisfit result (SpaceFits rec.now) }
{
    match rec {
        Record::Extend(e) => take(space, e),
        Record::Lower(l) => lower(space, l),
        _ => Err(Unfit::Misfit),
    }
}

pub fn change_space(space: &mut SpaceBitmap, rec: &Record, lsn: Lsn) -> Result<(), Unfit>
    ensures done { OnOk result (space.new ≡ space_after rec.now lsn space.old) }
    ensures fault { IsMisfit result (SpaceFits rec.now) }
{
    change(space, rec)?;
    space.set_lsn(lsn);
    Ok(())
}
