// What a record does to a segment's header.
ghost use Rattle.std.specs.Prelude.{◌≡◌, ◌↔◌, IsTrue, OnOk, IfErr};
ghost use Rattle.page_set.specs.Faults.{Kept};
ghost use Rattle.page_set.specs.Headers.{header_changed, header_after, HeaderFits, TableFits};
ghost use Rattle.page_set.specs.declared.fault.Unfit.TheVariants as faults;
ghost use Rattle.redo_record.specs.declared.record.Record.TheVariants.{Extend, Lower};

use crate::fault::Unfit;
use redo_record::{ExtendRecord, LowerRecord, Record, TableRecord};
use seg_base::{Lsn, MOST_EXTENTS, MOST_PCTFREE, MOST_TABLES};
use segment_blocks::SegmentHeader;

/// Whether a table's number and its PCTFREE are within their bounds.
pub fn table_fits(table: &TableRecord) -> bool
    ensures { IsTrue result ↔ TableFits table.now }
{
    let obj = table.obj;
    obj.0 >= 1 && obj.0 <= MOST_TABLES && table.pctfree <= MOST_PCTFREE
}

fn add_extent(header: &mut SegmentHeader, e: &ExtendRecord) -> Result<(), Unfit>
    ensures done { OnOk result (header.new ≡ header_changed (Extend e.now) header.old) }
    ensures fits { OnOk result (HeaderFits (Extend e.now) header.old) }
    ensures fault { HeaderFits (Extend e.now) header.old → IfErr result (λ e. e ≡ faults.NoMemory) }
    ensures kept { Kept result header.old header.new }
{
    if header.extents() >= MOST_EXTENTS {
        return Err(Unfit::Misfit);
    }
    header.add_extent(e.extent)?;
    Ok(())
}

fn lower(header: &mut SegmentHeader, l: &LowerRecord)
    ensures { header.new ≡ header_changed (Lower l.now) header.old }
{
    header.set_marks(l.low, l.high);
    header.keep_extents(l.kept);
}

fn change(header: &mut SegmentHeader, rec: &Record) -> Result<(), Unfit>
    ensures done { OnOk result (header.new ≡ header_changed rec.now header.old) }
    ensures fits { OnOk result (HeaderFits rec.now header.old) }
    ensures fault { HeaderFits rec.now header.old → IfErr result (λ e. e ≡ faults.NoMemory) }
    ensures kept { Kept result header.old header.new }
{
    match rec {
        Record::Table(table) => {
            if !table_fits(table) {
                return Err(Unfit::Misfit);
            }
            Ok(())
        }
        Record::Movement(m) => {
            header.set_movement(m.on);
            Ok(())
        }
        Record::Extend(e) => add_extent(header, e),
        Record::Advance(a) => {
            header.set_marks(a.low, a.high);
            Ok(())
        }
        Record::Lower(l) => {
            lower(header, l);
            Ok(())
        }
        _ => Err(Unfit::Misfit),
    }
}

pub fn change_header(header: &mut SegmentHeader, rec: &Record, lsn: Lsn) -> Result<(), Unfit>
    ensures done { OnOk result (header.new ≡ header_after rec.now lsn header.old) }
    ensures fits { OnOk result (HeaderFits rec.now header.old) }
    ensures fault { HeaderFits rec.now header.old → IfErr result (λ e. e ≡ faults.NoMemory) }
    ensures kept { Kept result header.old header.new }
{
    change(header, rec)?;
    header.set_lsn(lsn);
    Ok(())
}
