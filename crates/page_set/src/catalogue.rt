// What a record does to the catalogue.
ghost use Rattle.std.specs.Prelude.{◌≡◌, OnOk, IfErr};
ghost use Rattle.page_set.specs.Faults.{Kept};
ghost use Rattle.page_set.specs.Catalogues.{catalogue_changed, catalogue_after, CatalogueFits};
ghost use Rattle.page_set.specs.declared.fault.Unfit.TheVariants as faults;
ghost use Rattle.redo_record.specs.declared.record.Record.TheVariants.{Table};

use crate::fault::Unfit;
use redo_record::{Record, TableRecord};
use seg_base::{Lsn, MOST_TABLES};
use segment_blocks::{Catalogue, NamedTable};
use std::alloc::Global;

fn add_table(alloc: Global, catalogue: &mut Catalogue, table: &TableRecord) -> Result<(), Unfit>
    ensures done { OnOk result (catalogue.new ≡ catalogue_changed (Table table.now) catalogue.old) }
    ensures fits { OnOk result (CatalogueFits (Table table.now)) }
    ensures fault { CatalogueFits (Table table.now) → IfErr result (λ e. e ≡ faults.NoMemory) }
    ensures kept { Kept result catalogue.old catalogue.new }
{
    let obj = table.obj;
    if obj.0 == 0 || obj.0 > MOST_TABLES {
        return Err(Unfit::Misfit);
    }
    let name = table.name.duplicate(alloc)?;
    catalogue.put(
        obj,
        NamedTable {
            name,
            header: table.header,
        },
    );
    Ok(())
}

pub fn change_catalogue(
    alloc: Global,
    catalogue: &mut Catalogue,
    rec: &Record,
    lsn: Lsn,
) -> Result<(), Unfit>
    ensures done { OnOk result (catalogue.new ≡ catalogue_after rec.now lsn catalogue.old) }
    ensures fits { OnOk result (CatalogueFits rec.now) }
    ensures fault { CatalogueFits rec.now → IfErr result (λ e. e ≡ faults.NoMemory) }
    ensures kept { Kept result catalogue.old catalogue.new }
{
    match rec {
        Record::Table(table) => {
            add_table(alloc, catalogue, table)?;
            catalogue.set_lsn(lsn);
            Ok(())
        }
        _ => Err(Unfit::Misfit),
    }
}
