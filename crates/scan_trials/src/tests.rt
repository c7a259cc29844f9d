// Scans of a table with one block, 43, in a store of three extents.
ghost use Rattle.std.specs.Prelude.{◌≤◌};

use disk_model::Memory;
use mark_move::{MarkStep, new_table, step};
use scan_table::{ScanStep, Scanned, Scans};
use seg_base::{Dba, Name, Obj, Scn, Shape, TxnId};
use std::alloc::Global;
use std::test::Fail;
use store_core::{Store, prepare};
use store_files::format;

fn formatted(alloc: Global) -> Result<Memory, Fail> {
    let shape = Shape {
        blocks: 64,
        extent: 8,
        undo: 2,
    };
    let mut disk = Memory::new(alloc, b"", b"", &[])?;
    format(&mut disk, shape)?;
    Ok(disk)
}

fn make(alloc: Global, store: &mut Store<Memory>) -> Result<(), Fail> {
    let name = match Name::copy(alloc, b"t")? {
        Some(name) => name,
        None => Err("no name")?,
    };
    let obj = new_table(alloc, store, &name, 0)?;
    step(store, obj, MarkStep::Advance)?;
    step(store, obj, MarkStep::Format(Dba(43)))?;
    Ok(())
}

fn begin(
    scans: &mut Scans,
    store: &mut Store<Memory>,
    who: u8,
    own: Option<TxnId>,
) -> Result<bool, Fail>
    requires least { 1 ≤ who }
    requires most { who ≤ 64 }
{
    if store.spent() || scans.is_open(who) {
        return Err("no scan can begin")?;
    }
    match scans.open(store, who, Obj(1), own)? {
        ScanStep::More => Ok(true),
        ScanStep::Done(_) => Ok(false),
    }
}

fn read_all(scans: &mut Scans, store: &mut Store<Memory>, who: u8) -> Result<Scanned, Fail>
    requires least { 1 ≤ who }
    requires most { who ≤ 64 }
{
    if store.spent() || !scans.is_open(who) {
        return Err("no scan is open")?;
    }
    match scans.read_next(store, who)? {
        ScanStep::More => Err("a block is left")?,
        ScanStep::Done(scanned) => Ok(scanned),
    }
}

#[test]
fn an_empty_block_is_an_event(rt: HostRuntime) -> Result<(), Fail> {
    let alloc = rt.alloc();
    let mut disk = formatted(alloc)?;
    let loaded = prepare(alloc, &mut disk)?;
    let mut store = Store::over(&mut disk, loaded);
    make(alloc, &mut store)?;
    let mut scans = Scans::new(alloc)?;
    assert_eq!(rt; begin(&mut scans, &mut store, 1, None)?, true);
    let seen = read_all(&mut scans, &mut store, 1)?;
    assert_eq!(rt; (seen.at, seen.rows.len()), (Scn(0), 0));
    assert_eq!(rt; scans.is_open(1), false);
    Ok(())
}
