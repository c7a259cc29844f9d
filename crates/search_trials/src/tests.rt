// Tables, marks and searches in a store of three extents: 39 to 46, 47 to 54 and 55 to 62. The data blocks of a table that has
// all three are 43 to 46, 48 to 54 and 56 to 62.
use disk_model::Memory;
use free_search::{FindFault, Found, MarkStep, find, next_mark};
use mark_move::{MarkFault, movement, new_table, step};
use seg_base::{Dba, Name, Obj, Shape, Taker};
use space_usage::{FixFault, fix_status};
use std::alloc::Global;
use std::test::Fail;
use store_core::{Store, StoreFault, prepare};
use store_files::format;
use store_read::read_segment;

fn formatted(alloc: Global) -> Result<Memory, Fail> {
    let shape = Shape {
        blocks: 64,
        extent: 8,
        undo: 2,
    };
    let mut disk = Memory::new(alloc, b"", b"", &[])?;
    format(&mut disk, shape)?;
    Ok(disk)
}

// The same with 907 extents.
fn formatted_large(alloc: Global) -> Result<Memory, Fail> {
    let shape = Shape {
        blocks: 7_300,
        extent: 8,
        undo: 2,
    };
    let mut disk = Memory::new(alloc, b"", b"", &[])?;
    format(&mut disk, shape)?;
    Ok(disk)
}

fn make(alloc: Global, store: &mut Store<Memory>, name: &[u8]) -> Result<Obj, MarkFault> {
    match Name::copy(alloc, name) {
        Ok(Some(name)) => new_table(alloc, store, &name, 0),
        _ => Err(MarkFault::Store(StoreFault::NoMemory)),
    }
}

fn search(alloc: Global, store: &mut Store<Memory>, len: u16) -> Result<Found, FindFault> {
    find(alloc, store, Obj(1), len, Taker::New, None, [None, None])
}

// Makes the movement of the marks that was found.
fn make_found(store: &mut Store<Memory>, found: Found) -> Result<(), StoreFault> {
    match found {
        Found::Mark(next) => step(store, Obj(1), next),
        Found::Block(_) => Ok(()),
    }
}

// How many movements a search asks for until it is refused, and how.
fn fill(alloc: Global, store: &mut Store<Memory>, len: u16) -> Result<(u8, FindFault), Fail> {
    for moves in 0..30 {
        match search(alloc, store, len) {
            Ok(found) => make_found(store, found)?,
            Err(fault) => return Ok((moves, fault)),
        }
    }
    Err("the marks go on moving")?
}

// What a search for a row of 100 bytes finds under a hint, without two blocks.
fn hinted(
    alloc: Global,
    store: &mut Store<Memory>,
    hint: Option<u32>,
    first: Option<Dba>,
    second: Option<Dba>,
) -> Result<Found, FindFault> {
    let but = [first, second];
    find(alloc, store, Obj(1), 100, Taker::New, hint, but)
}

#[test]
fn marks_move_before_the_first_row(rt: HostRuntime) -> Result<(), Fail> {
    let alloc = rt.alloc();
    let mut disk = formatted(alloc)?;
    let loaded = prepare(alloc, &mut disk)?;
    let mut store = Store::over(&mut disk, loaded);
    assert_eq!(rt; make(alloc, &mut store, b"t"), Ok(Obj(1)));
    assert_eq!(rt; next_mark(&mut store, Obj(1)), Ok(Some(MarkStep::Advance)));
    for want in [MarkStep::Advance, MarkStep::Format(Dba(43))] {
        let found = search(alloc, &mut store, 1_800)?;
        assert_eq!(rt; found, Found::Mark(want));
        make_found(&mut store, found)?;
    }
    assert_eq!(rt; search(alloc, &mut store, 1_800), Ok(Found::Block(Dba(43))));
    assert_eq!(rt; store.log_len(), 4);
    Ok(())
}

#[test]
fn each_table_takes_an_extent(rt: HostRuntime) -> Result<(), Fail> {
    let alloc = rt.alloc();
    let mut disk = formatted(alloc)?;
    let loaded = prepare(alloc, &mut disk)?;
    let mut store = Store::over(&mut disk, loaded);
    assert_eq!(rt; make(alloc, &mut store, b"a"), Ok(Obj(1)));
    assert_eq!(rt; make(alloc, &mut store, b"b"), Ok(Obj(2)));
    assert_eq!(rt; movement(&mut store, Obj(2), true), Ok(()));
    assert_eq!(rt; make(alloc, &mut store, b"c"), Ok(Obj(3)));
    assert_eq!(rt;
        make(alloc, &mut store, b"d"),
        Err(MarkFault::NoSpace { need: 0 })
    );
    assert_eq!(rt; store.log_len(), 7);
    for (obj, header, on) in [(1, 42, false), (2, 50, true), (3, 58, false)] {
        let segment = read_segment(&mut store, Obj(obj))?;
        assert_eq!(rt; (segment.header, segment.movement), (Dba(header), on));
    }
    Ok(())
}

#[test]
fn a_search_is_refused_at_the_end(rt: HostRuntime) -> Result<(), Fail> {
    let alloc = rt.alloc();
    let mut disk = formatted(alloc)?;
    let loaded = prepare(alloc, &mut disk)?;
    let mut store = Store::over(&mut disk, loaded);
    assert_eq!(rt; make(alloc, &mut store, b"t"), Ok(Obj(1)));
    let refused = FindFault::NoSpace { need: 5_000 };
    assert_eq!(rt; fill(alloc, &mut store, 5_000)?, (23, refused));
    assert_eq!(rt; store.log_len(), 25);
    assert_eq!(rt; next_mark(&mut store, Obj(1)), Ok(None));
    let found = hinted(alloc, &mut store, None, None, None);
    assert_eq!(rt; found, Ok(Found::Block(Dba(43))));
    let found = hinted(alloc, &mut store, None, Some(Dba(43)), Some(Dba(44)));
    assert_eq!(rt; found, Ok(Found::Block(Dba(45))));
    let found = hinted(alloc, &mut store, Some(1), None, None);
    assert_eq!(rt; found, Ok(Found::Block(Dba(48))));
    let found = hinted(alloc, &mut store, Some(1), None, Some(Dba(48)));
    assert_eq!(rt; found, Ok(Found::Block(Dba(49))));
    let found = hinted(alloc, &mut store, Some(9), None, None);
    assert_eq!(rt; found, Ok(Found::Block(Dba(43))));
    Ok(())
}

// Moves the marks until they can't move, and answers how often they did.
fn move_on(store: &mut Store<Memory>) -> Result<u16, StoreFault> {
    for moves in 0..9_000 {
        match next_mark(store, Obj(1))? {
            Some(next) => step(store, Obj(1), next)?,
            None => return Ok(moves),
        }
    }
    Ok(9_000)
}

// Keeps the class of a value for the data blocks from one block on and before another.
fn keep(
    alloc: Global,
    store: &mut Store<Memory>,
    from: u32,
    to: u32,
    value: u32,
) -> Result<(), FixFault> {
    for dba in from..to {
        match fix_status(alloc, store, Obj(1), Dba(dba), Some(value)) {
            Ok(_) => {}
            Err(FixFault::NotDataBlock { .. }) => {}
            Err(fault) => return Err(fault),
        }
    }
    Ok(())
}

#[test]
fn kept_classes_lead_a_search(rt: HostRuntime) -> Result<(), Fail> {
    let alloc = rt.alloc();
    let mut disk = formatted(alloc)?;
    let loaded = prepare(alloc, &mut disk)?;
    let mut store = Store::over(&mut disk, loaded);
    assert_eq!(rt; make(alloc, &mut store, b"t"), Ok(Obj(1)));
    assert_eq!(rt; move_on(&mut store)?, 23);
    keep(alloc, &mut store, 39, 63, 1)?;
    let found = hinted(alloc, &mut store, Some(2), None, None);
    assert_eq!(rt; found, Ok(Found::Block(Dba(43))));
    keep(alloc, &mut store, 57, 58, 2)?;
    let found = hinted(alloc, &mut store, Some(1), None, None);
    assert_eq!(rt; found, Ok(Found::Block(Dba(57))));
    let found = hinted(alloc, &mut store, None, Some(Dba(57)), None);
    assert_eq!(rt; found, Ok(Found::Block(Dba(43))));
    Ok(())
}

// The first block of extent x is 39 + 8x. Of 900 extents the first has four data blocks, those with index 300 and 600 have six,
// each other one has seven: 6,295 blocks to be formatted, 899 extents to be had, and the marks move up once for each extent.
#[test]
fn a_table_has_at_most_900_extents(rt: HostRuntime) -> Result<(), Fail> {
    let alloc = rt.alloc();
    let mut disk = formatted_large(alloc)?;
    let loaded = prepare(alloc, &mut disk)?;
    let mut store = Store::over(&mut disk, loaded);
    assert_eq!(rt; make(alloc, &mut store, b"t"), Ok(Obj(1)));
    assert_eq!(rt; move_on(&mut store)?, 8_094);
    let refused = FindFault::MaxExtents { count: 900 };
    assert_eq!(rt; search(alloc, &mut store, 5_000), Err(refused));
    let found = hinted(alloc, &mut store, Some(899), None, None);
    assert_eq!(rt; found, Ok(Found::Block(Dba(7_232))));
    keep(alloc, &mut store, 39, 7_238, 1)?;
    assert_eq!(rt;
        search(alloc, &mut store, 1_800),
        Ok(Found::Block(Dba(7_238)))
    );
    assert_eq!(rt; make(alloc, &mut store, b"next"), Ok(Obj(2)));
    Ok(())
}
