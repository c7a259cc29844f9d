// The blocks whose pages a record changes.
ghost use Rattle.std.specs.Prelude.{◌≡◌, ◌∷◌, IfOk, OnOk, [], min};
ghost use Rattle.seg_base.specs.Places.{first_block};
ghost use Rattle.page_set.specs.Among.{is_among, blocks_of, back_blocks};
ghost use Rattle.page_set.specs.Folded.{first_of, those, touched_by_row, touched, touched_once, with_block, with_all};

use redo_record::{BackPart, LowerRecord, Record, RowBody, RowPart};
use seg_base::{Dba, NoMemory, OWN_BLOCKS, Shape};
use std::alloc::Global;

const TXNS: Dba = Dba(1);

const CATALOGUE: Dba = Dba(2);

const SPACE: Dba = Dba(3);

/// The first block of an extent, or the greatest number where there is none such.
fn extent_block(shape: &Shape, extent: u32) -> Dba
    ensures { result ≡ min (first_block shape.now extent) 4294967295 }
{
    let first = u64::from(OWN_BLOCKS)
        + u64::from(shape.undo)
        + u64::from(extent) * u64::from(shape.extent);
    Dba(first.min(4294967295) as u32)
}

/// The first block of the extent in which a block stands.
fn first_of(shape: &Shape, dba: Dba) -> Dba
    ensures { result ≡ first_of shape.now dba }
{
    let heads = u64::from(OWN_BLOCKS) + u64::from(shape.undo);
    let place = u64::from(dba.0).saturating_sub(heads) % u64::from(shape.extent.max(1));
    Dba((u64::from(dba.0) - place) as u32)
}

fn is_among(list: &[Dba], dba: Dba) -> bool
    ensures { result ≡ is_among list.now dba }
{
    match list {
        [] => false,
        [first, rest @ ..] => *first == dba || is_among(rest, dba),
    }
}

/// Adds a block that isn't there.
fn add(list: &mut Vec<Dba>, dba: Dba) -> Result<(), NoMemory>
    ensures { OnOk result (list.new.items ≡ with_block list.old.items dba) }
{
    if !is_among(list, dba) {
        list.push(dba)?;
    }
    Ok(())
}

fn add_all(list: &mut Vec<Dba>, blocks: &[Dba]) -> Result<(), NoMemory>
    ensures { OnOk result (list.new.items ≡ with_all list.old.items blocks.now) }
{
    match blocks {
        [] => Ok(()),
        [first, rest @ ..] => {
            add(list, *first)?;
            add_all(list, rest)
        }
    }
}

fn add_parts(list: &mut Vec<Dba>, parts: &[RowPart]) -> Result<(), NoMemory>
    ensures { OnOk result (list.new.items ≡ with_all list.old.items (blocks_of parts.now)) }
{
    match parts {
        [] => Ok(()),
        [first, rest @ ..] => {
            add(list, first.dba)?;
            add_parts(list, rest)
        }
    }
}

fn add_back(list: &mut Vec<Dba>, parts: &[BackPart]) -> Result<(), NoMemory>
    ensures { OnOk result (list.new.items ≡ with_all list.old.items (back_blocks parts.now)) }
{
    match parts {
        [] => Ok(()),
        [first, rest @ ..] => {
            add(list, first.dba)?;
            add_back(list, rest)
        }
    }
}

fn add_those(list: &mut Vec<Dba>, blocks: &[Option<Dba>]) -> Result<(), NoMemory>
    ensures { OnOk result (list.new.items ≡ with_all list.old.items (those blocks.now)) }
{
    match blocks {
        [] => Ok(()),
        [None, rest @ ..] => add_those(list, rest),
        [Some(first), rest @ ..] => {
            add(list, *first)?;
            add_those(list, rest)
        }
    }
}

fn add_row(list: &mut Vec<Dba>, w: &RowBody) -> Result<(), NoMemory>
    ensures { OnOk result (list.new.items ≡ with_all list.old.items (touched_by_row w.now)) }
{
    add(list, TXNS)?;
    add(list, Dba(w.undo.block))?;
    add_parts(list, w.parts.as_slice())
}

fn add_lower(list: &mut Vec<Dba>, l: &LowerRecord) -> Result<(), NoMemory>
    ensures { OnOk result (list.new.items ≡ with_all list.old.items (3 ∷ l.now.header ∷ l.now.l3 ∷ those l.now.l2)) }
{
    add(list, SPACE)?;
    add(list, l.header)?;
    add(list, l.l3)?;
    add_those(list, &l.l2)
}

/// Adds the blocks that a record of rows, transactions or undo touches.
fn add_change(list: &mut Vec<Dba>, shape: &Shape, rec: &Record) -> Result<(), NoMemory>
    ensures { OnOk result (list.new.items ≡ with_all list.old.items (touched shape.now rec.now)) }
{
    match rec {
        Record::Table(t) => add_all(list, &[CATALOGUE, t.header]),
        Record::Movement(m) => add(list, m.header),
        Record::Extend(e) => {
            let first = extent_block(shape, e.extent);
            add_all(list, &[SPACE, e.header, e.l2, e.l3, first])
        }
        Record::FormatBlock(f) => add_all(list, &[f.dba, f.l2, f.l3, first_of(shape, f.dba)]),
        Record::Class(k) => add_all(list, &[k.l2, k.l3, first_of(shape, k.dba)]),
        Record::Advance(a) => add(list, a.header),
        Record::Lower(l) => add_lower(list, l),
        Record::Begin(_) | Record::Commit(_) | Record::Ended(_) => add(list, TXNS),
        Record::Reuse(q) => add_all(list, &[TXNS, Dba(q.block)]),
        Record::Insert(w)
        | Record::Update(w)
        | Record::Migrate(w)
        | Record::Return(w)
        | Record::Delete(w) => add_row(list, w),
        Record::Back(k) => {
            add(list, TXNS)?;
            add_back(list, k.parts.as_slice())
        }
        Record::Move(m) => {
            add(list, Dba(m.undo.block))?;
            add_parts(list, m.parts.as_slice())
        }
        Record::Clean(c) => add(list, c.dba),
    }
}

/// The blocks whose pages the record changes, each once.
pub fn touches(alloc: Global, rec: &Record, shape: &Shape) -> Result<Vec<Dba>, NoMemory>
    ensures { IfOk result (λ list. list.items ≡ touched_once shape.now rec.now) }
{
    let mut list = Vec::new(alloc);
    add_change(&mut list, shape, rec)?;
    Ok(list)
}
