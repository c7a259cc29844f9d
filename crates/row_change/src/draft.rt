// A change of a row as it is drafted: what it puts where, and the record that it becomes.
ghost use Rattle.std.specs.Prelude.{◌≡◌, ◌∷◌, [], ◌+◌, ◌<◌, ◌≤◌, ◌^◌, IfOk};
ghost use Rattle.seg_words.specs.Types.{MOST_UNDO_PARTS};
ghost use Rattle.redo_model.specs.Model.{part_addr};
ghost use Rattle.change_laws.specs.Types.{as_record};
ghost use Rattle.row_change.specs.Drafting.{additions, drafted_part, drafted_parts, drafted_size, fill_list, told_kind};

use crate::actor::Actor;
use crate::answer::Done;
use crate::replaced::Replaced;
use redo_record::{BeginRecord, Parts, Record, ReuseRecord, RowBody, RowPart};
use seg_base::{Dba, Kind, NoMemory, Obj, RowNo, Rowid, Slot, Text, TxnId, UndoAddr, Writer};
use std::alloc::Global;

/// What a change puts into a slot.
#[derive(Drop)]
pub struct Content {
    pub kind: Kind,
    pub row: RowNo,
    pub link: Option<Rowid>,
    pub bytes: Text,
}

/// A slot of a block that a change fills, and what it writes over there.
#[derive(Drop)]
pub struct Fill {
    pub dba: Dba,
    pub replaced: Replaced,
    pub content: Content,
}

/// One to three slots, in the order head, body, other block.
#[derive(Drop)]
pub enum Fills {
    One(Fill),
    Two(Fill, Fill),
    Three(Fill, Fill, Fill),
}

/// The kinds of records that change a row.
#[derive(Clone, Copy, Drop)]
pub enum ChangeKind {
    Insert,
    Update,
    Migrate,
    Return,
    Delete,
}

/// A change of a row of a table.
#[derive(Drop)]
pub struct Change {
    pub kind: ChangeKind,
    pub obj: Obj,
    pub row: RowNo,
    pub fills: Fills,
}

/// The records of a change: a Begin and a Reuse where it calls for them, and its own.
#[derive(Drop)]
pub struct Additions {
    pub begin: Option<BeginRecord>,
    pub reuse: Option<ReuseRecord>,
    pub change: Record,
    pub done: Done,
}

fn size_at(fill: &Fill) -> u32
    ensures value { result ≡ fill.now.replaced.size }
    ensures few { result < 2 ^ 16 }
{
    let size = fill.replaced.size;
    u32::from(size)
}

/// The bytes of undo that the change needs.
pub fn size_of(fills: &Fills) -> u32
    ensures value { result ≡ drafted_size (fill_list fills.now) }
    ensures few { result < 2 ^ 31 }
{
    match fills {
        Fills::One(a) => size_at(a),
        Fills::Two(a, b) => size_at(a) + size_at(b),
        Fills::Three(a, b, c) => size_at(a) + size_at(b) + size_at(c),
    }
}

fn part_of(fill: Fill, txn: TxnId, undo: UndoAddr) -> RowPart
    ensures { result ≡ drafted_part fill txn undo }
{
    let Fill {
        dba,
        replaced,
        content,
    } = fill;
    RowPart {
        dba,
        slot: replaced.slot,
        entry: Some(replaced.entry),
        new: Slot {
            kind: content.kind,
            writer: Writer::By(txn),
            undo: Some(undo),
            row: content.row,
            link: content.link,
            bytes: content.bytes,
            room: replaced.room,
        },
        old: replaced.old,
    }
}

/// The place of undo of the part at place i.
pub fn place_at(undo: UndoAddr, i: u8) -> UndoAddr
    requires { undo.nth + i < 2 ^ 8 }
    ensures { result ≡ part_addr undo i }
{
    UndoAddr {
        block: undo.block,
        seq: undo.seq,
        nth: undo.nth + i,
    }
}

/// Two parts in this order.
pub fn two_parts(alloc: Global, a: RowPart, b: RowPart) -> Result<Parts<RowPart>, NoMemory>
    ensures { IfOk result (λ parts. parts ≡ a ∷ b ∷ []) }
{
    let mut parts = Parts::one(alloc, a)?;
    parts.push(b)?;
    Ok(parts)
}

/// Three parts in this order.
pub fn three_parts(
    alloc: Global,
    a: RowPart,
    b: RowPart,
    c: RowPart,
) -> Result<Parts<RowPart>, NoMemory>
    ensures { IfOk result (λ parts. parts ≡ a ∷ b ∷ c ∷ []) }
{
    let mut parts = two_parts(alloc, a, b)?;
    parts.push(c)?;
    Ok(parts)
}

fn parts_of(
    alloc: Global,
    fills: Fills,
    txn: TxnId,
    undo: UndoAddr,
) -> Result<Parts<RowPart>, NoMemory>
    requires { undo.nth ≤ MOST_UNDO_PARTS }
    ensures { IfOk result (λ parts. parts ≡ drafted_parts (fill_list fills) txn undo 0) }
{
    let first = place_at(undo, 0);
    let second = place_at(undo, 1);
    let third = place_at(undo, 2);
    match fills {
        Fills::One(a) => Parts::one(alloc, part_of(a, txn, first)),
        Fills::Two(a, b) => two_parts(alloc, part_of(a, txn, first), part_of(b, txn, second)),
        Fills::Three(a, b, c) => three_parts(
            alloc,
            part_of(a, txn, first),
            part_of(b, txn, second),
            part_of(c, txn, third),
        ),
    }
}

fn as_record(kind: ChangeKind, body: RowBody) -> Record
    ensures { result ≡ as_record (told_kind kind) body }
{
    match kind {
        ChangeKind::Insert => Record::Insert(body),
        ChangeKind::Update => Record::Update(body),
        ChangeKind::Migrate => Record::Migrate(body),
        ChangeKind::Return => Record::Return(body),
        ChangeKind::Delete => Record::Delete(body),
    }
}

/// The records of a change whose undo begins there, after a Reuse where it has one.
pub fn draft(
    alloc: Global,
    actor: &Actor,
    change: Change,
    undo: UndoAddr,
    reuse: Option<ReuseRecord>,
) -> Result<Additions, NoMemory>
    requires { undo.nth ≤ MOST_UNDO_PARTS }
    ensures { IfOk result (λ x. x ≡ additions actor.now change undo reuse) }
{
    let Change {
        kind,
        obj,
        row,
        fills,
    } = change;
    let parts = parts_of(alloc, fills, actor.txn, undo)?;
    let body = RowBody {
        txn: actor.txn,
        entry: actor.entry,
        obj,
        row,
        undo,
        previous: actor.previous,
        parts,
    };
    Ok(Additions {
        begin: actor.begin,
        reuse,
        change: as_record(kind, body),
        done: Done {
            row,
            txn: actor.txn,
        },
    })
}
