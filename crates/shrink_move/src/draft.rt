// A Move as it is drafted: what it puts where, and the record that it becomes.
ghost use Rattle.std.specs.Prelude.{◌≡◌, ◌∷◌, [], ◌+◌, ◌<◌, ◌≤◌, ◌^◌, ℕ, List, IfOk, length};
ghost use Rattle.seg_words.specs.Types.{MOST_UNDO_PARTS, UNDO_PART_SIZE};
ghost use Rattle.redo_model.specs.Records.{Record};
ghost use Rattle.redo_model.specs.Model.{at_place, image, nothing, plain_row};
ghost use Rattle.change_laws.specs.Types.{Whole, Apart, fill};
ghost use Rattle.row_change.specs.Drafting.{told_content};
ghost use Rattle.shrink_move.specs.Drafting.{FillIs, FillsAre, IsMoving, addition, drafted_blocks, drafted_part, drafted_parts, drafted_size, fill_list, standing_of};
ghost use Rattle.shrink_move.specs.Moves.{to_block_fills, to_body_fills};

use crate::standing::Standing;
use redo_record::{MoveRecord, Parts, Record, ReuseRecord, RowPart};
use row_change::{Content, nothing, place_at, plain_row, three_parts, two_parts};
use seg_base::{Dba, NoMemory, Obj, RowNo, Scn, Sequence, Slot, UNDO_PART_SIZE, UndoAddr, Writer};
use std::alloc::Global;

/// A slot that a move empties or fills: what stands there, what comes there, and the room of its image.
#[derive(Drop)]
pub struct Fill {
    pub standing: Standing,
    pub content: Content,
    pub room: u16,
}

/// Two or three slots, in the order head, body, target.
#[derive(Drop)]
pub enum Fills {
    Two(Fill, Fill),
    Three(Fill, Fill, Fill),
}

/// A row that is moved, and its slots.
#[derive(Drop)]
pub struct Moving {
    pub row: RowNo,
    pub fills: Fills,
}

/// What a move adds: a Reuse where its undo asks for one, and its record; and the row blocks that it changes.
#[derive(Drop)]
pub struct Addition {
    pub reuse: Option<ReuseRecord>,
    pub moved: Record,
    pub blocks: Sequence<Dba>,
}

fn emptied(alloc: Global, standing: Standing) -> Fill
    ensures { (R : List Record) (b k : ℕ) → standing ≡ standing_of R b k → FillIs R result (fill (at_place b k) nothing) }
{
    Fill {
        standing,
        content: nothing(alloc),
        room: 0,
    }
}

fn filled(standing: Standing, content: Content, room: u16) -> Fill
    ensures { (R : List Record) (b k n : ℕ) (bytes : List ℕ) → standing ≡ standing_of R b k → told_content content ≡ plain_row n bytes → room ≡ length bytes → FillIs R result (fill (at_place b k) (plain_row n bytes)) }
{
    Fill {
        standing,
        content,
        room,
    }
}

/// The slots of a row that stands whole and goes to another slot, with this content.
fn whole_fills(alloc: Global, whole: Standing, target: Standing, content: Content) -> Fills
    ensures { (R : List Record) (b k c j n : ℕ) → whole ≡ standing_of R b k → target ≡ standing_of R c j → told_content content ≡ plain_row n (image R b k).bytes → FillsAre R (fill_list result) (to_block_fills n (Whole (at_place b k)) (at_place c j) (image R b k).bytes) }
{
    let room = whole.len;
    Fills::Two(emptied(alloc, whole), filled(target, content, room))
}

/// A row that stands whole goes to another slot.
pub fn moved_whole(
    alloc: Global,
    row: RowNo,
    whole: Standing,
    target: Standing,
) -> Result<Moving, NoMemory>
    ensures { (R : List Record) (b k c j : ℕ) → whole ≡ standing_of R b k → target ≡ standing_of R c j → IfOk result (λ m. IsMoving R m row (to_block_fills row (Whole (at_place b k)) (at_place c j) (image R b k).bytes)) }
{
    match plain_row(alloc, row, whole.old.bytes.as_slice()) {
        Ok(content) => Ok(Moving {
            row,
            fills: whole_fills(alloc, whole, target, content),
        }),
        Err(_) => Err(NoMemory),
    }
}

/// The slots of a migrated row that goes to another slot, with this content: neither head nor body is left.
fn apart_fills(
    alloc: Global,
    head: Standing,
    body: Standing,
    target: Standing,
    content: Content,
) -> Fills
    ensures { (R : List Record) (a i b k c j n : ℕ) → head ≡ standing_of R a i → body ≡ standing_of R b k → target ≡ standing_of R c j → told_content content ≡ plain_row n (image R b k).bytes → FillsAre R (fill_list result) (to_block_fills n (Apart (at_place a i) (at_place b k)) (at_place c j) (image R b k).bytes) }
{
    let room = body.len;
    let first = emptied(alloc, head);
    let second = emptied(alloc, body);
    Fills::Three(first, second, filled(target, content, room))
}

/// A migrated row goes to another slot.
pub fn moved_apart(
    alloc: Global,
    row: RowNo,
    head: Standing,
    body: Standing,
    target: Standing,
) -> Result<Moving, NoMemory>
    ensures { (R : List Record) (a i b k c j : ℕ) → head ≡ standing_of R a i → body ≡ standing_of R b k → target ≡ standing_of R c j → IfOk result (λ m. IsMoving R m row (to_block_fills row (Apart (at_place a i) (at_place b k)) (at_place c j) (image R b k).bytes)) }
{
    match plain_row(alloc, row, body.old.bytes.as_slice()) {
        Ok(content) => Ok(Moving {
            row,
            fills: apart_fills(alloc, head, body, target, content),
        }),
        Err(_) => Err(NoMemory),
    }
}

/// The slots of a migrated row whose body becomes the row, with this content.
fn body_fills(alloc: Global, head: Standing, body: Standing, content: Content) -> Fills
    ensures { (R : List Record) (a i b k n : ℕ) → head ≡ standing_of R a i → body ≡ standing_of R b k → told_content content ≡ plain_row n (image R b k).bytes → FillsAre R (fill_list result) (to_body_fills n (at_place a i) (at_place b k) (image R b k).bytes) }
{
    let room = body.len;
    Fills::Two(emptied(alloc, head), filled(body, content, room))
}

/// The body of a migrated row becomes the row.
pub fn moved_into(
    alloc: Global,
    row: RowNo,
    head: Standing,
    body: Standing,
) -> Result<Moving, NoMemory>
    ensures { (R : List Record) (a i b k : ℕ) → head ≡ standing_of R a i → body ≡ standing_of R b k → IfOk result (λ m. IsMoving R m row (to_body_fills row (at_place a i) (at_place b k) (image R b k).bytes)) }
{
    match plain_row(alloc, row, body.old.bytes.as_slice()) {
        Ok(content) => Ok(Moving {
            row,
            fills: body_fills(alloc, head, body, content),
        }),
        Err(_) => Err(NoMemory),
    }
}

fn size_at(fill: &Fill) -> u32
    ensures value { result ≡ UNDO_PART_SIZE + fill.now.standing.len }
    ensures few { result < 2 ^ 17 }
{
    let len = fill.standing.len;
    UNDO_PART_SIZE as u32 + u32::from(len)
}

/// The bytes of undo that the move needs.
pub fn size_of(fills: &Fills) -> u32
    ensures value { result ≡ drafted_size (fill_list fills.now) }
    ensures few { result < 2 ^ 31 }
{
    match fills {
        Fills::Two(a, b) => size_at(a) + size_at(b),
        Fills::Three(a, b, c) => size_at(a) + size_at(b) + size_at(c),
    }
}

fn part_of(fill: Fill, number: Scn, undo: UndoAddr) -> RowPart
    ensures { result ≡ drafted_part fill number undo }
{
    let Fill {
        standing,
        content,
        room,
    } = fill;
    RowPart {
        dba: standing.dba,
        slot: standing.slot,
        entry: None,
        new: Slot {
            kind: content.kind,
            writer: Writer::At(number),
            undo: Some(undo),
            row: content.row,
            link: content.link,
            bytes: content.bytes,
            room,
        },
        old: standing.old,
    }
}

fn parts_of(
    alloc: Global,
    fills: Fills,
    number: Scn,
    undo: UndoAddr,
) -> Result<Parts<RowPart>, NoMemory>
    requires { undo.nth ≤ MOST_UNDO_PARTS }
    ensures { IfOk result (λ parts. parts ≡ drafted_parts (fill_list fills) number undo 0) }
{
    let first = place_at(undo, 0);
    let second = place_at(undo, 1);
    let third = place_at(undo, 2);
    match fills {
        Fills::Two(a, b) => two_parts(alloc, part_of(a, number, first), part_of(b, number, second)),
        Fills::Three(a, b, c) => three_parts(
            alloc,
            part_of(a, number, first),
            part_of(b, number, second),
            part_of(c, number, third),
        ),
    }
}

fn two_blocks(alloc: Global, a: Dba, b: Dba) -> Result<Sequence<Dba>, NoMemory>
    ensures { IfOk result (λ blocks. blocks ≡ a ∷ b ∷ []) }
{
    let mut blocks = Sequence::new(alloc);
    blocks.push(a)?;
    blocks.push(b)?;
    Ok(blocks)
}

fn three_blocks(alloc: Global, a: Dba, b: Dba, c: Dba) -> Result<Sequence<Dba>, NoMemory>
    ensures { IfOk result (λ blocks. blocks ≡ a ∷ b ∷ c ∷ []) }
{
    let mut blocks = two_blocks(alloc, a, b)?;
    blocks.push(c)?;
    Ok(blocks)
}

fn blocks_of(alloc: Global, fills: &Fills) -> Result<Sequence<Dba>, NoMemory>
    ensures { IfOk result (λ blocks. blocks ≡ drafted_blocks (fill_list fills.now)) }
{
    match fills {
        Fills::Two(a, b) => two_blocks(alloc, a.standing.dba, b.standing.dba),
        Fills::Three(a, b, c) => {
            three_blocks(alloc, a.standing.dba, b.standing.dba, c.standing.dba)
        }
    }
}

/// What a move adds whose undo begins there, after a Reuse where it has one.
pub fn draft(
    alloc: Global,
    obj: Obj,
    number: Scn,
    moving: Moving,
    undo: UndoAddr,
    reuse: Option<ReuseRecord>,
) -> Result<Addition, NoMemory>
    requires { undo.nth ≤ MOST_UNDO_PARTS }
    ensures { IfOk result (λ x. x ≡ addition obj number moving undo reuse) }
{
    let Moving { row, fills } = moving;
    let blocks = blocks_of(alloc, &fills)?;
    let parts = parts_of(alloc, fills, number, undo)?;
    let moved = Record::Move(MoveRecord {
        obj,
        row,
        undo,
        parts,
        number,
    });
    Ok(Addition {
        reuse,
        moved,
        blocks,
    })
}
