// What an update and a delete put where.
ghost use Rattle.std.specs.Prelude.{◌≡◌, ◌≤◌, ◌∷◌, [], ℕ, List, Option, None, length, IfOk, IfErr};
ghost use Rattle.seg_words.specs.Types.{LONGEST_ROW, Rowid as TheRowid};
ghost use Rattle.redo_model.specs.Records.{Record};
ghost use Rattle.redo_model.specs.Model.{IsRowBlock, body_of, head_to, nothing, plain_row};
ghost use Rattle.change_laws.specs.Types.{Fill as TheFill, fill, free_place, migrate_fills};
ghost use Rattle.store_core.specs.Causes.{HasLooked, IsSoundFault};
ghost use Rattle.store_core.specs.Store.{IsTrue};
ghost use Rattle.row_change.specs.Drafting.{FillIs, FillsAre, fill_list, told_content};
ghost use Rattle.row_change.specs.Filling.{again, first_of};
ghost use Rattle.row_change.specs.Opening.{ActsBy};
ghost use Rattle.row_change.specs.Standing.{AreAtHome, told_stand};

use crate::draft::{Content, Fill, Fills};
use crate::inserting::plain_row;
use crate::looking::Front;
use crate::opening::{Opening, fill_at};
use crate::stand::Stand;
use disk_model::Disk;
use seg_base::{Dba, Kind, NoMemory, RowNo, Rowid, Text};
use std::alloc::Global;
use store_core::{Store, StoreFault};

/// An Empty slot.
pub fn nothing(alloc: Global) -> Content
    ensures content { told_content result ≡ nothing }
    ensures short { length result.bytes ≤ LONGEST_ROW }
{
    Content {
        kind: Kind::Empty,
        row: RowNo(0),
        link: None,
        bytes: Text::empty(alloc),
    }
}

/// A slot emptied.
pub fn emptied<D: Disk>(
    alloc: Global,
    store: &mut Store<D>,
    opening: &Opening,
    at: &Rowid,
) -> Result<Fill, StoreFault>
    ensures looked { HasLooked D.meaning store.old store.new result }
    ensures says { (R : List Record) (o who : ℕ) (own : Option ℕ) → IsTrue D.meaning R store.old → ActsBy R who own opening.now → IsRowBlock store.old.shape R o at.now.dba → IfOk result (λ f. FillIs R own f (fill at.now nothing)) }
    ensures sound { (R : List Record) (o who : ℕ) (own : Option ℕ) → IsTrue D.meaning R store.old → ActsBy R who own opening.now → IsRowBlock store.old.shape R o at.now.dba → store.old.fault ≡ None → IfErr result IsSoundFault }
{
    let content = nothing(alloc);
    match fill_at(alloc, store, opening, at.dba, Some(at.slot), content) {
        Ok(fill) => Ok(fill),
        Err(fault) => Err(fault),
    }
}

/// A slot emptied behind another one filled.
pub fn then_emptied<D: Disk>(
    alloc: Global,
    store: &mut Store<D>,
    opening: &Opening,
    first: Fill,
    at: &Rowid,
) -> Result<Fills, StoreFault>
    ensures looked { HasLooked D.meaning store.old store.new result }
    ensures says { (R : List Record) (o who : ℕ) (own : Option ℕ) (g : TheFill) → IsTrue D.meaning R store.old → ActsBy R who own opening.now → IsRowBlock store.old.shape R o at.now.dba → FillIs R own first g → IfOk result (λ fs. FillsAre R own (fill_list fs) (g ∷ fill at.now nothing ∷ [])) }
    ensures sound { (R : List Record) (o who : ℕ) (own : Option ℕ) → IsTrue D.meaning R store.old → ActsBy R who own opening.now → IsRowBlock store.old.shape R o at.now.dba → store.old.fault ≡ None → IfErr result IsSoundFault }
{
    match emptied(alloc, store, opening, at) {
        Ok(second) => Ok(Fills::Two(first, second)),
        Err(fault) => Err(fault),
    }
}

/// The content of a slot with other bytes.
fn again(alloc: Global, front: &Front, bytes: &[u8]) -> Result<Content, NoMemory>
    ensures content { IfOk result (λ c. told_content c ≡ again front.now bytes.now) }
    ensures length { IfOk result (λ c. length c.bytes ≡ length bytes.now) }
{
    let bytes = Text::copy(alloc, bytes)?;
    Ok(Content {
        kind: front.kind,
        row: front.row,
        link: front.link,
        bytes,
    })
}

/// The body of a migrated row, with its head.
fn body_of(alloc: Global, row: RowNo, head: &Rowid, bytes: &[u8]) -> Result<Content, NoMemory>
    ensures content { IfOk result (λ c. told_content c ≡ body_of row head.now bytes.now) }
    ensures length { IfOk result (λ c. length c.bytes ≡ length bytes.now) }
{
    let bytes = Text::copy(alloc, bytes)?;
    Ok(Content {
        kind: Kind::Body,
        row,
        link: Some(*head),
        bytes,
    })
}

/// The pointer to the body of a migrated row.
fn head_to(alloc: Global, row: RowNo, body: Rowid) -> Content
    ensures content { told_content result ≡ head_to row body }
    ensures short { length result.bytes ≤ LONGEST_ROW }
{
    Content {
        kind: Kind::Head,
        row,
        link: Some(body),
        bytes: Text::empty(alloc),
    }
}

/// A slot whose bytes are replaced.
pub fn rewritten<D: Disk>(
    alloc: Global,
    store: &mut Store<D>,
    opening: &Opening,
    at: &Rowid,
    front: &Front,
    bytes: &[u8],
) -> Result<Fill, StoreFault>
    requires unspent { store.old.fault ≡ None }
    requires size { length bytes.now ≤ LONGEST_ROW }
    ensures looked { HasLooked D.meaning store.old store.new result }
    ensures says { (R : List Record) (o who : ℕ) (own : Option ℕ) → IsTrue D.meaning R store.old → ActsBy R who own opening.now → IsRowBlock store.old.shape R o at.now.dba → IfOk result (λ f. FillIs R own f (fill at.now (again front.now bytes.now))) }
    ensures sound { (R : List Record) (o who : ℕ) (own : Option ℕ) → IsTrue D.meaning R store.old → ActsBy R who own opening.now → IsRowBlock store.old.shape R o at.now.dba → IfErr result IsSoundFault }
{
    let content = match again(alloc, front, bytes) {
        Ok(content) => content,
        Err(_) => return Err(StoreFault::NoMemory),
    };
    fill_at(alloc, store, opening, at.dba, Some(at.slot), content)
}

/// A row whole in a slot.
fn made_whole<D: Disk>(
    alloc: Global,
    store: &mut Store<D>,
    opening: &Opening,
    at: &Rowid,
    row: RowNo,
    bytes: &[u8],
) -> Result<Fill, StoreFault>
    requires unspent { store.old.fault ≡ None }
    requires size { length bytes.now ≤ LONGEST_ROW }
    ensures looked { HasLooked D.meaning store.old store.new result }
    ensures says { (R : List Record) (o who : ℕ) (own : Option ℕ) → IsTrue D.meaning R store.old → ActsBy R who own opening.now → IsRowBlock store.old.shape R o at.now.dba → IfOk result (λ f. FillIs R own f (fill at.now (plain_row row bytes.now))) }
    ensures sound { (R : List Record) (o who : ℕ) (own : Option ℕ) → IsTrue D.meaning R store.old → ActsBy R who own opening.now → IsRowBlock store.old.shape R o at.now.dba → IfErr result IsSoundFault }
{
    let content = match plain_row(alloc, row, bytes) {
        Ok(content) => content,
        Err(_) => return Err(StoreFault::NoMemory),
    };
    fill_at(alloc, store, opening, at.dba, Some(at.slot), content)
}

/// A row back at its head.
pub fn returned<D: Disk>(
    alloc: Global,
    store: &mut Store<D>,
    opening: &Opening,
    head: &Rowid,
    body: &Rowid,
    row: RowNo,
    bytes: &[u8],
) -> Result<Fills, StoreFault>
    requires unspent { store.old.fault ≡ None }
    requires size { length bytes.now ≤ LONGEST_ROW }
    ensures looked { HasLooked D.meaning store.old store.new result }
    ensures says { (R : List Record) (o who : ℕ) (own : Option ℕ) → IsTrue D.meaning R store.old → ActsBy R who own opening.now → IsRowBlock store.old.shape R o head.now.dba → IsRowBlock store.old.shape R o body.now.dba → IfOk result (λ fs. FillsAre R own (fill_list fs) (fill head.now (plain_row row bytes.now) ∷ fill body.now nothing ∷ [])) }
    ensures sound { (R : List Record) (o who : ℕ) (own : Option ℕ) → IsTrue D.meaning R store.old → ActsBy R who own opening.now → IsRowBlock store.old.shape R o head.now.dba → IsRowBlock store.old.shape R o body.now.dba → IfErr result IsSoundFault }
{
    match made_whole(alloc, store, opening, head, row, bytes) {
        Ok(first) => then_emptied(alloc, store, opening, first, body),
        Err(fault) => Err(fault),
    }
}

/// The body of a row in the slot that a block has for it.
fn moved_body<D: Disk>(
    alloc: Global,
    store: &mut Store<D>,
    opening: &Opening,
    to: Dba,
    row: RowNo,
    head: &Rowid,
    bytes: &[u8],
) -> Result<Fill, StoreFault>
    requires unspent { store.old.fault ≡ None }
    requires size { length bytes.now ≤ LONGEST_ROW }
    ensures looked { HasLooked D.meaning store.old store.new result }
    ensures says { (R : List Record) (o who : ℕ) (own : Option ℕ) → IsTrue D.meaning R store.old → ActsBy R who own opening.now → IsRowBlock store.old.shape R o to → IfOk result (λ f. FillIs R own f (fill (free_place R to) (body_of row head.now bytes.now))) }
    ensures sound { (R : List Record) (o who : ℕ) (own : Option ℕ) → IsTrue D.meaning R store.old → ActsBy R who own opening.now → IsRowBlock store.old.shape R o to → IfErr result IsSoundFault }
{
    let content = match body_of(alloc, row, head, bytes) {
        Ok(content) => content,
        Err(_) => return Err(StoreFault::NoMemory),
    };
    fill_at(alloc, store, opening, to, None, content)
}

/// The head of a row that was moved, whose body this is.
fn pointed<D: Disk>(
    alloc: Global,
    store: &mut Store<D>,
    opening: &Opening,
    head: &Rowid,
    row: RowNo,
    body: &Fill,
) -> Result<Fill, StoreFault>
    ensures looked { HasLooked D.meaning store.old store.new result }
    ensures says { (R : List Record) (o who : ℕ) (own : Option ℕ) (g : TheFill) → IsTrue D.meaning R store.old → ActsBy R who own opening.now → IsRowBlock store.old.shape R o head.now.dba → FillIs R own body.now g → IfOk result (λ f. FillIs R own f (fill head.now (head_to row g.at))) }
    ensures sound { (R : List Record) (o who : ℕ) (own : Option ℕ) → IsTrue D.meaning R store.old → ActsBy R who own opening.now → IsRowBlock store.old.shape R o head.now.dba → store.old.fault ≡ None → IfErr result IsSoundFault }
{
    let target = Rowid {
        dba: body.dba,
        slot: body.replaced.slot,
    };
    let content = head_to(alloc, row, target);
    match fill_at(alloc, store, opening, head.dba, Some(head.slot), content) {
        Ok(fill) => Ok(fill),
        Err(fault) => Err(fault),
    }
}

/// A row that stands whole, its head where it stands and its body there.
fn left_behind<D: Disk>(
    alloc: Global,
    store: &mut Store<D>,
    opening: &Opening,
    at: &Rowid,
    row: RowNo,
    body: Fill,
) -> Result<Fills, StoreFault>
    ensures looked { HasLooked D.meaning store.old store.new result }
    ensures says { (R : List Record) (o who : ℕ) (own : Option ℕ) (g : TheFill) → IsTrue D.meaning R store.old → ActsBy R who own opening.now → IsRowBlock store.old.shape R o at.now.dba → FillIs R own body g → IfOk result (λ fs. FillsAre R own (fill_list fs) (fill at.now (head_to row g.at) ∷ g ∷ [])) }
    ensures sound { (R : List Record) (o who : ℕ) (own : Option ℕ) → IsTrue D.meaning R store.old → ActsBy R who own opening.now → IsRowBlock store.old.shape R o at.now.dba → store.old.fault ≡ None → IfErr result IsSoundFault }
{
    match pointed(alloc, store, opening, at, row, &body) {
        Ok(head) => Ok(Fills::Two(head, body)),
        Err(fault) => Err(fault),
    }
}

/// The old body of a migrated row emptied, between its head and its new body.
fn body_emptied<D: Disk>(
    alloc: Global,
    store: &mut Store<D>,
    opening: &Opening,
    first: Fill,
    old: &Rowid,
    last: Fill,
) -> Result<Fills, StoreFault>
    ensures looked { HasLooked D.meaning store.old store.new result }
    ensures says { (R : List Record) (o who : ℕ) (own : Option ℕ) (f g : TheFill) → IsTrue D.meaning R store.old → ActsBy R who own opening.now → IsRowBlock store.old.shape R o old.now.dba → FillIs R own first f → FillIs R own last g → IfOk result (λ fs. FillsAre R own (fill_list fs) (f ∷ fill old.now nothing ∷ g ∷ [])) }
    ensures sound { (R : List Record) (o who : ℕ) (own : Option ℕ) → IsTrue D.meaning R store.old → ActsBy R who own opening.now → IsRowBlock store.old.shape R o old.now.dba → store.old.fault ≡ None → IfErr result IsSoundFault }
{
    match emptied(alloc, store, opening, old) {
        Ok(middle) => Ok(Fills::Three(first, middle, last)),
        Err(fault) => Err(fault),
    }
}

/// A migrated row moved from one body to another.
fn moved_on<D: Disk>(
    alloc: Global,
    store: &mut Store<D>,
    opening: &Opening,
    head: &Rowid,
    old: &Rowid,
    row: RowNo,
    body: Fill,
) -> Result<Fills, StoreFault>
    ensures looked { HasLooked D.meaning store.old store.new result }
    ensures says { (R : List Record) (o who : ℕ) (own : Option ℕ) (g : TheFill) → IsTrue D.meaning R store.old → ActsBy R who own opening.now → IsRowBlock store.old.shape R o head.now.dba → IsRowBlock store.old.shape R o old.now.dba → FillIs R own body g → IfOk result (λ fs. FillsAre R own (fill_list fs) (fill head.now (head_to row g.at) ∷ fill old.now nothing ∷ g ∷ [])) }
    ensures sound { (R : List Record) (o who : ℕ) (own : Option ℕ) → IsTrue D.meaning R store.old → ActsBy R who own opening.now → IsRowBlock store.old.shape R o head.now.dba → IsRowBlock store.old.shape R o old.now.dba → store.old.fault ≡ None → IfErr result IsSoundFault }
{
    match pointed(alloc, store, opening, head, row, &body) {
        Ok(first) => body_emptied(alloc, store, opening, first, old, body),
        Err(fault) => Err(fault),
    }
}

/// Its body there, and its head and its old body by where it stands.
fn migrated_with<D: Disk>(
    alloc: Global,
    store: &mut Store<D>,
    opening: &Opening,
    stand: &Stand,
    row: RowNo,
    body: Fill,
) -> Result<Fills, StoreFault>
    ensures looked { HasLooked D.meaning store.old store.new result }
    ensures says { (R : List Record) (o who : ℕ) (own : Option ℕ) (target : TheRowid) (bytes : List ℕ) → IsTrue D.meaning R store.old → ActsBy R who own opening.now → AreAtHome store.old.shape R o (told_stand stand.now) → FillIs R own body (fill target (body_of row (first_of (told_stand stand.now)) bytes)) → IfOk result (λ fs. FillsAre R own (fill_list fs) (migrate_fills row (told_stand stand.now) target bytes)) }
    ensures sound { (R : List Record) (o who : ℕ) (own : Option ℕ) → IsTrue D.meaning R store.old → ActsBy R who own opening.now → AreAtHome store.old.shape R o (told_stand stand.now) → store.old.fault ≡ None → IfErr result IsSoundFault }
{
    match stand {
        Stand::Whole(at) => left_behind(alloc, store, opening, at, row, body),
        Stand::Apart(head, old) => moved_on(alloc, store, opening, head, old, row, body),
    }
}

/// The slot where a row stood first, which keeps its head.
fn first_of(stand: &Stand) -> Rowid
    ensures { result ≡ first_of (told_stand stand.now) }
{
    match stand {
        Stand::Whole(at) => *at,
        Stand::Apart(head, _) => *head,
    }
}

/// A row moved to a block.
pub fn migrated<D: Disk>(
    alloc: Global,
    store: &mut Store<D>,
    opening: &Opening,
    stand: &Stand,
    to: Dba,
    row: RowNo,
    bytes: &[u8],
) -> Result<Fills, StoreFault>
    requires unspent { store.old.fault ≡ None }
    requires size { length bytes.now ≤ LONGEST_ROW }
    ensures looked { HasLooked D.meaning store.old store.new result }
    ensures says { (R : List Record) (o who : ℕ) (own : Option ℕ) → IsTrue D.meaning R store.old → ActsBy R who own opening.now → AreAtHome store.old.shape R o (told_stand stand.now) → IsRowBlock store.old.shape R o to → IfOk result (λ fs. FillsAre R own (fill_list fs) (migrate_fills row (told_stand stand.now) (free_place R to) bytes.now)) }
    ensures sound { (R : List Record) (o who : ℕ) (own : Option ℕ) → IsTrue D.meaning R store.old → ActsBy R who own opening.now → AreAtHome store.old.shape R o (told_stand stand.now) → IsRowBlock store.old.shape R o to → IfErr result IsSoundFault }
{
    let head = first_of(stand);
    match moved_body(alloc, store, opening, to, row, &head, bytes) {
        Ok(body) => migrated_with(alloc, store, opening, stand, row, body),
        Err(fault) => Err(fault),
    }
}
