// Down a slot's images through undo, to the first one that counts.
ghost use Rattle.std.specs.Prelude.{◌≡◌, ℕ, ◌+◌, ◌*◌, ◌<◌, ◌≤◌, min, true, false, List, option_map, Some, OnOk, IfOk, IfErr, IfSome, MatchOption};
ghost use Rattle.seg_words.specs.Types.{Shape, Slot as TheSlot};
ghost use Rattle.redo_model.specs.Records.{Record};
ghost use Rattle.redo_model.specs.Model.{commit_count};
ghost use Rattle.version_laws.specs.Types.{HoldsTable, IsInUse};
ghost use Rattle.version_read.specs.Looking.{tells, NextOf, PartLeads};
ghost use Rattle.version_read.specs.Walking.{IsWalk, IsOnWay, StandsAt, Finds, Goes, IsLent, IsGiven, EndsIn, IsReady};

use crate::pages::UndoPages;
use crate::version::{Version, follow, shown};
use seg_base::{MOST_UNDO_BLOCKS, MOST_UNDO_PARTS, Scn, Slot, TxnId, UndoAddr};
use txn_block::TxnBlock;
use undo_block::UndoBlock;

/// Where a walk down a slot ends.
#[derive(Clone, Copy, Debug, PartialEq, Eq, Drop)]
pub enum Seen {
    /// At the first image that counts, which holds a row and stands at this undo address.
    Row(UndoAddr),
    /// At the first image that counts, which holds none.
    Nothing,
    /// At the first part on the way whose undo block was used again since.
    TooOld(UndoAddr),
    /// At an image of a forgotten transaction, of which it isn't known whether it counts.
    TooOldEntry(TxnId),
}

/// Where the part at an address leads: to an end, or to the part below.
#[derive(Clone, Copy, Debug, PartialEq, Eq, Drop)]
enum Next {
    Done(Seen),
    Below(UndoAddr),
}

/// Where an image leads that stands at an undo address.
fn next_of(image: &Slot, table: &TxnBlock, at: UndoAddr, s: Scn, own: &Option<TxnId>) -> Next
    ensures leads { NextOf (tells table.now s own.now image.now.writer) image.now at result }
    ensures place { EndsIn at.block result }
{
    match shown(image, table, s, own) {
        Version::Row(_) => Next::Done(Seen::Row(at)),
        Version::Nothing => Next::Done(Seen::Nothing),
        Version::Step(below) => Next::Below(below),
        Version::TooOldEntry(txn) => Next::Done(Seen::TooOldEntry(txn)),
    }
}

/// Where the part at an address leads. None where no part stands there, or where as many parts were followed as a store can
/// have.
fn part_leads(
    table: &TxnBlock,
    block: &UndoBlock,
    at: UndoAddr,
    s: Scn,
    own: &Option<TxnId>,
    more: bool,
) -> Option<Next>
    ensures leads { PartLeads table.now block.now at s own.now more result }
    ensures place { IfSome result (EndsIn at.block) }
{
    if at.seq != block.sequence() {
        return Some(Next::Done(Seen::TooOld(at)));
    }
    if !more {
        return None;
    }
    match follow(block, at) {
        None => None,
        Some(image) => Some(next_of(image, table, at, s, own)),
    }
}

/// The same over the page of the address's block, which was fetched.
fn page_leads<P: UndoPages>(
    pages: &P,
    table: &TxnBlock,
    at: UndoAddr,
    s: Scn,
    own: &Option<TxnId>,
    more: bool,
) -> Option<Next>
    requires { P.lends at.block pages.now }
    ensures leads { (sh : Shape) (R : List Record) (b k n most : ℕ) → P.has_list sh R pages.now → HoldsTable R table.now → IsOnWay sh R b k s own.now n most at more → MatchOption result ⊥ (Goes sh R b k s own.now n most) }
    ensures place { IfSome result (EndsIn at.block) }
{
    match pages.undo(at.block) {
        None => None,
        Some(block) => part_leads(table, block, at, s, own, more),
    }
}

/// Fetches the block of the part below, unless it is the one that is there.
fn go_to<P: UndoPages>(pages: &mut P, here: u32, block: u32) -> Result<(), P::Fault>
    requires { P.lends here pages.old }
    ensures lent { OnOk result (P.lends block pages.new) }
    ensures looked { OnOk result (P.looked pages.old pages.new) }
    ensures failed { IfErr result (P.failed pages.old pages.new) }
    ensures sound { (sh : Shape) (R : List Record) → P.has_list sh R pages.old → IsInUse sh R block → IfErr result P.is_sound }
{
    if block == here {
        return Ok(());
    }
    pages.fetch_undo(block)
}

/// From one part to the next one, whose page is then the one fetched last.
fn step_down<P: UndoPages>(
    pages: &mut P,
    table: &TxnBlock,
    at: UndoAddr,
    s: Scn,
    own: &Option<TxnId>,
    more: bool,
) -> Result<Next, P::Fault>
    requires { P.lends at.block pages.old }
    ensures lent { IfOk result (IsReady (λ u. P.lends u pages.new)) }
    ensures looked { OnOk result (P.looked pages.old pages.new) }
    ensures failed { IfErr result (P.failed pages.old pages.new) }
    ensures goes { (sh : Shape) (R : List Record) (b k n most : ℕ) → P.has_list sh R pages.old → HoldsTable R table.now → IsOnWay sh R b k s own.now n most at more → IfOk result (Goes sh R b k s own.now n most) }
    ensures sound { (sh : Shape) (R : List Record) (b k n most : ℕ) → P.has_list sh R pages.old → HoldsTable R table.now → IsOnWay sh R b k s own.now n most at more → IfErr result P.is_sound }
{
    match page_leads(pages, table, at, s, own, more) {
        None => Err(pages.refuse_undo(at.block)),
        Some(Next::Done(seen)) => Ok(Next::Done(seen)),
        Some(Next::Below(below)) => match go_to(pages, at.block, below.block) {
            Ok(()) => Ok(Next::Below(below)),
            Err(fault) => Err(fault),
        },
    }
}

/// As many parts as the images of a slot can have in a ring of undo blocks: 63 in each.
fn most_parts(ring: u32) -> u32
    ensures { result ≡ MOST_UNDO_PARTS * min ring MOST_UNDO_BLOCKS }
{
    MOST_UNDO_PARTS as u32 * ring.min(MOST_UNDO_BLOCKS)
}

/// From the undo address to which the image of a slot leads, as `look` answers it, down to the first image that counts at a
/// commit number for an active transaction, or for none. The table is the store's transaction table, `ring` its number of undo
/// blocks.
///
/// In a store whose list is lawful the only faults are those of fetching. In another one a part that isn't there, and one
/// more part than 63 for each undo block, are refused as a bad page of the undo block where the walk stands.
pub fn walk<P: UndoPages>(
    pages: &mut P,
    table: &TxnBlock,
    from: UndoAddr,
    s: Scn,
    own: Option<TxnId>,
    ring: u32,
) -> Result<Seen, P::Fault>
    ensures lent { IfOk result (IsLent (λ u. P.lends u pages.new)) }
    ensures looked { OnOk result (P.looked pages.old pages.new) }
    ensures failed { IfErr result (P.failed pages.old pages.new) }
    ensures finds { (sh : Shape) (R : List Record) (b k : ℕ) → P.has_list sh R pages.old → HoldsTable R table.now → IsWalk sh R b k s own ring from → IfOk result (Finds sh R b k s own) }
    ensures sound { (sh : Shape) (R : List Record) (b k : ℕ) → P.has_list sh R pages.old → HoldsTable R table.now → IsWalk sh R b k s own ring from → IfErr result P.is_sound }
    // At all commits nothing is too old: what changes of rows rest on.
    ensures now { (sh : Shape) (R : List Record) (b k : ℕ) → P.has_list sh R pages.old → HoldsTable R table.now → IsWalk sh R b k s own ring from → commit_count R ≤ s → IfOk result IsGiven }
{
    let most = most_parts(ring);
    if let Err(fault) = pages.fetch_undo(from.block) {
        return Err(fault);
    }
    let mut at = from;
    for followed in 0..most + 1 {
        match step_down(pages, table, at, s, &own, followed < most) {
            Err(fault) => return Err(fault),
            Ok(Next::Done(seen)) => return Ok(seen),
            Ok(Next::Below(below)) => at = below,
        }
    }
    Err(pages.refuse_undo(at.block))
}

/// The image that stands at an undo address, lent by the store. After a walk that ended there its block is one that can be lent.
pub fn image_at<P: UndoPages>(pages: &P, at: UndoAddr) -> Option<&Slot>
    requires { P.lends at.block pages.now }
    ensures { (sh : Shape) (R : List Record) (i : TheSlot) → P.has_list sh R pages.now → StandsAt sh R at i → option_map (λ slot. slot.now) result ≡ Some i }
{
    match pages.undo(at.block) {
        None => None,
        Some(block) => follow(block, at),
    }
}
