// Which way an update of a row goes.
ghost use Rattle.std.specs.Prelude.{◌≡◌, ◌<◌, ℕ, List, Option, None, cond, IfOk, IfErr};
ghost use Rattle.redo_model.specs.Records.{Record};
ghost use Rattle.redo_model.specs.Model.{IsRowBlock, slot_count};
ghost use Rattle.change_laws.specs.Types.{Apart, InPlace, ToHead, ToOther, fits_at, path_of, taker_of};
ghost use Rattle.version_laws.specs.Types.{ended_by};
ghost use Rattle.store_core.specs.Causes.{HasLooked, IsSoundFault};
ghost use Rattle.store_core.specs.Store.{IsTrue};
ghost use Rattle.row_change.specs.Fitting.{AreThere, fitting_at, fitting_in, told_way};
ghost use Rattle.row_change.specs.Opening.{ActsBy};
ghost use Rattle.row_change.specs.Standing.{AreAtHome, told_stand};

use crate::opening::Opening;
use crate::stand::Stand;
use disk_model::Disk;
use page_set::Page;
use row_block::RowBlock;
use seg_base::{NoMemory, Rowid, Taker, TxnId};
use std::alloc::Global;
use store_core::{Question, Store, StoreFault, ask};
use txn_block::TxnBlock;
use version_read::EndedIn;

/// In place, back to the row's head, or to another block.
#[derive(Clone, Copy, Drop)]
pub enum Way {
    InPlace,
    ToHead,
    ToOther,
}

fn taker_of(own: &Option<TxnId>) -> Taker
    ensures { result ≡ taker_of own.now }
{
    match own {
        None => Taker::New,
        Some(txn) => Taker::Open(*txn),
    }
}

/// Whether a row of this length fits into a slot, none where the slot isn't there.
fn fitting_at(
    block: &RowBlock,
    ended: &EndedIn,
    own: &Option<TxnId>,
    slot: u8,
    len: u16,
) -> Option<bool>
    ensures { result ≡ fitting_at (ended_by ended.now.table.now) block.now.block own.now slot len }
{
    if slot < block.slots() {
        let taker = taker_of(own);
        Some(block.fits(ended, slot, len, &taker))
    } else {
        None
    }
}

/// Asks a row block whether a row of this length fits into a slot, for a transaction or one that has not begun.
#[derive(Clone, Copy)]
pub struct Fitting<'t> {
    pub table: &'t TxnBlock,
    pub own: &'t Option<TxnId>,
    pub slot: u8,
    pub len: u16,
}

fn fitting_in(page: &Page, q: &Fitting) -> Option<bool>
    ensures { result ≡ fitting_in q.now.table.now q.now.own.now q.now.slot q.now.len page.now }
{
    match page {
        Page::Rows(block) => {
            let ended = EndedIn::of(q.table);
            fitting_at(block, &ended, q.own, q.slot, q.len)
        }
        _ => None,
    }
}

impl<'t> Question for Fitting<'t> {
    ghost use Rattle.row_change.specs.Fitting.{fitting_in};

    type Answer = bool;

    ghost reads = { λ q page. fitting_in q.table.now q.own.now q.slot q.len page };

    fn read(&self, alloc: Global, page: &Page) -> Result<Option<bool>, NoMemory> {
        let _ = alloc;
        Ok(fitting_in(page, self))
    }
}

fn fits_at<D: Disk>(
    alloc: Global,
    store: &mut Store<D>,
    opening: &Opening,
    own: &Option<TxnId>,
    at: &Rowid,
    len: u16,
) -> Result<bool, StoreFault>
    ensures looked { HasLooked D.meaning store.old store.new result }
    ensures says { (R : List Record) (o who : ℕ) → IsTrue D.meaning R store.old → ActsBy R who own.now opening.now → IsRowBlock store.old.shape R o at.now.dba → IfOk result (λ v. v ≡ fits_at R own.now at.now len) }
    ensures sound { (R : List Record) (o who : ℕ) → IsTrue D.meaning R store.old → ActsBy R who own.now opening.now → IsRowBlock store.old.shape R o at.now.dba → at.now.slot < slot_count R at.now.dba → store.old.fault ≡ None → IfErr result IsSoundFault }
{
    let question = Fitting {
        table: &opening.table,
        own,
        slot: at.slot,
        len,
    };
    match ask(alloc, store, at.dba, &question) {
        Ok(fits) => Ok(fits),
        Err(fault) => Err(fault),
    }
}

fn whole_way(fits: bool) -> Way
    ensures { told_way result ≡ cond fits InPlace ToOther }
{
    if fits { Way::InPlace } else { Way::ToOther }
}

fn head_way(fits: bool) -> Way
    ensures { told_way result ≡ cond fits ToHead ToOther }
{
    if fits { Way::ToHead } else { Way::ToOther }
}

/// Which way a migrated row goes that doesn't fit at its body.
fn way_past<D: Disk>(
    alloc: Global,
    store: &mut Store<D>,
    opening: &Opening,
    own: &Option<TxnId>,
    head: &Rowid,
    len: u16,
) -> Result<Way, StoreFault>
    ensures looked { HasLooked D.meaning store.old store.new result }
    ensures says { (R : List Record) (o who : ℕ) → IsTrue D.meaning R store.old → ActsBy R who own.now opening.now → IsRowBlock store.old.shape R o head.now.dba → IfOk result (λ w. told_way w ≡ cond (fits_at R own.now head.now len) ToHead ToOther) }
    ensures sound { (R : List Record) (o who : ℕ) → IsTrue D.meaning R store.old → ActsBy R who own.now opening.now → IsRowBlock store.old.shape R o head.now.dba → head.now.slot < slot_count R head.now.dba → store.old.fault ≡ None → IfErr result IsSoundFault }
{
    match fits_at(alloc, store, opening, own, head, len) {
        Ok(fits) => Ok(head_way(fits)),
        Err(fault) => Err(fault),
    }
}

fn way_apart<D: Disk>(
    alloc: Global,
    store: &mut Store<D>,
    opening: &Opening,
    own: &Option<TxnId>,
    head: &Rowid,
    body: &Rowid,
    len: u16,
) -> Result<Way, StoreFault>
    ensures looked { HasLooked D.meaning store.old store.new result }
    ensures says { (R : List Record) (o who : ℕ) → IsTrue D.meaning R store.old → ActsBy R who own.now opening.now → IsRowBlock store.old.shape R o head.now.dba → IsRowBlock store.old.shape R o body.now.dba → IfOk result (λ w. told_way w ≡ path_of R own.now (Apart head.now body.now) len) }
    ensures sound { (R : List Record) (o who : ℕ) → IsTrue D.meaning R store.old → ActsBy R who own.now opening.now → IsRowBlock store.old.shape R o head.now.dba → IsRowBlock store.old.shape R o body.now.dba → head.now.slot < slot_count R head.now.dba → body.now.slot < slot_count R body.now.dba → store.old.fault ≡ None → IfErr result IsSoundFault }
{
    let fits = match fits_at(alloc, store, opening, own, body, len) {
        Ok(fits) => fits,
        Err(fault) => return Err(fault),
    };
    if fits {
        return Ok(Way::InPlace);
    }
    way_past(alloc, store, opening, own, head, len)
}

/// Which way a row goes that stands there, with so long new bytes.
pub fn way_of<D: Disk>(
    alloc: Global,
    store: &mut Store<D>,
    opening: &Opening,
    own: &Option<TxnId>,
    stand: &Stand,
    len: u16,
) -> Result<Way, StoreFault>
    ensures looked { HasLooked D.meaning store.old store.new result }
    ensures says { (R : List Record) (o who : ℕ) → IsTrue D.meaning R store.old → ActsBy R who own.now opening.now → AreAtHome store.old.shape R o (told_stand stand.now) → IfOk result (λ w. told_way w ≡ path_of R own.now (told_stand stand.now) len) }
    ensures sound { (R : List Record) (o who : ℕ) → IsTrue D.meaning R store.old → ActsBy R who own.now opening.now → AreAtHome store.old.shape R o (told_stand stand.now) → AreThere R (told_stand stand.now) → store.old.fault ≡ None → IfErr result IsSoundFault }
{
    match stand {
        Stand::Whole(at) => match fits_at(alloc, store, opening, own, at, len) {
            Ok(fits) => Ok(whole_way(fits)),
            Err(fault) => Err(fault),
        },
        Stand::Apart(head, body) => way_apart(alloc, store, opening, own, head, body, len),
    }
}
