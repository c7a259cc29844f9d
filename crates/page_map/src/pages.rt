// The pages of a store, block by block.
ghost use Rattle.std.specs.Prelude.{◌≡◌, ◌<◌, ◌≤◌, ◌++◌, ◌∷◌, ◌^◌, ◌-◌, ◌+◌, [], suc, List, ℕ, length, reverse, slice_index_or, slice_set, IfOk, IfErr, IfSome, IsSome, IsNone, OnOk, OnErr};
ghost use Rattle.seg_base.specs.declared.shape.Shape.{Shape as TheShape};
ghost use Rattle.redo_record.specs.declared.record.Record.{Record};
ghost use Rattle.redo_record.specs.declared.record.Record.TheVariants.{Commit};
ghost use Rattle.page_set.specs.Pages.{dba_of};
ghost use Rattle.page_set.specs.Changes.{changed_page, Fits};
ghost use Rattle.page_set.specs.Folded.{touched_once};
ghost use Rattle.page_map.specs.Pages.{page_at, over_in, HasPages, installed, made, AreThere, AreFit, Leads};
ghost use Rattle.page_map.specs.Fitting.{FitsAt, WhyNotAt, WhyNotAmong, FitsAll, AreAllFit, AreBothFit, WhyNotAdded, WhyNotBoth, WhyNotFolded};
ghost use Rattle.page_map.specs.declared.fault.PageFault.TheVariants as faults;

use crate::PageFault;
use page_set::{Page, Unfit, changed, commit_in_place, dba_of, touches};
use redo_record::{CommitRecord, Record};
use seg_base::{Dba, Lsn, NoMemory, Shape};
use std::alloc::Global;
use std::marker::Model;

/// The page of each block.
#[derive(Drop)]
pub struct Pages {
    pages: Vec<Page>,
}

impl Model for Pages {
    ghost use Rattle.std.specs.Prelude.{List};
    ghost use Rattle.page_set.specs.declared.page.Page.{Page};

    ghost Value = { List Page };

    ghost view = { λ p. p.pages.items };
}

/// Pages that a record has changed, not yet in their places.
#[derive(Drop)]
pub struct Changed {
    pages: Vec<Page>,
}

impl Model for Changed {
    ghost use Rattle.std.specs.Prelude.{List};
    ghost use Rattle.page_set.specs.declared.page.Page.{Page};

    ghost Value = { List Page };

    ghost view = { λ p. p.pages.items };
}

/// The page of a block when the first pages are put over the one that was there.
fn over<'p>(first: &'p [Page], base: &'p Page, dba: Dba) -> &'p Page
    ensures { result.now ≡ over_in first.now base.now dba }
{
    match first {
        [] => base,
        [page, rest @ ..] => {
            if dba_of(page) == dba {
                return over(rest, page, dba);
            }
            over(rest, base, dba)
        }
    }
}

fn changed_one(
    alloc: Global,
    first: &[Page],
    pages: &[Page],
    rec: &Record,
    lsn: Lsn,
    dba: Dba,
) -> Result<Page, PageFault>
    ensures done { IfOk result (λ page. page ≡ changed_page rec.now lsn (over_in first.now (page_at pages.now dba) dba)) }
    ensures fits { OnOk result (FitsAt rec.now lsn first.now pages.now dba) }
    ensures why { IfErr result (WhyNotAt rec.now lsn first.now pages.now dba) }
    ensures fault { dba < length pages.now → Fits rec.now lsn (over_in first.now (page_at pages.now dba) dba) → IfErr result (λ e. e ≡ faults.NoMemory) }
{
    let at = dba.0 as usize;
    if at >= pages.len() {
        return Err(PageFault::BadPage { block: dba.0 });
    }
    match changed(alloc, over(first, &pages[at], dba), rec, lsn) {
        Ok(page) => Ok(page),
        Err(Unfit::NoMemory) => Err(PageFault::NoMemory),
        Err(Unfit::Misfit) => Err(PageFault::BadPage { block: dba.0 }),
    }
}

#[tactic(auto, using(crate::proofs::Folding::made_none, crate::proofs::Folding::made_next, crate::proofs::Replaying::why_first, crate::proofs::Replaying::why_rest))]
fn make(
    alloc: Global,
    first: &[Page],
    pages: &[Page],
    new: &mut Vec<Page>,
    rec: &Record,
    lsn: Lsn,
    blocks: &[Dba],
) -> Result<(), PageFault>
    ensures done { OnOk result (new.new.items ≡ new.old.items ++ made rec.now lsn first.now pages.now blocks.now) }
    ensures there { OnOk result (AreThere (length pages.now) blocks.now) }
    ensures fits { OnOk result (AreFit rec.now lsn first.now pages.now blocks.now) }
    ensures why { IfErr result (WhyNotAmong rec.now lsn first.now pages.now blocks.now) }
    ensures fault { AreFit rec.now lsn first.now pages.now blocks.now → IfErr result (λ e. e ≡ faults.NoMemory) }
{
    match blocks {
        [] => Ok(()),
        [block, rest @ ..] => {
            let page = changed_one(alloc, first, pages, rec, lsn, *block)?;
            new.push(page)?;
            make(alloc, first, pages, new, rec, lsn, rest)
        }
    }
}

/// What a record makes of the pages that it touches, where it finds the first pages put over the others.
fn made(
    alloc: Global,
    shape: &Shape,
    first: &[Page],
    pages: &[Page],
    rec: &Record,
    lsn: Lsn,
) -> Result<Vec<Page>, PageFault>
    ensures done { IfOk result (λ new. new.items ≡ [] ++ made rec.now lsn first.now pages.now (touched_once shape.now rec.now)) }
    ensures there { OnOk result (AreThere (length pages.now) (touched_once shape.now rec.now)) }
    ensures fits { OnOk result (AreFit rec.now lsn first.now pages.now (touched_once shape.now rec.now)) }
    ensures why { IfErr result (WhyNotAmong rec.now lsn first.now pages.now (touched_once shape.now rec.now)) }
    ensures fault { AreFit rec.now lsn first.now pages.now (touched_once shape.now rec.now) → IfErr result (λ e. e ≡ faults.NoMemory) }
{
    let blocks = touches(alloc, rec, shape)?;
    let mut new = Vec::new(alloc);
    make(alloc, first, pages, &mut new, rec, lsn, &blocks)?;
    Ok(new)
}

#[tactic(auto, using(crate::proofs::Folding::set_past))]
fn put(pages: &mut Vec<Page>, page: Page)
    ensures { pages.new.items ≡ slice_set pages.old.items (dba_of page) page }
{
    let at = dba_of(&page).0 as usize;
    if at < pages.len() {
        pages[at] = page;
    }
}

impl Pages {
    /// The pages of so many blocks that were never written.
    #[tactic(auto, using(crate::proofs::Zeros::none_yet, crate::proofs::Zeros::one_zero, crate::proofs::Zeros::all_zeros))]
    pub fn new(alloc: Global, shape: &Shape) -> Result<Pages, NoMemory>
        ensures { IfOk result (HasPages shape.now []) }
    {
        let blocks = shape.blocks;
        let mut pages = Vec::new(alloc);
        for at in 0..blocks {
            pages.push(Page::Zero(Dba(at)))?;
        }
        Ok(Pages { pages })
    }

    pub fn len(&self) -> usize
        ensures { result ≡ length self.now }
    {
        self.pages.len()
    }

    /// The page of a block, None exactly where the block isn't there.
    pub fn page(&self, dba: Dba) -> Option<&Page>
        ensures there { dba < length self.now → IfSome result (λ page. page.now ≡ page_at self.now dba) }
        ensures some { dba < length self.now → IsSome result }
        ensures none { length self.now ≤ dba → IsNone result }
    {
        self.pages.get(dba.0 as usize)
    }

    /// The page of a block that is there.
    pub fn frame(&self, dba: Dba) -> &Page
        requires { dba < length self.now }
        ensures { result.now ≡ page_at self.now dba }
    {
        &self.pages[dba.0 as usize]
    }

    /// The pages that the record changes, changed. No page is put into its place. `BadPage` names a block that the record
    /// touches and that isn't there, or on whose page it doesn't fit.
    #[tactic(auto, using(crate::proofs::Folding::leads, crate::proofs::Replaying::not_added))]
    pub fn prepare(
        &self,
        alloc: Global,
        shape: &Shape,
        rec: &Record,
        lsn: Lsn,
    ) -> Result<Changed, PageFault>
        ensures leads { (R : List Record) → HasPages shape.now R self.now → lsn ≡ suc (length R) → IfOk result (Leads shape.now R (rec.now ∷ R)) }
        ensures fits { OnOk result (AreFit rec.now lsn [] self.now (touched_once shape.now rec.now)) }
        ensures why { IfErr result (WhyNotAmong rec.now lsn [] self.now (touched_once shape.now rec.now)) }
        ensures fault { AreFit rec.now lsn [] self.now (touched_once shape.now rec.now) → IfErr result (λ e. e ≡ faults.NoMemory) }
        ensures all_fit { (R : List Record) → HasPages shape.now R self.now → lsn ≡ suc (length R) → OnOk result (FitsAll shape.now R rec.now) }
        ensures unfit { (R : List Record) → HasPages shape.now R self.now → lsn ≡ suc (length R) → IfErr result (WhyNotAdded shape.now R rec.now) }
    {
        let pages = made(alloc, shape, &[], &self.pages, rec, lsn)?;
        Ok(Changed { pages })
    }

    /// The pages that the two records change, changed by the first and then by the second. `BadPage` names a block where the
    /// first doesn't fit, or where that does and the second doesn't.
    #[tactic(auto, using(crate::proofs::Folding::leads_two, crate::proofs::Pairing::first_unfit, crate::proofs::Pairing::second_unfit))]
    pub fn prepare_two(
        &self,
        alloc: Global,
        shape: &Shape,
        first: &Record,
        second: &Record,
        lsn: Lsn,
    ) -> Result<Changed, PageFault>
        requires { lsn < 2 ^ 64 - 1 }
        ensures leads { (R : List Record) → HasPages shape.now R self.now → lsn ≡ suc (length R) → IfOk result (Leads shape.now R (second.now ∷ first.now ∷ R)) }
        ensures fits { OnOk result (AreFit first.now lsn [] self.now (touched_once shape.now first.now)) }
        ensures second_fits { OnOk result (AreFit second.now (lsn + 1) (made first.now lsn [] self.now (touched_once shape.now first.now)) self.now (touched_once shape.now second.now)) }
        ensures fault { AreFit first.now lsn [] self.now (touched_once shape.now first.now) → AreFit second.now (lsn + 1) (made first.now lsn [] self.now (touched_once shape.now first.now)) self.now (touched_once shape.now second.now) → IfErr result (λ e. e ≡ faults.NoMemory) }
        ensures all_fit { (R : List Record) → HasPages shape.now R self.now → lsn ≡ suc (length R) → OnOk result (AreBothFit shape.now R first.now second.now) }
        ensures unfit { (R : List Record) → HasPages shape.now R self.now → lsn ≡ suc (length R) → IfErr result (WhyNotBoth shape.now R first.now second.now) }
    {
        let mut pages = made(alloc, shape, &[], &self.pages, first, lsn)?;
        let mut more = made(alloc, shape, &pages, &self.pages, second, Lsn(lsn.0 + 1))?;
        pages.append(&mut more)?;
        Ok(Changed { pages })
    }

    /// A Commit put into the page of the transaction table, which takes no memory.
    #[tactic(auto, using(crate::proofs::Folding::commits))]
    pub fn commit(&mut self, c: CommitRecord, lsn: Lsn) -> Result<(), PageFault>
        ensures leads { (sh : TheShape) (R : List Record) → HasPages sh R self.old → lsn ≡ suc (length R) → OnOk result (HasPages sh (Commit c ∷ R) self.new) }
        ensures kept { OnErr result (self.new ≡ self.old) }
        ensures fault { 1 < length self.old → Fits (Commit c) lsn (page_at self.old 1) → IfErr result (λ e. ⊥) }
        ensures only { IfErr result (λ e. e ≡ faults.BadPage 1) }
    {
        if self.pages.len() < 2 {
            return Err(PageFault::BadPage { block: 1 });
        }
        match commit_in_place(&mut self.pages[1], c, lsn) {
            Ok(()) => Ok(()),
            Err(_) => Err(PageFault::BadPage { block: 1 }),
        }
    }

    /// Puts the changed pages into their places, which takes no memory.
    #[tactic(auto, using(crate::proofs::Folding::installs))]
    pub fn install(&mut self, changed: Changed)
        ensures value { self.new ≡ installed changed self.old }
        ensures leads { (sh : TheShape) (R Q : List Record) → HasPages sh R self.old → Leads sh R Q changed → HasPages sh Q self.new }
    {
        for page in changed.pages {
            put(&mut self.pages, page);
        }
    }

    /// Puts one more record into the pages that it touches, into all or none. `BadPage` names a block that the record touches
    /// and that isn't there, or on whose page it doesn't fit.
    pub fn add(
        &mut self,
        alloc: Global,
        shape: &Shape,
        rec: &Record,
        lsn: Lsn,
    ) -> Result<(), PageFault>
        ensures leads { (R : List Record) → HasPages shape.now R self.old → lsn ≡ suc (length R) → OnOk result (HasPages shape.now (rec.now ∷ R) self.new) }
        ensures fits { (R : List Record) → HasPages shape.now R self.old → lsn ≡ suc (length R) → OnOk result (FitsAll shape.now R rec.now) }
        ensures fault { (R : List Record) → HasPages shape.now R self.old → lsn ≡ suc (length R) → IfErr result (WhyNotAdded shape.now R rec.now) }
        ensures kept { OnErr result (self.new ≡ self.old) }
    {
        let changed = self.prepare(alloc, shape, rec, lsn)?;
        self.install(changed);
        Ok(())
    }

    /// The pages of a store after some records. `BadPage` comes exactly where a record doesn't fit on each page that it
    /// touches: it names such a page of the first such record.
    #[tactic(auto, using(crate::proofs::Replaying::none_in, crate::proofs::Replaying::one_more_in, crate::proofs::Replaying::all_in, crate::proofs::Replaying::all_fit, crate::proofs::Replaying::stops_in))]
    pub fn after(alloc: Global, shape: &Shape, records: &[Record]) -> Result<Pages, PageFault>
        ensures pages { IfOk result (HasPages shape.now (reverse records.now)) }
        ensures fits { OnOk result (AreAllFit shape.now (reverse records.now)) }
        ensures fault { IfErr result (WhyNotFolded shape.now (reverse records.now)) }
    {
        let mut pages = Pages::new(alloc, shape)?;
        for (i, rec) in records.iter().enumerate() {
            pages.add(alloc, shape, rec, Lsn(i as u64 + 1))?;
        }
        Ok(pages)
    }
}
