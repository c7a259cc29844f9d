// What a record makes of the pages that it touches.
ghost use Rattle.std.specs.Prelude.{◌≡◌, ◌++◌, ◌+◌, ◌-◌, ◌^◌, ◌<◌, ◌≤◌, [], IfOk, IfErr, OnOk, length};
ghost use Rattle.page_set.specs.Folded.{touched_once};
ghost use Rattle.page_set.specs.declared.fault.Unfit.TheVariants as unfit;
ghost use Rattle.buffer_pool.specs.Preparing.{over_in, one_made, made, made_by_two, AllFit, AreFramed, FitsOn, WhyNotMade, WhyNotMadeByTwo};

use crate::changed::{Changed, NewPage};
use crate::frame::MOST_TOUCHED;
use crate::pool::BufferPool;
use page_set::{Page, Unfit, changed, lsn_of, touches};
use page_store::PageFault;
use redo_record::Record;
use seg_base::{Dba, Lsn, NoMemory, Shape};
use std::alloc::Global;

/// The page of a block when the first pages are put over the one that was there.
fn over<'p>(first: &'p [NewPage], base: &'p Page, dba: Dba) -> &'p Page
    ensures { result.now ≡ over_in first.now base.now dba }
{
    match first {
        [] => base,
        [new, rest @ ..] => {
            if new.dba == dba {
                return over(rest, &new.page, dba);
            }
            over(rest, base, dba)
        }
    }
}

// Adds what a record makes of one page, where the page has a lesser LSN.
fn make_one(
    alloc: Global,
    page: &Page,
    rec: &Record,
    lsn: Lsn,
    dba: Dba,
    new: &mut Vec<NewPage>,
) -> Result<(), Unfit>
    ensures done { OnOk result (new.new.items ≡ new.old.items ++ one_made rec.now lsn dba page.now) }
    ensures fits { OnOk result (FitsOn rec.now lsn page.now) }
    ensures fault { FitsOn rec.now lsn page.now → IfErr result (λ e. e ≡ unfit.NoMemory) }
{
    if lsn_of(page) >= lsn {
        return Ok(());
    }
    let page = changed(alloc, page, rec, lsn)?;
    new.push(NewPage { dba, page })?;
    Ok(())
}

/// Adds what a record makes of the pages of these blocks, where it finds the first pages put over those in their frames.
/// `BadPage` names a block on whose page it doesn't fit.
#[tactic(auto, using(crate::proofs::Made::made_none, crate::proofs::Made::made_next, crate::proofs::Made::fit_next, crate::proofs::Made::why_first, crate::proofs::Made::why_rest))]
pub(crate) fn make(
    alloc: Global,
    pool: &BufferPool,
    first: &[NewPage],
    rec: &Record,
    lsn: Lsn,
    blocks: &[Dba],
    new: &mut Vec<NewPage>,
) -> Result<(), PageFault>
    requires { AreFramed pool.now.shape blocks.now pool.now.held }
    ensures done { OnOk result (new.new.items ≡ new.old.items ++ made rec.now lsn first.now pool.now.held blocks.now) }
    ensures fit { OnOk result (AllFit rec.now lsn first.now pool.now.held blocks.now) }
    ensures why { IfErr result (WhyNotMade rec.now lsn first.now pool.now.held blocks.now) }
{
    match blocks {
        [] => Ok(()),
        [block, rest @ ..] => {
            let page = over(first, pool.frame(*block), *block);
            match make_one(alloc, page, rec, lsn, *block, new) {
                Ok(()) => make(alloc, pool, first, rec, lsn, rest, new),
                Err(Unfit::Misfit) => Err(PageFault::BadPage { dba: *block }),
                Err(Unfit::NoMemory) => Err(PageFault::NoMemory),
            }
        }
    }
}

/// What a record makes of the pages of its blocks.
pub(crate) fn made_one(
    alloc: Global,
    pool: &BufferPool,
    rec: &Record,
    lsn: Lsn,
    blocks: &[Dba],
) -> Result<Changed, PageFault>
    requires { AreFramed pool.now.shape blocks.now pool.now.held }
    ensures done { IfOk result (λ changed. changed ≡ made rec.now lsn [] pool.now.held blocks.now) }
    ensures fit { OnOk result (AllFit rec.now lsn [] pool.now.held blocks.now) }
    ensures why { IfErr result (WhyNotMade rec.now lsn [] pool.now.held blocks.now) }
{
    let mut pages = Vec::new(alloc);
    match make(alloc, pool, &[], rec, lsn, blocks, &mut pages) {
        Ok(()) => Ok(Changed { pages }),
        Err(fault) => Err(fault),
    }
}

/// The blocks that two records touch: those of each, each once, and all.
#[derive(Drop)]
pub(crate) struct BlocksOfTwo {
    pub(crate) first: Vec<Dba>,
    pub(crate) second: Vec<Dba>,
    pub(crate) all: Vec<Dba>,
}

/// What two records make of the pages of their blocks, the second of those that the first leaves.
pub(crate) fn made_two(
    alloc: Global,
    pool: &BufferPool,
    first: &Record,
    second: &Record,
    lsn: Lsn,
    blocks: &BlocksOfTwo,
) -> Result<Changed, PageFault>
    requires number { lsn < 2 ^ 64 - 1 }
    requires frames { AreFramed pool.now.shape blocks.now.first.items pool.now.held × AreFramed pool.now.shape blocks.now.second.items pool.now.held }
    ensures done { IfOk result (λ changed. changed ≡ made_by_two first.now second.now lsn pool.now.held blocks.now.first.items blocks.now.second.items) }
    ensures fit { OnOk result (AllFit first.now lsn [] pool.now.held blocks.now.first.items × AllFit second.now (lsn + 1) (made first.now lsn [] pool.now.held blocks.now.first.items) pool.now.held blocks.now.second.items) }
    ensures why { IfErr result (WhyNotMadeByTwo first.now second.now lsn pool.now.held blocks.now.first.items blocks.now.second.items) }
{
    let mut pages = Vec::new(alloc);
    match make(alloc, pool, &[], first, lsn, &blocks.first, &mut pages) {
        Ok(()) => {}
        Err(fault) => return Err(fault),
    }
    let mut more = Vec::new(alloc);
    match make(
        alloc,
        pool,
        &pages,
        second,
        Lsn(lsn.0 + 1),
        &blocks.second,
        &mut more,
    ) {
        Ok(()) => {}
        Err(fault) => return Err(fault),
    }
    match pages.append(&mut more) {
        Ok(()) => Ok(Changed { pages }),
        Err(_) => Err(PageFault::NoMemory),
    }
}

/// The blocks that a record touches, each once. More than any record that can be written touches aren't listed.
pub(crate) fn touched(alloc: Global, rec: &Record, shape: &Shape) -> Result<Vec<Dba>, PageFault>
    ensures list { IfOk result (λ blocks. blocks.items ≡ touched_once shape.now rec.now) }
    ensures few { IfOk result (λ blocks. length blocks.items ≤ MOST_TOUCHED) }
    ensures only { IfErr result (λ e. e ≡ PageFault.NoMemory) }
{
    match touches(alloc, rec, shape) {
        Ok(blocks) => {
            if blocks.len() > MOST_TOUCHED {
                return Err(PageFault::NoMemory);
            }
            Ok(blocks)
        }
        Err(NoMemory) => Err(PageFault::NoMemory),
    }
}

// Some blocks and more behind them.
fn joined(alloc: Global, blocks: &[Dba], more: &[Dba]) -> Result<Vec<Dba>, NoMemory>
    ensures { IfOk result (λ all. all.items ≡ blocks.now ++ more.now) }
{
    let mut all = Vec::from_slice(alloc, blocks)?;
    all.extend_from_slice(more)?;
    Ok(all)
}

fn listed(
    alloc: Global,
    first: &Record,
    second: &Record,
    shape: &Shape,
) -> Result<BlocksOfTwo, NoMemory>
    ensures first { IfOk result (λ blocks. blocks.first.items ≡ touched_once shape.now first.now) }
    ensures second { IfOk result (λ blocks. blocks.second.items ≡ touched_once shape.now second.now) }
    ensures all { IfOk result (λ blocks. blocks.all.items ≡ blocks.first.items ++ blocks.second.items) }
{
    let first = touches(alloc, first, shape)?;
    let second = touches(alloc, second, shape)?;
    let all = joined(alloc, &first, &second)?;
    Ok(BlocksOfTwo { first, second, all })
}

/// The blocks that two records touch. More than any two that can be written touch aren't listed.
pub(crate) fn touched_two(
    alloc: Global,
    first: &Record,
    second: &Record,
    shape: &Shape,
) -> Result<BlocksOfTwo, PageFault>
    ensures first { IfOk result (λ blocks. blocks.first.items ≡ touched_once shape.now first.now) }
    ensures second { IfOk result (λ blocks. blocks.second.items ≡ touched_once shape.now second.now) }
    ensures all { IfOk result (λ blocks. blocks.all.items ≡ blocks.first.items ++ blocks.second.items) }
    ensures few { IfOk result (λ blocks. length blocks.all.items ≤ MOST_TOUCHED) }
    ensures only { IfErr result (λ e. e ≡ PageFault.NoMemory) }
{
    match listed(alloc, first, second, shape) {
        Ok(blocks) => {
            if blocks.all.len() > MOST_TOUCHED {
                return Err(PageFault::NoMemory);
            }
            Ok(blocks)
        }
        Err(NoMemory) => Err(PageFault::NoMemory),
    }
}
