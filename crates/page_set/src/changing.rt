// What a record does to a page.
ghost use Rattle.std.specs.Prelude.{◌≡◌, IfOk, IfErr, OnOk, OnErr};
ghost use Rattle.page_set.specs.Faults.{Kept};
ghost use Rattle.page_set.specs.Changes.{page_after, changed_page, PageFits, Fits};
ghost use Rattle.page_set.specs.declared.fault.Unfit.TheVariants as faults;
ghost use Rattle.redo_record.specs.declared.record.Record.TheVariants.{Commit};
ghost use Rattle.redo_record.specs.declared.transaction.CommitRecord.{CommitRecord};

use crate::catalogue::change_catalogue;
use crate::fault::Unfit;
use crate::header::change_header;
use crate::maps::{change_first, change_second, change_third};
use crate::page::Page;
use crate::rows::change_rows;
use crate::space::change_space;
use crate::starting::{start, started};
use crate::txns::{change_txns, commit_txns};
use crate::undo::change_undo;
use redo_record::{CommitRecord, Record};
use seg_base::{Lsn, NoMemory};
use std::alloc::Global;

fn change_there(alloc: Global, page: &mut Page, rec: &Record, lsn: Lsn) -> Result<(), Unfit>
    ensures done { OnOk result (page.new ≡ page_after rec.now lsn page.old) }
    ensures fits { OnOk result (PageFits rec.now page.old) }
    ensures fault { PageFits rec.now page.old → IfErr result (λ e. e ≡ faults.NoMemory) }
    ensures kept { Kept result page.old page.new }
{
    match page {
        Page::Zero(_) | Page::Checkpoint(_) => Err(Unfit::Misfit),
        Page::Txns(table) => change_txns(table, rec, lsn),
        Page::Catalogue(catalogue) => change_catalogue(alloc, catalogue, rec, lsn),
        Page::Space(space) => change_space(space, rec, lsn),
        Page::Undo(block) => change_undo(alloc, block, rec, lsn),
        Page::First(map) => change_first(map, rec, lsn),
        Page::Second(map) => change_second(map, rec, lsn),
        Page::Third(map) => change_third(map, rec, lsn),
        Page::Header(header) => change_header(header, rec, lsn),
        Page::Rows(block) => change_rows(alloc, block, rec, lsn),
    }
}

/// The page as the record leaves it; the page that is there stays. Where the record doesn't fit on the page, the answer is
/// Misfit.
pub fn changed(alloc: Global, page: &Page, rec: &Record, lsn: Lsn) -> Result<Page, Unfit>
    ensures done { IfOk result (λ p. p ≡ changed_page rec.now lsn page.now) }
    ensures fits { OnOk result (Fits rec.now lsn page.now) }
    ensures fault { Fits rec.now lsn page.now → IfErr result (λ e. e ≡ faults.NoMemory) }
{
    let mut made = start(alloc, page, rec, lsn)?;
    change_there(alloc, &mut made, rec, lsn)?;
    Ok(made)
}

/// The same in place. Without memory the page stays as it is.
pub fn change(alloc: Global, page: &mut Page, rec: &Record, lsn: Lsn) -> Result<(), Unfit>
    ensures done { OnOk result (page.new ≡ changed_page rec.now lsn page.old) }
    ensures fits { OnOk result (Fits rec.now lsn page.old) }
    ensures fault { Fits rec.now lsn page.old → IfErr result (λ e. e ≡ faults.NoMemory) }
    ensures kept { Kept result page.old page.new }
{
    match started(alloc, page, rec, lsn)? {
        None => change_there(alloc, page, rec, lsn),
        Some(mut made) => {
            change_there(alloc, &mut made, rec, lsn)?;
            *page = made;
            Ok(())
        }
    }
}

/// A Commit put into the page that is there, which takes no memory.
pub fn commit_in_place(page: &mut Page, c: CommitRecord, lsn: Lsn) -> Result<(), Unfit>
    ensures done { OnOk result (page.new ≡ changed_page (Commit c) lsn page.old) }
    ensures fits { OnOk result (Fits (Commit c) lsn page.old) }
    ensures kept { OnErr result (page.new ≡ page.old) }
    ensures fault { Fits (Commit c) lsn page.old → IfErr result (λ e. ⊥) }
{
    match page {
        Page::Txns(table) => commit_txns(table, c, lsn),
        _ => Err(Unfit::Misfit),
    }
}

/// Puts a record into a page that it touches, and the record's LSN. A Commit takes no memory. A page that the record doesn't
/// fit is no page of a store: what becomes of it isn't said.
pub fn apply(alloc: Global, page: &mut Page, rec: &Record, lsn: Lsn) -> Result<(), NoMemory>
    ensures done { Fits rec.now lsn page.old → OnOk result (page.new ≡ changed_page rec.now lsn page.old) }
    ensures kept { OnErr result (page.new ≡ page.old) }
    ensures commit { (c : CommitRecord) → rec.now ≡ Commit c → IfErr result (λ e. ⊥) }
{
    if let Record::Commit(c) = rec {
        let _ = commit_in_place(page, *c, lsn);
        return Ok(());
    }
    match change(alloc, page, rec, lsn) {
        Ok(()) | Err(Unfit::Misfit) => Ok(()),
        Err(Unfit::NoMemory) => Err(NoMemory),
    }
}
