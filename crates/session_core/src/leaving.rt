// The row blocks that an update changed.
ghost use Rattle.std.specs.Prelude.{◌≡◌, List, true, None, Some, IfOk, IfErr, slice_index_or};
ghost use Rattle.seg_words.specs.Types.{new_slot};
ghost use Rattle.redo_model.specs.Records.{Record};
ghost use Rattle.page_set.specs.Folded.{page_of};
ghost use Rattle.store_core.specs.Causes.{HasLooked, IsSoundFault};
ghost use Rattle.store_core.specs.Store.{IsTrue, has_page};
ghost use Rattle.session_core.specs.Leaving.{home_blocks, is_empty, is_empty_at, is_empty_in, two_blocks, with_target};

use crate::changed::Changed;
use disk_model::Disk;
use page_set::Page;
use row_block::RowBlock;
use row_change::Place;
use seg_base::{Dba, Kind, NoMemory};
use std::alloc::Global;
use store_core::{Question, Store, StoreFault, ask};

fn is_empty(kind: &Kind) -> bool
    ensures { result ≡ is_empty kind.now }
{
    match kind {
        Kind::Empty => true,
        Kind::Row => false,
        Kind::Head => false,
        Kind::Body => false,
    }
}

fn is_empty_at(block: &RowBlock, slot: u8) -> bool
    ensures { result ≡ is_empty_at block.now slot }
{
    match block.slot(slot) {
        Some(slot) => is_empty(&slot.kind),
        None => true,
    }
}

fn is_empty_in(page: &Page, slot: u8) -> bool
    ensures { result ≡ is_empty_in slot page.now }
{
    match page {
        Page::Rows(block) => is_empty_at(block, slot),
        _ => false,
    }
}

/// Asks a row block whether a slot is empty; on another page none is.
#[derive(Clone, Copy)]
pub struct EmptyAt {
    pub slot: u8,
}

impl Question for EmptyAt {
    ghost use Rattle.std.specs.Prelude.{Some};
    ghost use Rattle.session_core.specs.Leaving.{is_empty_in};

    type Answer = bool;

    ghost reads = { λ q page. Some (is_empty_in q.slot page) };

    fn read(&self, alloc: Global, page: &Page) -> Result<Option<bool>, NoMemory> {
        let _ = alloc;
        Ok(Some(is_empty_in(page, self.slot)))
    }
}

/// Whether nothing stands any more at a place.
pub fn has_left<D: Disk>(
    alloc: Global,
    store: &mut Store<D>,
    place: &Place,
) -> Result<bool, StoreFault>
    ensures looked { HasLooked D.meaning store.old store.new result }
    ensures says { (R : List Record) → IsTrue D.meaning R store.old → IfOk result (λ left. left ≡ is_empty_in place.now.at.slot (page_of store.old.shape R place.now.at.dba)) }
    ensures sound { (R : List Record) → IsTrue D.meaning R store.old → store.old.fault ≡ None → has_page store.old.shape place.now.at.dba ≡ true → IfErr result IsSoundFault }
{
    let dba = place.at.dba;
    let question = EmptyAt {
        slot: place.at.slot,
    };
    ask(alloc, store, dba, &question)
}

/// The blocks of the slot that holds a row and of its head.
pub fn home_blocks(place: &Place) -> Changed
    ensures { result ≡ home_blocks place.now.head place.now.at }
{
    match place.head {
        Some(head) => {
            if head.dba == place.at.dba {
                return Changed::one(place.at.dba);
            }
            Changed {
                obj: None,
                first: Some(place.at.dba),
                second: Some(head.dba),
                third: None,
            }
        }
        None => Changed::one(place.at.dba),
    }
}

/// The same with the block to which the row went.
pub fn with_target(home: Changed, to: Dba) -> Changed
    ensures { result ≡ with_target home to }
{
    match home.second {
        None => Changed {
            obj: None,
            first: home.first,
            second: Some(to),
            third: None,
        },
        Some(_) => Changed {
            obj: None,
            first: home.first,
            second: home.second,
            third: Some(to),
        },
    }
}
