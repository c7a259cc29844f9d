// The kept class of a row block, and the Class that changes it.
ghost use Rattle.std.specs.Prelude.{ℕ, ◌≡◌, ◌≤◌, not, None, List, IfOk, IfErr};
ghost use Rattle.seg_words.specs.Types.{EXTENTS_OF_L2, MOST_EXTENT_BLOCKS, MOST_PCTFREE, class_code, class_of_block};
ghost use Rattle.redo_model.specs.Records.{Record};
ghost use Rattle.usage_laws.specs.Types.{calls_for_class, class_to, with_class};
ghost use Rattle.version_laws.specs.Types.{HoldsTable, ended_by};
ghost use Rattle.store_core.specs.Adding.{Adds, HasTried};
ghost use Rattle.store_core.specs.Causes.{HasLooked, IsSoundFault};
ghost use Rattle.segment_read.specs.Segments.{IsSegment};
ghost use Rattle.space_usage.specs.Asked.{best_in, best_with, class_in};
ghost use Rattle.space_usage.specs.Keeping.{drafted, is_other, levels_of, with_kept};
ghost use Rattle.space_usage.specs.Settles.{HasBlock};

use crate::adding::add;
use crate::levels::{Levels, find_levels, nth_in};
use bitmap_block::{GREATEST_CODE, L1, L2};
use disk_model::Disk;
use page_set::Page;
use redo_record::{ClassRecord, Record};
use row_block::RowBlock;
use seg_base::{
    Class, Dba, EXTENTS_OF_L2, MOST_EXTENT_BLOCKS, MOST_PCTFREE, NoMemory, Obj, class_code,
};
use segment_read::Segment;
use std::alloc::Global;
use store_core::{Question, Store, StoreFault, ask};
use store_read::{code_at, read_segment};
use txn_block::TxnBlock;
use version_read::EndedIn;

fn first_with(map: &L1, nth: u16, code: u8) -> Option<u8>
    ensures { result ≡ best_with MOST_EXTENT_BLOCKS nth code map.now.codes }
{
    if u32::from(nth) >= MOST_EXTENT_BLOCKS {
        return None;
    }
    if code > GREATEST_CODE {
        return None;
    }
    let mut after = map.duplicate();
    after.set(nth, code);
    Some(after.best())
}

fn second_with(map: &L2, nth: u16, code: u8) -> Option<u8>
    ensures { result ≡ best_with EXTENTS_OF_L2 nth code map.now.codes }
{
    if usize::from(nth) >= EXTENTS_OF_L2 {
        return None;
    }
    if code > GREATEST_CODE {
        return None;
    }
    let mut after = map.duplicate();
    after.set(nth, code);
    Some(after.best())
}

fn best_in(page: &Page, nth: u16, code: u8) -> Option<u8>
    ensures { result ≡ best_in nth code page.now }
{
    match page {
        Page::First(map) => first_with(map, nth, code),
        Page::Second(map) => second_with(map, nth, code),
        _ => None,
    }
}

/// Asks a first or second level for its best with this code at this place.
#[derive(Clone, Copy, Debug, Drop)]
struct BestWith {
    nth: u16,
    code: u8,
}

impl Question for BestWith {
    ghost use Rattle.space_usage.specs.Asked.{best_in};

    type Answer = u8;

    ghost reads = { λ q page. best_in q.nth q.code page };

    fn read(&self, alloc: Global, page: &Page) -> Result<Option<u8>, NoMemory> {
        let _ = alloc;
        Ok(best_in(page, self.nth, self.code))
    }
}

fn class_of_rows(table: &TxnBlock, pctfree: u8, block: &RowBlock) -> Class
    requires { pctfree ≤ MOST_PCTFREE }
    ensures { result ≡ class_of_block (ended_by table.now) pctfree block.now.block }
{
    let ended = EndedIn::of(table);
    block.class(&ended, pctfree)
}

fn class_in(table: &TxnBlock, pctfree: u8, page: &Page) -> Option<Class>
    ensures { result ≡ class_in table.now pctfree page.now }
{
    let Page::Rows(block) = page else {
        return None;
    };
    if pctfree > MOST_PCTFREE {
        return None;
    }
    Some(class_of_rows(table, pctfree, block))
}

/// Asks a row block for its class, in a table of this PCTFREE.
#[derive(Drop)]
pub struct ClassOf<'a> {
    pub table: &'a TxnBlock,
    pub pctfree: u8,
}

impl<'a> Question for ClassOf<'a> {
    ghost use Rattle.space_usage.specs.Asked.{class_in};

    type Answer = Class;

    ghost reads = { λ q page. class_in q.table.now q.pctfree page };

    fn read(&self, alloc: Global, page: &Page) -> Result<Option<Class>, NoMemory> {
        let _ = alloc;
        Ok(class_in(self.table, self.pctfree, page))
    }
}

/// The Class that keeps a class of a formatted block, which these levels cover.
fn draft_class<D: Disk>(
    alloc: Global,
    store: &mut Store<D>,
    obj: Obj,
    dba: Dba,
    class: Class,
    levels: &Levels,
) -> Result<ClassRecord, StoreFault>
    ensures looked { HasLooked D.meaning store.old store.new result }
    ensures says { (R : List Record) → HasBlock D.meaning R obj dba store.old → levels.now ≡ levels_of store.old.shape R obj dba → IfOk result (λ k. k ≡ class_to store.old.shape R obj dba class) }
    ensures sound { (R : List Record) → HasBlock D.meaning R obj dba store.old → levels.now ≡ levels_of store.old.shape R obj dba → store.old.fault ≡ None → IfErr result IsSoundFault }
{
    let first = BestWith {
        nth: nth_in(levels.l1, dba),
        code: class_code(class),
    };
    let best_of_l1 = match ask(alloc, store, levels.l1, &first) {
        Ok(best) => best,
        Err(fault) => return Err(fault),
    };
    let second = BestWith {
        nth: levels.index % EXTENTS_OF_L2 as u16,
        code: best_of_l1,
    };
    let best_of_l2 = match ask(alloc, store, levels.l2, &second) {
        Ok(best) => best,
        Err(fault) => return Err(fault),
    };
    Ok(ClassRecord {
        obj,
        dba,
        class,
        l2: levels.l2,
        l3: levels.l3,
        index: levels.index,
        best_of_l1,
        best_of_l2,
    })
}

/// Whether the kept class of a formatted block, which these levels cover, is another one.
fn is_other<D: Disk>(
    store: &mut Store<D>,
    dba: Dba,
    class: Class,
    levels: &Levels,
) -> Result<bool, StoreFault>
    ensures looked { HasLooked D.meaning store.old store.new result }
    ensures says { (R : List Record) (o : ℕ) → HasBlock D.meaning R o dba store.old → levels.now ≡ levels_of store.old.shape R o dba → IfOk result (λ y. y ≡ is_other R dba class) }
    ensures sound { (R : List Record) (o : ℕ) → HasBlock D.meaning R o dba store.old → levels.now ≡ levels_of store.old.shape R o dba → store.old.fault ≡ None → IfErr result IsSoundFault }
{
    match code_at(store, levels.l1, nth_in(levels.l1, dba)) {
        Ok(code) => Ok(class_code(class) != code),
        Err(fault) => Err(fault),
    }
}

/// The Class that keeps a class of a formatted block, which these levels cover. None exactly where that class is kept.
fn draft_by<D: Disk>(
    alloc: Global,
    store: &mut Store<D>,
    obj: Obj,
    dba: Dba,
    class: Class,
    levels: &Levels,
) -> Result<Option<ClassRecord>, StoreFault>
    ensures looked { HasLooked D.meaning store.old store.new result }
    ensures says { (R : List Record) → HasBlock D.meaning R obj dba store.old → levels.now ≡ levels_of store.old.shape R obj dba → IfOk result (λ k. k ≡ drafted store.old.shape R obj dba class) }
    ensures sound { (R : List Record) → HasBlock D.meaning R obj dba store.old → levels.now ≡ levels_of store.old.shape R obj dba → store.old.fault ≡ None → IfErr result IsSoundFault }
{
    match is_other(store, dba, class, levels) {
        Ok(true) => match draft_class(alloc, store, obj, dba, class, levels) {
            Ok(rec) => Ok(Some(rec)),
            Err(fault) => Err(fault),
        },
        Ok(false) => Ok(None),
        Err(fault) => Err(fault),
    }
}

/// The same of a formatted block of the segment's table.
fn draft<D: Disk>(
    alloc: Global,
    store: &mut Store<D>,
    segment: &Segment,
    dba: Dba,
    class: Class,
) -> Result<Option<ClassRecord>, StoreFault>
    ensures looked { HasLooked D.meaning store.old store.new result }
    ensures says { (R : List Record) (o : ℕ) → HasBlock D.meaning R o dba store.old → IsSegment store.old.shape R o segment.now → IfOk result (λ k. k ≡ drafted store.old.shape R o dba class) }
    ensures sound { (R : List Record) (o : ℕ) → HasBlock D.meaning R o dba store.old → IsSegment store.old.shape R o segment.now → store.old.fault ≡ None → IfErr result IsSoundFault }
{
    match find_levels(store, segment, dba) {
        Ok(levels) => draft_by(alloc, store, segment.obj, dba, class, &levels),
        Err(fault) => Err(fault),
    }
}

/// Keeps a class of a formatted block of the segment's table, by a Class where another one is kept, and answers whether one was
/// added.
pub fn keep<D: Disk>(
    alloc: Global,
    store: &mut Store<D>,
    segment: &Segment,
    dba: Dba,
    class: Class,
) -> Result<bool, StoreFault>
    ensures keeps { (R : List Record) (o : ℕ) → HasBlock D.meaning R o dba store.old → IsSegment store.old.shape R o segment.now → 1 ≤ class_code class → Adds D.meaning R (with_kept store.old.shape R o dba class) store.old store.new result }
    ensures changed { (R : List Record) (o : ℕ) → HasBlock D.meaning R o dba store.old → IsSegment store.old.shape R o segment.now → IfOk result (λ y. y ≡ is_other R dba class) }
    ensures tried { HasTried D.meaning store.old store.new result }
{
    match draft(alloc, store, segment, dba, class) {
        Ok(Some(rec)) => match add(store, &Record::Class(rec)) {
            Ok(()) => Ok(true),
            Err(fault) => Err(fault),
        },
        Ok(None) => Ok(false),
        Err(fault) => Err(fault),
    }
}

/// Keeps the class that a formatted block of a table has. The transaction table is the store's.
pub fn keep_class_of<D: Disk>(
    alloc: Global,
    store: &mut Store<D>,
    table: &TxnBlock,
    obj: Obj,
    dba: Dba,
) -> Result<bool, StoreFault>
    ensures keeps { (R : List Record) → HasBlock D.meaning R obj dba store.old → HoldsTable R table.now → Adds D.meaning R (with_class store.old.shape R obj dba) store.old store.new result }
    ensures changed { (R : List Record) → HasBlock D.meaning R obj dba store.old → HoldsTable R table.now → IfOk result (λ y. y ≡ calls_for_class R obj dba) }
    ensures tried { HasTried D.meaning store.old store.new result }
{
    let segment = match read_segment(store, obj) {
        Ok(segment) => segment,
        Err(fault) => return Err(fault),
    };
    let question = ClassOf {
        table,
        pctfree: segment.pctfree,
    };
    match ask(alloc, store, dba, &question) {
        Ok(class) => keep(alloc, store, &segment, dba, class),
        Err(fault) => Err(fault),
    }
}
