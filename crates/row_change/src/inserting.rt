// A row inserted.
ghost use Rattle.std.specs.Prelude.{◌≡◌, ℕ, suc, ◌-◌, ◌≤◌, ◌^◌, List, Option, None, length, IfOk, IfErr, IfSome, IfNone};
ghost use Rattle.seg_words.specs.Types.{LONGEST_ROW};
ghost use Rattle.redo_model.specs.Records.{Record};
ghost use Rattle.redo_model.specs.Model.{IsRowBlock, IsTable, plain_row};
ghost use Rattle.change_laws.specs.Types.{MayInsert, insert_answer, insert_of};
ghost use Rattle.store_core.specs.Causes.{HasCause, HasLooked, IsSoundFault};
ghost use Rattle.store_core.specs.Store.{IsTrue, SameLoan};
ghost use Rattle.row_change.specs.Acting.{MayAct};
ghost use Rattle.row_change.specs.Answering.{Answers, store_answer};
ghost use Rattle.row_change.specs.Drafting.{ChangeIs, told_content};
ghost use Rattle.row_change.specs.Opening.{ActsBy};
ghost use Rattle.row_change.specs.Planning.{PlanMeans};

use crate::actor::TXN_TABLE;
use crate::answer::{ChangeFault, Done};
use crate::counting::next_number;
use crate::draft::{Change, ChangeKind, Content, Fills};
use crate::making::make;
use crate::opening::{Opening, begin_change, fill_at};
use crate::plan::{Planned, plan};
use disk_model::Disk;
use seg_base::{Dba, Kind, NoMemory, Obj, RowNo, Text, TxnId};
use std::alloc::Global;
use store_core::{Store, StoreFault};

fn next_row(last: RowNo) -> Option<RowNo>
    ensures next { IfSome result (λ row. row ≡ suc last) }
    ensures greatest { IfNone result (2 ^ 64 - 1 ≤ last) }
{
    match next_number(last.0) {
        Some(number) => Some(RowNo(number)),
        None => None,
    }
}

/// A row whole in one slot.
pub fn plain_row(alloc: Global, row: RowNo, bytes: &[u8]) -> Result<Content, NoMemory>
    ensures content { IfOk result (λ c. told_content c ≡ plain_row row bytes.now) }
    ensures length { IfOk result (λ c. length c.bytes ≡ length bytes.now) }
{
    let bytes = Text::copy(alloc, bytes)?;
    Ok(Content {
        kind: Kind::Row,
        row,
        link: None,
        bytes,
    })
}

fn insert_change<D: Disk>(
    alloc: Global,
    store: &mut Store<D>,
    opening: &Opening,
    obj: Obj,
    at: Dba,
    bytes: &[u8],
) -> Result<Change, StoreFault>
    requires unspent { store.old.fault ≡ None }
    requires size { length bytes.now ≤ LONGEST_ROW }
    ensures looked { HasLooked D.meaning store.old store.new result }
    ensures says { (R : List Record) (who : ℕ) (own : Option ℕ) → IsTrue D.meaning R store.old → ActsBy R who own opening.now → IsRowBlock store.old.shape R obj at → IfOk result (λ c. ChangeIs R own c (insert_of R obj at bytes.now)) }
    ensures sound { (R : List Record) (who : ℕ) (own : Option ℕ) → IsTrue D.meaning R store.old → ActsBy R who own opening.now → IsTable R obj → IsRowBlock store.old.shape R obj at → IfErr result IsSoundFault }
{
    let row = match next_row(opening.table.last_row()) {
        Some(row) => row,
        None => return Err(store.refuse(TXN_TABLE)),
    };
    let content = match plain_row(alloc, row, bytes) {
        Ok(content) => content,
        Err(_) => return Err(StoreFault::NoMemory),
    };
    match fill_at(alloc, store, opening, at, None, content) {
        Ok(fill) => Ok(Change {
            kind: ChangeKind::Insert,
            obj,
            row,
            fills: Fills::One(fill),
        }),
        Err(fault) => Err(fault),
    }
}

fn plan_insert<D: Disk>(
    alloc: Global,
    store: &mut Store<D>,
    who: u8,
    own: Option<TxnId>,
    obj: Obj,
    at: Dba,
    bytes: &[u8],
) -> Result<Planned, StoreFault>
    requires { length bytes.now ≤ LONGEST_ROW }
    ensures looked { HasLooked D.meaning store.old store.new result }
    ensures says { (R : List Record) → IsTrue D.meaning R store.old → MayAct R who own → MayInsert store.old.shape R own obj at bytes.now → IfOk result (PlanMeans store.old.shape R who own (insert_of R obj at bytes.now)) }
    ensures sound { (R : List Record) → IsTrue D.meaning R store.old → MayAct R who own → MayInsert store.old.shape R own obj at bytes.now → store.old.fault ≡ None → IfErr result IsSoundFault }
{
    let opening = match begin_change(alloc, store, who, own) {
        Ok(opening) => opening,
        Err(fault) => return Err(fault),
    };
    let change = match insert_change(alloc, store, &opening, obj, at, bytes) {
        Ok(change) => change,
        Err(fault) => return Err(fault),
    };
    plan(alloc, store, &opening, change)
}

/// Inserts a row of 1 to 1,800 bytes into a block of a table, and answers its number. `own` is the active transaction of the
/// session `who`, or None where it has none, and then one begins. The block is a formatted one of the table under its high mark
/// that takes the row. Of the refusals only `UndoFull` comes.
pub fn insert<D: Disk>(
    alloc: Global,
    store: &mut Store<D>,
    who: u8,
    own: Option<TxnId>,
    obj: Obj,
    at: Dba,
    bytes: &[u8],
) -> Result<Done, ChangeFault>
    requires { length bytes.now ≤ LONGEST_ROW }
    ensures answers { (R : List Record) → IsTrue D.meaning R store.old → MayAct R who own → MayInsert store.old.shape R own obj at bytes.now → Answers D.meaning R who own (insert_answer store.old.shape R obj at bytes.now) store.old store.new result }
    ensures loan { SameLoan D.meaning store.old store.new }
    ensures cause { HasCause D.meaning store.old store.new (store_answer result) }
{
    match plan_insert(alloc, store, who, own, obj, at, bytes) {
        Ok(planned) => make(store, planned),
        Err(fault) => Err(ChangeFault::Store(fault)),
    }
}
