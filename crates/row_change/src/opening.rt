// How a change begins: with the transaction table, and with who changes.
ghost use Rattle.std.specs.Prelude.{◌≡◌, ℕ, ◌≤◌, List, Option, None, length, IfOk, IfErr};
ghost use Rattle.seg_words.specs.Types.{LONGEST_ROW};
ghost use Rattle.redo_model.specs.Records.{Record};
ghost use Rattle.redo_model.specs.Model.{IsRowBlock, IsTable, at_place};
ghost use Rattle.change_laws.specs.Types.{fill};
ghost use Rattle.store_core.specs.Causes.{HasLooked, IsSoundFault};
ghost use Rattle.store_core.specs.Store.{IsTrue};
ghost use Rattle.row_change.specs.Acting.{MayAct};
ghost use Rattle.row_change.specs.Drafting.{FillIs, place_or, told_content};
ghost use Rattle.row_change.specs.Opening.{ActsBy};

use crate::actor::{Actor, find_actor};
use crate::draft::{Content, Fill};
use crate::replaced::Replacing;
use disk_model::Disk;
use seg_base::{Dba, TxnId};
use std::alloc::Global;
use store_core::{Store, StoreFault, ask};
use txn_block::TxnBlock;

/// The transaction table, and who changes a row by it.
#[derive(Drop)]
pub struct Opening {
    pub table: TxnBlock,
    pub actor: Actor,
}

/// Reads the transaction table, and finds who changes a row for a session.
pub fn begin_change<D: Disk>(
    alloc: Global,
    store: &mut Store<D>,
    who: u8,
    own: Option<TxnId>,
) -> Result<Opening, StoreFault>
    ensures looked { HasLooked D.meaning store.old store.new result }
    ensures says { (R : List Record) → IsTrue D.meaning R store.old → MayAct R who own → IfOk result (ActsBy R who own) }
    ensures sound { (R : List Record) (o : ℕ) → IsTrue D.meaning R store.old → IsTable R o → MayAct R who own → store.old.fault ≡ None → IfErr result IsSoundFault }
{
    let table = match store.copy_table(alloc) {
        Ok(table) => table,
        Err(fault) => return Err(fault),
    };
    match find_actor(store, &table, who, own) {
        Ok(actor) => Ok(Opening { table, actor }),
        Err(fault) => Err(fault),
    }
}

fn length_of(content: &Content) -> u16
    requires { length content.now.bytes ≤ LONGEST_ROW }
    ensures { result ≡ length content.now.bytes }
{
    content.bytes.len() as u16
}

/// A slot of a row block filled, or the one where a new row goes.
pub fn fill_at<D: Disk>(
    alloc: Global,
    store: &mut Store<D>,
    opening: &Opening,
    dba: Dba,
    slot: Option<u8>,
    content: Content,
) -> Result<Fill, StoreFault>
    requires { length content.bytes ≤ LONGEST_ROW }
    ensures looked { HasLooked D.meaning store.old store.new result }
    ensures says { (R : List Record) (o who : ℕ) (own : Option ℕ) → IsTrue D.meaning R store.old → ActsBy R who own opening.now → IsRowBlock store.old.shape R o dba → IfOk result (λ f. FillIs R own f (fill (at_place dba (place_or R dba slot)) (told_content content))) }
    ensures sound { (R : List Record) (o who : ℕ) (own : Option ℕ) → IsTrue D.meaning R store.old → ActsBy R who own opening.now → IsRowBlock store.old.shape R o dba → store.old.fault ≡ None → IfErr result IsSoundFault }
{
    let len = length_of(&content);
    let question = Replacing {
        table: &opening.table,
        txn: opening.actor.txn,
        slot,
        len,
    };
    match ask(alloc, store, dba, &question) {
        Ok(replaced) => Ok(Fill {
            dba,
            replaced,
            content,
        }),
        Err(fault) => Err(fault),
    }
}
