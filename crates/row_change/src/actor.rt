// Who changes a row: the active transaction of a session, or the one that begins with the change.
ghost use Rattle.std.specs.Prelude.{◌≡◌, ℕ, List, Some, None, IfOk, IfErr, IfSome, IfNone};
ghost use Rattle.redo_model.specs.Records.{Record};
ghost use Rattle.redo_model.specs.Model.{IsTable, place_of_undo};
ghost use Rattle.version_laws.specs.Types.{HoldsTable};
ghost use Rattle.store_core.specs.Causes.{HasLooked, IsSoundFault};
ghost use Rattle.store_core.specs.Store.{IsTrue};
ghost use Rattle.row_change.specs.Acting.{Acts, BeginsBy, IsFull, MayAct, open_actor};

use crate::counting::next_number;
use disk_model::Disk;
use redo_record::BeginRecord;
use seg_base::{Dba, TXN_TABLE_BLOCK, TxnId, UndoAddr, UndoPlace};
use store_core::{Store, StoreFault};
use txn_block::TxnBlock;

/// The block of the transaction table.
pub const TXN_TABLE: Dba = Dba(TXN_TABLE_BLOCK);

/// A transaction that changes a row: its number, its place in the transaction table, where its newest undo stands, and the
/// Begin that it still needs.
#[derive(Clone, Copy, Drop)]
pub struct Actor {
    pub txn: TxnId,
    pub entry: u8,
    pub previous: Option<UndoPlace>,
    pub begin: Option<BeginRecord>,
}

fn place_of_undo(undo: Option<UndoAddr>) -> Option<UndoPlace>
    ensures { result ≡ place_of_undo undo }
{
    match undo {
        None => None,
        Some(undo) => Some(UndoPlace {
            block: undo.block,
            nth: undo.nth,
        }),
    }
}

fn open_actor(table: &TxnBlock, txn: TxnId) -> Option<Actor>
    ensures { result ≡ open_actor table.now txn }
{
    match table.entry_of(txn) {
        None => None,
        Some(entry) => Some(Actor {
            txn,
            entry,
            previous: place_of_undo(table.last_undo(txn)),
            begin: None,
        }),
    }
}

fn new_actor(table: &TxnBlock, who: u8) -> Option<Actor>
    ensures begins { IfSome result (BeginsBy table.now who) }
    ensures full { IfNone result (IsFull table.now) }
{
    let last = table.last_txn();
    let number = match next_number(last.0) {
        Some(number) => number,
        None => return None,
    };
    match table.next_entry() {
        None => None,
        Some((entry, control)) => {
            let txn = TxnId(number);
            let begin = BeginRecord {
                txn,
                session: who,
                entry,
                control,
            };
            Some(Actor {
                txn,
                entry,
                previous: None,
                begin: Some(begin),
            })
        }
    }
}

fn actor_of(table: &TxnBlock, who: u8, own: Option<TxnId>) -> Option<Actor>
    ensures active { (t : ℕ) → own ≡ Some t → result ≡ open_actor table.now t }
    ensures begins { own ≡ None → IfSome result (BeginsBy table.now who) }
    ensures full { own ≡ None → IfNone result (IsFull table.now) }
{
    match own {
        Some(txn) => open_actor(table, txn),
        None => new_actor(table, who),
    }
}

/// Who changes a row for a session, by the transaction table.
pub fn find_actor<D: Disk>(
    store: &mut Store<D>,
    table: &TxnBlock,
    who: u8,
    own: Option<TxnId>,
) -> Result<Actor, StoreFault>
    requires unspent { store.old.fault ≡ None }
    ensures looked { HasLooked D.meaning store.old store.new result }
    ensures says { (R : List Record) → IsTrue D.meaning R store.old → HoldsTable R table.now → MayAct R who own → IfOk result (Acts R who own) }
    ensures sound { (R : List Record) (o : ℕ) → IsTrue D.meaning R store.old → HoldsTable R table.now → IsTable R o → MayAct R who own → IfErr result IsSoundFault }
{
    match actor_of(table, who, own) {
        Some(actor) => Ok(actor),
        None => Err(store.refuse(TXN_TABLE)),
    }
}
