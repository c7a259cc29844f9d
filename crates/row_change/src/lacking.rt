// The list entries that a change needs in the blocks of its row.
ghost use Rattle.std.specs.Prelude.{◌≡◌, ◌∷◌, [], ℕ, List, Option, None, IfOk, IfErr, map, slice_index_or};
ghost use Rattle.seg_words.specs.Types.{ListEntry as TheEntry, entry_for, new_entry};
ghost use Rattle.redo_model.specs.Records.{Record};
ghost use Rattle.redo_model.specs.Model.{IsRowBlock};
ghost use Rattle.change_laws.specs.Types.{blocks_at, first_lacking};
ghost use Rattle.version_laws.specs.Types.{ended_by};
ghost use Rattle.store_core.specs.Causes.{HasLooked, IsSoundFault};
ghost use Rattle.store_core.specs.Store.{IsTrue};
ghost use Rattle.row_change.specs.Lacking.{lack_by, lack_in, lack_of, names_at};
ghost use Rattle.row_change.specs.Opening.{ActsBy};
ghost use Rattle.row_change.specs.Standing.{AreAtHome, told_stand};

use crate::opening::Opening;
use crate::stand::Stand;
use disk_model::Disk;
use page_set::Page;
use row_block::RowBlock;
use seg_base::{Dba, NoMemory, Sequence, TxnId};
use std::alloc::Global;
use store_core::{Question, Store, StoreFault, ask};
use txn_block::TxnBlock;
use version_read::EndedIn;

fn name_at(block: &RowBlock, i: u8) -> TxnId
    ensures { result ≡ (slice_index_or block.now.block.entries i new_entry).txn }
{
    match block.entry(i) {
        Some((txn, _)) => txn,
        None => TxnId(0),
    }
}

/// Whom the list entries of a block name.
fn names(alloc: Global, block: &RowBlock) -> Result<Sequence<TxnId>, NoMemory>
    ensures { IfOk result (λ txns. txns ≡ map (λ (e : TheEntry). e.txn) block.now.block.entries) }
{
    let mut txns = Sequence::new(alloc);
    for i in 0..block.entries() {
        match txns.push(name_at(block, i)) {
            Ok(()) => {}
            Err(_) => return Err(NoMemory),
        }
    }
    Ok(txns)
}

fn lack_by(
    alloc: Global,
    block: &RowBlock,
    ended: &EndedIn,
    txn: TxnId,
) -> Result<Option<Sequence<TxnId>>, NoMemory>
    ensures { IfOk result (λ x. x ≡ lack_by (entry_for (ended_by ended.now.table.now) block.now.block txn) (map (λ (e : TheEntry). e.txn) block.now.block.entries)) }
{
    match block.entry_for(ended, txn) {
        Some(_) => Ok(None),
        None => match names(alloc, block) {
            Ok(txns) => Ok(Some(txns)),
            Err(_) => Err(NoMemory),
        },
    }
}

/// Asks a row block whether it has a list entry for a transaction: whom its entries name where it has none.
#[derive(Clone, Copy)]
pub struct Lacking<'t> {
    pub table: &'t TxnBlock,
    pub txn: TxnId,
}

fn lack_in(
    alloc: Global,
    page: &Page,
    q: &Lacking,
) -> Result<Option<Option<Sequence<TxnId>>>, NoMemory>
    ensures { IfOk result (λ x. x ≡ lack_in q.now.table.now q.now.txn page.now) }
{
    match page {
        Page::Rows(block) => {
            let ended = EndedIn::of(q.table);
            match lack_by(alloc, block, &ended, q.txn) {
                Ok(lack) => Ok(Some(lack)),
                Err(_) => Err(NoMemory),
            }
        }
        _ => Ok(None),
    }
}

impl<'t> Question for Lacking<'t> {
    ghost use Rattle.row_change.specs.Lacking.{lack_in};

    type Answer = Option<Sequence<TxnId>>;

    ghost reads = { λ q page. lack_in q.table.now q.txn page };

    fn read(
        &self,
        alloc: Global,
        page: &Page,
    ) -> Result<Option<Option<Sequence<TxnId>>>, NoMemory> {
        lack_in(alloc, page, self)
    }
}

/// Whom the list entries of a row block name where it has none for the transaction of a change.
pub fn lack_at<D: Disk>(
    alloc: Global,
    store: &mut Store<D>,
    opening: &Opening,
    dba: Dba,
) -> Result<Option<Sequence<TxnId>>, StoreFault>
    ensures looked { HasLooked D.meaning store.old store.new result }
    ensures says { (R : List Record) (o who : ℕ) (own : Option ℕ) → IsTrue D.meaning R store.old → ActsBy R who own opening.now → IsRowBlock store.old.shape R o dba → IfOk result (λ x. x ≡ lack_of R own dba) }
    ensures sound { (R : List Record) (o who : ℕ) (own : Option ℕ) → IsTrue D.meaning R store.old → ActsBy R who own opening.now → IsRowBlock store.old.shape R o dba → store.old.fault ≡ None → IfErr result IsSoundFault }
{
    let question = Lacking {
        table: &opening.table,
        txn: opening.actor.txn,
    };
    match ask(alloc, store, dba, &question) {
        Ok(lack) => Ok(lack),
        Err(fault) => Err(fault),
    }
}

fn lack_behind<D: Disk>(
    alloc: Global,
    store: &mut Store<D>,
    opening: &Opening,
    first: Option<Sequence<TxnId>>,
    next: Dba,
) -> Result<Option<Sequence<TxnId>>, StoreFault>
    requires { store.old.fault ≡ None }
    ensures looked { HasLooked D.meaning store.old store.new result }
    ensures says { (R : List Record) (o who b : ℕ) (own : Option ℕ) → IsTrue D.meaning R store.old → ActsBy R who own opening.now → first ≡ lack_of R own b → IsRowBlock store.old.shape R o next → IfOk result (λ x. x ≡ names_at R (first_lacking R own (b ∷ next ∷ []))) }
    ensures sound { (R : List Record) (o who : ℕ) (own : Option ℕ) → IsTrue D.meaning R store.old → ActsBy R who own opening.now → IsRowBlock store.old.shape R o next → IfErr result IsSoundFault }
{
    match first {
        Some(txns) => Ok(Some(txns)),
        None => lack_at(alloc, store, opening, next),
    }
}

fn lack_of_both<D: Disk>(
    alloc: Global,
    store: &mut Store<D>,
    opening: &Opening,
    head: Dba,
    body: Dba,
) -> Result<Option<Sequence<TxnId>>, StoreFault>
    ensures looked { HasLooked D.meaning store.old store.new result }
    ensures says { (R : List Record) (o who : ℕ) (own : Option ℕ) → IsTrue D.meaning R store.old → ActsBy R who own opening.now → IsRowBlock store.old.shape R o head → IsRowBlock store.old.shape R o body → IfOk result (λ x. x ≡ names_at R (first_lacking R own (body ∷ head ∷ []))) }
    ensures sound { (R : List Record) (o who : ℕ) (own : Option ℕ) → IsTrue D.meaning R store.old → ActsBy R who own opening.now → IsRowBlock store.old.shape R o head → IsRowBlock store.old.shape R o body → store.old.fault ≡ None → IfErr result IsSoundFault }
{
    match lack_at(alloc, store, opening, body) {
        Ok(lack) => lack_behind(alloc, store, opening, lack, head),
        Err(fault) => Err(fault),
    }
}

/// The same of the first of a row's blocks that has none, its body's before its head's.
pub fn lack_of<D: Disk>(
    alloc: Global,
    store: &mut Store<D>,
    opening: &Opening,
    stand: &Stand,
) -> Result<Option<Sequence<TxnId>>, StoreFault>
    ensures looked { HasLooked D.meaning store.old store.new result }
    ensures says { (R : List Record) (o who : ℕ) (own : Option ℕ) → IsTrue D.meaning R store.old → ActsBy R who own opening.now → AreAtHome store.old.shape R o (told_stand stand.now) → IfOk result (λ x. x ≡ names_at R (first_lacking R own (blocks_at (told_stand stand.now)))) }
    ensures sound { (R : List Record) (o who : ℕ) (own : Option ℕ) → IsTrue D.meaning R store.old → ActsBy R who own opening.now → AreAtHome store.old.shape R o (told_stand stand.now) → store.old.fault ≡ None → IfErr result IsSoundFault }
{
    match stand {
        Stand::Whole(at) => lack_at(alloc, store, opening, at.dba),
        Stand::Apart(head, body) => lack_of_both(alloc, store, opening, head.dba, body.dba),
    }
}
