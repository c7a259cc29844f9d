// Statements that end a transaction, and the session's end.
ghost use Rattle.std.specs.Prelude.{◌≡◌, None, Some, IfOk};
ghost use Rattle.script_text.specs.declared.statement.Statement.{Statement as TheStatement};
ghost use Rattle.script_text.specs.declared.statement.Statement.TheVariants as asked;
ghost use Rattle.std.specs.Prelude.{Option};
ghost use Rattle.history_model.specs.Spans.{Span};
ghost use Rattle.history_laws.specs.Acting.{TakesBack};
ghost use Rattle.history_laws.specs.Working.{BackStands};
ghost use Rattle.session_core.specs.Acked.{AcksTurned};
ghost use Rattle.session_core.specs.Acting.{HasActed, HasCalled, IsAt, IsStarting};
ghost use Rattle.session_core.specs.Blocks.{HasNoted};
ghost use Rattle.session_core.specs.Leaving.{no_blocks};
ghost use Rattle.session_core.specs.Ends.{MayRollBack, NoneLeft};

use crate::changed::Changed;
use crate::session::Doing;
use crate::turned::{Acted, Turned, over};
use disk_model::Disk;
use history_text::Outcome;
use seg_base::TxnId;
use std::alloc::Global;
use store_core::{Store, StoreFault};
use txn_end::{back_step, commit, end_back};

/// Commits a transaction.
fn commit_txn<D: Disk>(store: &mut Store<D>, txn: TxnId) -> Result<Acted, StoreFault>
    requires unspent { store.old.fault ≡ None }
    ensures acted { (x : Span) → IsAt D.meaning x (Some txn) store.old → IsStarting x → HasActed D.meaning x (Some asked.Commit) store.old store.new result }
    ensures acked { (x : Span) → IsAt D.meaning x (Some txn) store.old → IsStarting x → IfOk result (λ a. AcksTurned store.new a.turned) }
    ensures called { HasCalled D.meaning store.old store.new result }
{
    match commit(store, txn) {
        Ok(number) => Ok(over(Outcome::Committed { number }, None)),
        Err(fault) => Err(fault),
    }
}

/// `commit`, of the session's transaction.
pub fn commit_own<D: Disk>(store: &mut Store<D>, own: Option<TxnId>) -> Result<Acted, StoreFault>
    requires unspent { store.old.fault ≡ None }
    ensures acted { (x : Span) → IsAt D.meaning x own store.old → IsStarting x → HasActed D.meaning x (Some asked.Commit) store.old store.new result }
    ensures acked { (x : Span) → IsAt D.meaning x own store.old → IsStarting x → IfOk result (λ a. AcksTurned store.new a.turned) }
    ensures called { HasCalled D.meaning store.old store.new result }
{
    match own {
        Some(txn) => commit_txn(store, txn),
        None => Ok(over(Outcome::NothingToCommit, None)),
    }
}

/// The end of a rollback of which no record is left.
fn end_txn<D: Disk>(alloc: Global, store: &mut Store<D>, txn: TxnId) -> Result<Acted, StoreFault>
    requires unspent { store.old.fault ≡ None }
    ensures acted { (x : Span) (st : Option TheStatement) → TakesBack st → IsAt D.meaning x (Some txn) store.old → BackStands x txn → NoneLeft x.ended txn → HasActed D.meaning x st store.old store.new result }
    ensures noted { (x : Span) → IsAt D.meaning x (Some txn) store.old → NoneLeft x.ended txn → HasNoted D.meaning x.ended store.new no_blocks }
    ensures called { HasCalled D.meaning store.old store.new result }
{
    match end_back(alloc, store, txn) {
        Ok(()) => Ok(over(Outcome::RolledBack, None)),
        Err(fault) => Err(fault),
    }
}

/// One event of taking a transaction back: its newest record is taken back, or it ends.
pub fn take_back<D: Disk>(
    alloc: Global,
    store: &mut Store<D>,
    txn: TxnId,
    changed: &mut Changed,
) -> Result<Acted, StoreFault>
    requires unspent { store.old.fault ≡ None }
    ensures acted { (x : Span) (st : Option TheStatement) → TakesBack st → IsAt D.meaning x (Some txn) store.old → BackStands x txn → HasActed D.meaning x st store.old store.new result }
    ensures noted { (x : Span) → IsAt D.meaning x (Some txn) store.old → changed.old ≡ no_blocks → HasNoted D.meaning x.ended store.new changed.new }
    ensures called { HasCalled D.meaning store.old store.new result }
{
    match back_step(alloc, store, txn) {
        Ok(Some(blocks)) => {
            *changed = Changed::of(blocks.as_slice());
            Ok(Acted {
                turned: Turned::On(Doing::TakingBack(txn)),
                own: Some(txn),
            })
        }
        Ok(None) => end_txn(alloc, store, txn),
        Err(fault) => Err(fault),
    }
}

/// The first event of a `rollback` of the session's transaction, or of the session's end.
pub fn roll_back<D: Disk>(
    alloc: Global,
    store: &mut Store<D>,
    own: Option<TxnId>,
    changed: &mut Changed,
) -> Result<Acted, StoreFault>
    requires unspent { store.old.fault ≡ None }
    ensures acted { (x : Span) (st : Option TheStatement) → MayRollBack st own → IsAt D.meaning x own store.old → IsStarting x → HasActed D.meaning x st store.old store.new result }
    ensures noted { (x : Span) → IsAt D.meaning x own store.old → changed.old ≡ no_blocks → HasNoted D.meaning x.ended store.new changed.new }
    ensures called { HasCalled D.meaning store.old store.new result }
{
    match own {
        Some(txn) => take_back(alloc, store, txn, changed),
        None => Ok(over(Outcome::NothingToRollBack, None)),
    }
}
