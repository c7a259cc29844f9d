// The events of an update or a delete on its row.
ghost use Rattle.std.specs.Prelude.{◌≡◌, ℕ, ◌+◌, ◌<◌, ◌++◌, ◌∷◌, [], List, None, Some, IfOk};
ghost use Rattle.script_text.specs.declared.statement.Statement.{Statement as TheStatement};
ghost use Rattle.script_text.specs.declared.statement.Statement.TheVariants as asked;
ghost use Rattle.script_text.specs.declared.statement.Target.{Target as TheTarget};
ghost use Rattle.history_model.specs.Spans.{Span};
ghost use Rattle.history_laws.specs.Acting.{begun_row};
ghost use Rattle.session_core.specs.Acting.{HasActed, HasCalled, IsAt, IsStarting};
ghost use Rattle.session_core.specs.Changes.{HasPassedTests, IsAbout, IsChanging, IsNotChanged, IsUnboundAs, StartsAgain, TellsDelete, deleted, told_place};
ghost use Rattle.session_core.specs.Blocks.{HasNoted};
ghost use Rattle.session_core.specs.Leaving.{no_blocks};
ghost use Rattle.session_core.specs.Located.{KeepsPlace};
ghost use Rattle.session_core.specs.RowWorks.{starts_of, work_of};
ghost use Rattle.history_model.specs.declared.limit.TheConstants.{MOST_STARTS};
ghost use Rattle.session_core.specs.Inserts.{IsBy};

use crate::changed::{Changed, note_made};
use crate::inserting::test_named;
use crate::leaving::home_blocks;
use crate::naming::{find_named, is_log_full};
use crate::session::{Doing, RowWork, Starts};
use crate::turned::{Acted, Turned, over, refused};
use disk_model::Disk;
use history_model::MOST_STARTS;
use history_text::{Outcome, Refusal};
use row_change::{ChangeFault, Done, Place, delete, locate};
use script_text::Target;
use seg_base::{Name, NoMemory, Obj, RowNo, Scn, Sequence, TxnId};
use std::alloc::Global;
use store_core::{Store, StoreFault};

/// The row's place is noted, or the row isn't there.
fn told_place(found: Option<Place>, work: &RowWork, own: &Option<TxnId>) -> Acted
    ensures { result ≡ told_place found work.now own.now }
{
    match found {
        Some(place) => Acted {
            turned: Turned::On(Doing::OnRow(RowWork {
                obj: work.obj,
                row: work.row,
                starts: work.starts,
                place: Some(place),
            })),
            own: *own,
        },
        None => refused(Refusal::NoRow { row: work.row }, *own),
    }
}

/// An update or a delete looks for its row, at its start or once more.
pub fn locate_row<D: Disk>(
    alloc: Global,
    store: &mut Store<D>,
    own: Option<TxnId>,
    work: &RowWork,
) -> Result<Acted, StoreFault>
    requires unspent { store.old.fault ≡ None }
    ensures acted { (x : Span) (st : TheStatement) → IsAt D.meaning x own store.old → IsChanging store.old.shape x st (work_of work.now) → HasActed D.meaning x (Some st) store.old store.new result }
    ensures called { HasCalled D.meaning store.old store.new result }
{
    match locate(alloc, store, work.obj, work.row, own) {
        Ok(found) => Ok(told_place(found, work, &own)),
        Err(fault) => Err(fault),
    }
}

/// One more start.
fn with_start(starts: &Starts, commits: Scn) -> Starts
    requires { starts.now.count + 1 < MOST_STARTS }
    ensures { starts_of result ≡ starts_of starts.now ++ commits ∷ [] }
{
    let mut all = starts.commits;
    let count = starts.count;
    all[usize::from(count)] = commits;
    Starts {
        commits: all,
        count: count + 1,
    }
}

/// The starts so far, and one more.
fn all_starts(alloc: Global, starts: &Starts, commits: Scn) -> Result<Sequence<Scn>, NoMemory>
    ensures { IfOk result (λ all. all ≡ starts_of starts.now ++ commits ∷ []) }
{
    let count = usize::from(starts.count).min(MOST_STARTS);
    let mut all = Vec::from_slice(alloc, &starts.commits[..count])?;
    all.push(commits)?;
    Ok(Sequence::from_vec(all))
}

/// The start is noted and another one begins, or it was the last one that may be.
fn start_again(
    alloc: Global,
    commits: Scn,
    work: &RowWork,
    own: &Option<TxnId>,
) -> Result<Acted, StoreFault>
    ensures { StartsAgain commits work.now own.now result }
{
    if usize::from(work.starts.count) + 1 < MOST_STARTS {
        let starts = with_start(&work.starts, commits);
        return Ok(Acted {
            turned: Turned::On(Doing::OnRow(RowWork {
                obj: work.obj,
                row: work.row,
                starts,
                place: None,
            })),
            own: *own,
        });
    }
    match all_starts(alloc, &work.starts, commits) {
        Ok(commits) => Ok(refused(Refusal::Again { commits }, *own)),
        Err(_) => Err(StoreFault::NoMemory),
    }
}

/// Why the row isn't changed: the statement starts again, or is refused.
pub fn not_changed(
    alloc: Global,
    fault: ChangeFault,
    work: &RowWork,
    own: &Option<TxnId>,
) -> Result<Acted, StoreFault>
    ensures { IsNotChanged fault work.now own.now result }
{
    match fault {
        ChangeFault::Busy { txn } => Ok(refused(Refusal::Busy { txn }, *own)),
        ChangeFault::Changed { commits } => start_again(alloc, commits, work, own),
        ChangeFault::NoSlot { txns } => Ok(refused(Refusal::NoSlot { txns }, *own)),
        ChangeFault::NeedsBlock { len } => Ok(refused(Refusal::NeedsBlock { len }, *own)),
        ChangeFault::UndoFull { holders } => { Ok(refused(Refusal::UndoFull { holders }, *own)) }
        ChangeFault::Store(fault) => Err(fault),
    }
}

fn deleted(done: &Done) -> Acted
    ensures { result ≡ deleted done.now }
{
    let row = done.row;
    let txn = done.txn;
    over(Outcome::Deleted { row }, Some(txn))
}

fn told_delete(
    alloc: Global,
    made: Result<Done, ChangeFault>,
    work: &RowWork,
    own: &Option<TxnId>,
) -> Result<Acted, StoreFault>
    ensures { TellsDelete made work.now own.now result }
{
    match made {
        Ok(done) => Ok(deleted(&done)),
        Err(fault) => not_changed(alloc, fault, work, own),
    }
}

/// A delete at the place of its row: the row is deleted, the delete is refused, or it starts again where the row has changed.
pub fn delete_row<D: Disk>(
    alloc: Global,
    store: &mut Store<D>,
    who: u8,
    own: Option<TxnId>,
    work: &RowWork,
    place: &Place,
    changed: &mut Changed,
) -> Result<Acted, StoreFault>
    requires unspent { store.old.fault ≡ None }
    ensures acted { (x : Span) (name : List ℕ) (target : TheTarget) → IsAt D.meaning x own store.old → IsBy x who → IsChanging store.old.shape x (asked.Delete name target) (work_of work.now) → work.now.place ≡ Some place.now → HasActed D.meaning x (Some (asked.Delete name target)) store.old store.new result }
    ensures noted { (x : Span) (name : List ℕ) (target : TheTarget) → IsAt D.meaning x own store.old → IsBy x who → IsChanging store.old.shape x (asked.Delete name target) (work_of work.now) → work.now.place ≡ Some place.now → KeepsPlace store.old.shape x.ended own work.now → changed.old ≡ no_blocks → HasNoted D.meaning x.ended store.new changed.new }
    ensures called { HasCalled D.meaning store.old store.new result }
{
    let made = delete(alloc, store, who, own, work.obj, place);
    note_made(&made, home_blocks(place).in_table(work.obj), changed);
    told_delete(alloc, made, work, &own)
}

/// No accepted insert bound the label.
fn unbound(alloc: Global, target: &Target, own: &Option<TxnId>) -> Result<Acted, StoreFault>
    ensures { IsUnboundAs target.now own.now result }
{
    match target {
        Target::Label(label) => match label.duplicate(alloc) {
            Ok(label) => Ok(refused(Refusal::Unbound { label }, *own)),
            Err(_) => Err(StoreFault::NoMemory),
        },
        Target::Number(row) => Ok(refused(Refusal::NoRow { row: *row }, *own)),
    }
}

/// A start of no earlier one.
fn begun_work(obj: Obj, row: RowNo) -> RowWork
    ensures { work_of result ≡ begun_row obj row }
{
    RowWork {
        obj,
        row,
        starts: Starts {
            commits: [Scn(0); MOST_STARTS],
            count: 0,
        },
        place: None,
    }
}

/// The first event of an update or a delete past its tests but for that of its label.
fn look_first<D: Disk>(
    alloc: Global,
    store: &mut Store<D>,
    own: Option<TxnId>,
    obj: Obj,
    target: &Target,
    bound: Option<RowNo>,
) -> Result<Acted, StoreFault>
    requires unspent { store.old.fault ≡ None }
    ensures acted { (x : Span) (st : TheStatement) (name : List ℕ) → IsAt D.meaning x own store.old → IsStarting x → IsAbout x st name target.now bound → HasPassedTests x st name obj → HasActed D.meaning x (Some st) store.old store.new result }
    ensures called { HasCalled D.meaning store.old store.new result }
{
    match bound {
        Some(row) => {
            let work = begun_work(obj, row);
            locate_row(alloc, store, own, &work)
        }
        None => unbound(alloc, target, &own),
    }
}

/// The first event of an update or a delete: past its tests it looks for its row. `bound` is the row that the target is, none
/// where it is a label that no accepted insert bound.
pub fn start_on_row<D: Disk>(
    alloc: Global,
    store: &mut Store<D>,
    own: Option<TxnId>,
    name: &Name,
    target: &Target,
    bound: Option<RowNo>,
) -> Result<Acted, StoreFault>
    requires unspent { store.old.fault ≡ None }
    ensures acted { (x : Span) (st : TheStatement) → IsAt D.meaning x own store.old → IsStarting x → IsAbout x st name.now target.now bound → HasActed D.meaning x (Some st) store.old store.new result }
    ensures called { HasCalled D.meaning store.old store.new result }
{
    let named = match find_named(alloc, store, name) {
        Ok(named) => named,
        Err(fault) => return Err(fault),
    };
    let full = is_log_full(store);
    match test_named(named.obj, full) {
        Ok(obj) => look_first(alloc, store, own, obj, target, bound),
        Err(refusal) => Ok(refused(refusal, own)),
    }
}
