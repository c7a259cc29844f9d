// The script that is made from a number, run and summed up.
ghost use Rattle.std.specs.Prelude.{◌≡◌, ◌↔◌, ◌∷◌, ℕ, List, Ok, None, length, reverse, IfOk, IsErrOf, OnOk};
ghost use Rattle.seg_words.specs.Types.{Shape as TheShape, Rose};
ghost use Rattle.disk_model.specs.Types.{Causes};
ghost use Rattle.redo_model.specs.Records.{Record};
ghost use Rattle.history_model.specs.declared.history.HistoryItem.{HistoryItem as TheItem};
ghost use Rattle.history_model.specs.Types.{entries_of};
ghost use Rattle.script_text.specs.Grammar.{scripts_of};
ghost use Rattle.script_text.specs.Spelled.{IsScript, printed};
ghost use Rattle.script_gen.specs.Generated.{generated};
ghost use Rattle.script_gen.specs.Summed.{totals_of};
ghost use Rattle.store_core.specs.Store.{IsTrue};
ghost use Rattle.store_core.specs.declared.fault.StoreFault.TheVariants as faults;
ghost use Rattle.session_model.specs.Laws.{NoneActive};
ghost use Rattle.session_core.specs.Acting.{KeepsLoan};
ghost use Rattle.session_step.specs.declared.forms.TheConstants.{BUILT_FORMS};
ghost use Rattle.session_world.specs.declared.fault.RunFault.TheVariants as stops;
ghost use Rattle.session_world.specs.Between.{IsFresh};
ghost use Rattle.assm.specs.Ends.{Begins};
ghost use Rattle.assm.specs.Generates.{HasSummed, PrintsSum, SumsHistory, SumsTo, SumTells, of_store};

use crate::run::{give_back, status_of_store};
use crate::status::Status;
use disk_model::Disk;
use history_model::HistoryItem;
use recovery::recover;
use script_gen::{Totals, generate};
use script_text::Scripts;
use seg_base::{NoMemory, Scn};
use session_world::{Run, RunFault, run_in};
use std::alloc::Global;
use store_core::{Loaded, Store, StoreFault};
use text_port::{Quiet, Sink, write_all};

/// What a run comes to: the totals of its entries, and how many commits the store has at its end.
#[derive(Clone, Copy, Debug, PartialEq, Eq, Drop)]
pub struct Sum {
    pub totals: Totals,
    pub commits: Scn,
}

/// The totals with one more item, where that is an entry.
fn with_item(totals: Totals, item: &HistoryItem) -> Result<Totals, NoMemory>
    ensures { IfOk result (λ now. (T : List TheItem) → totals ≡ totals_of (entries_of T) → now ≡ totals_of (entries_of (item.now ∷ T))) }
{
    match item {
        HistoryItem::Told { entry, .. } => totals.with(entry),
        HistoryItem::Started(_) => Ok(totals),
    }
}

/// The totals of the entries of a history, whose items stand from the oldest on.
fn totals_in(items: &[HistoryItem]) -> Result<Totals, NoMemory>
    ensures { IfOk result (λ totals. totals ≡ totals_of (entries_of (reverse items.now))) }
{
    let mut totals = Totals::none();
    for item in items {
        totals = with_item(totals, item)?;
    }
    Ok(totals)
}

/// What a history sums up to, beside so many commits.
fn sum_up(items: &[HistoryItem], commits: Scn) -> Result<Sum, StoreFault>
    ensures { SumsHistory (reverse items.now) commits result }
{
    match totals_in(items) {
        Ok(totals) => Ok(Sum { totals, commits }),
        Err(_) => Err(StoreFault::NoMemory),
    }
}

/// How a run ended whose sink doesn't fail.
fn store_answer(ran: Result<(), RunFault>) -> Result<(), StoreFault>
    requires { IsErrOf ran stops.WriteFault → ⊥ }
    ensures { ran ≡ of_store result }
{
    match ran {
        Ok(()) => Ok(()),
        Err(RunFault::Store(fault)) => Err(fault),
        Err(RunFault::WriteFault) => unreachable!(),
    }
}

/// Runs scripts in a run of which no session has started, and sums it up. Nobody wants the lines.
fn sum_run<D: Disk>(
    alloc: Global,
    store: &mut Store<D>,
    run: &mut Run,
    scripts: &Scripts,
) -> Result<Sum, StoreFault>
    requires unspent { store.old.fault ≡ None }
    requires built { IsScript BUILT_FORMS scripts.now }
    requires fresh { IsFresh (length scripts.now.sessions) run.old }
    ensures ran { (R0 : List Record) → IsTrue D.meaning R0 store.old → NoneActive R0 → HasSummed D.meaning scripts.now R0 store.old store.new result }
    ensures loan { KeepsLoan D.meaning store.old store.new }
    ensures device_fault { IsErrOf result faults.DeviceFault → Rose (D.meaning.fault_count store.old.disk) (D.meaning.fault_count store.new.disk) }
    ensures unspent { OnOk result (store.new.fault ≡ None) }
{
    let ran = run_in(alloc, store, run, scripts, &mut Quiet);
    match store_answer(ran) {
        Ok(()) => sum_up(run.history.as_slice(), store.commits()),
        Err(fault) => Err(fault),
    }
}

/// Runs scripts over a store, and sums the run up.
fn sum_store<D: Disk>(
    alloc: Global,
    store: &mut Store<D>,
    scripts: &Scripts,
) -> Result<Sum, StoreFault>
    requires unspent { store.old.fault ≡ None }
    requires built { IsScript BUILT_FORMS scripts.now }
    ensures ran { (R0 : List Record) → IsTrue D.meaning R0 store.old → NoneActive R0 → HasSummed D.meaning scripts.now R0 store.old store.new result }
    ensures loan { KeepsLoan D.meaning store.old store.new }
    ensures device_fault { IsErrOf result faults.DeviceFault → Rose (D.meaning.fault_count store.old.disk) (D.meaning.fault_count store.new.disk) }
    ensures unspent { OnOk result (store.new.fault ≡ None) }
{
    match Run::new(alloc, scripts.sessions().len()) {
        Err(_) => Err(StoreFault::NoMemory),
        Ok(run) => {
            let mut run = run;
            sum_run(alloc, store, &mut run, scripts)
        }
    }
}

/// Runs scripts over what was read of a disk, over that disk, and sums the run up.
fn sum_read<D: Disk>(
    alloc: Global,
    disk: &mut D,
    loaded: Loaded<D>,
    scripts: &Scripts,
) -> Result<Sum, StoreFault>
    requires unspent { loaded.fault ≡ None }
    requires built { IsScript BUILT_FORMS scripts.now }
    ensures summed { (since : ℕ) (data_bytes : List ℕ) (sh : TheShape) (R : List Record) → Begins D.meaning since data_bytes sh R disk.old loaded
        → SumsTo D.meaning since data_bytes disk.new sh R scripts.now result }
    ensures device_fault { Causes D.meaning disk.old disk.new (IsErrOf result faults.DeviceFault) }
    ensures told { D.meaning.told disk.new ↔ D.meaning.told disk.old }
{
    let mut store = Store::over(disk, loaded);
    let summed = sum_store(alloc, &mut store, scripts);
    // What is stable now is in each image of a crash from now on.
    let _moment = store.moment();
    let disk = store.into_disk();
    give_back(disk);
    summed
}

/// Prints the line that sums a run up.
fn print_sum<K: Sink>(alloc: Global, sum: Sum, sink: &mut K) -> Status
    ensures prints { PrintsSum (K.written sink.old) (K.written sink.new) sum result }
    ensures write_fault { result ≡ Status.WriteFault → Rose (K.fault_count sink.old) (K.fault_count sink.new) }
{
    let Ok(text) = sum.totals.line(alloc, sum.commits) else {
        return Status::NoMemory;
    };
    match write_all(sink, &text) {
        Ok(()) => Status::Done,
        Err(_) => Status::WriteFault,
    }
}

/// Runs scripts over the store of a disk, and prints the line that sums the run up in place of its entries.
fn run_summed<D: Disk, K: Sink>(
    alloc: Global,
    disk: &mut D,
    scripts: &Scripts,
    sink: &mut K,
) -> Status
    requires { IsScript BUILT_FORMS scripts.now }
    ensures tells { (text : List ℕ) → scripts_of BUILT_FORMS text ≡ Ok scripts.now → SumTells D.meaning disk.old disk.new (K.written sink.old) (K.written sink.new) result text }
    ensures device_fault { Causes D.meaning disk.old disk.new (result ≡ Status.DeviceFault) }
    ensures write_fault { result ≡ Status.WriteFault → Rose (K.fault_count sink.old) (K.fault_count sink.new) }
{
    let loaded = match recover(alloc, disk) {
        Ok(loaded) => loaded,
        Err(fault) => return Status::from(fault),
    };
    match sum_read(alloc, disk, loaded, scripts) {
        Ok(sum) => print_sum(alloc, sum, sink),
        Err(fault) => status_of_store(disk, fault),
    }
}

/// `gen`: runs the script that is made from a number, and sums it up.
pub fn run_generated<D: Disk, K: Sink>(
    alloc: Global,
    disk: &mut D,
    number: u32,
    rows: u16,
    sink: &mut K,
) -> Status
    ensures tells { SumTells D.meaning disk.old disk.new (K.written sink.old) (K.written sink.new) result (printed (generated number rows)) }
    ensures device_fault { Causes D.meaning disk.old disk.new (result ≡ Status.DeviceFault) }
    ensures write_fault { result ≡ Status.WriteFault → Rose (K.fault_count sink.old) (K.fault_count sink.new) }
{
    match generate(alloc, number, rows) {
        Ok(scripts) => run_summed(alloc, disk, &scripts, sink),
        Err(_) => Status::NoMemory,
    }
}
