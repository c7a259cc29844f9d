// A script run over the store of a disk.
ghost use Rattle.std.specs.Prelude.{◌≡◌, ◌↔◌, ◌≤◌, ◌^◌, ℕ, List, None, length, IsErrOf};
ghost use Rattle.seg_words.specs.Types.{Shape as TheShape, Rose};
ghost use Rattle.disk_model.specs.Types.{Causes};
ghost use Rattle.redo_model.specs.Records.{Record};
ghost use Rattle.store_core.specs.declared.fault.StoreFault.TheVariants as faults;
ghost use Rattle.session_step.specs.declared.forms.TheConstants.{BUILT_FORMS};
ghost use Rattle.script_text.specs.Spelled.{IsScript};
ghost use Rattle.assm.specs.Top.{RunTells};
ghost use Rattle.assm.specs.Ends.{Begins, RunsTo, EndsAs, StopsAs, IsRunEnd};

use crate::status::Status;
use disk_model::Disk;
use recovery::{bad_page, recover};
use script_text::{Scripts, parse};
use session_step::BUILT_FORMS;
use session_world::{RunFault, run_scripts};
use std::alloc::Global;
use store_core::{Loaded, Store, StoreFault};
use text_port::Sink;

// The store's loan ends here.
pub fn give_back<D>(_disk: &mut D)
    ensures { _disk.new ≡ _disk.old }
{}

/// Runs scripts over what was read of a disk, over that disk.
fn run_read<D: Disk, K: Sink>(
    alloc: Global,
    disk: &mut D,
    loaded: Loaded<D>,
    scripts: &Scripts,
    sink: &mut K,
) -> Result<(), RunFault>
    requires unspent { loaded.fault ≡ None }
    requires built { IsScript BUILT_FORMS scripts.now }
    ensures ran { (since : ℕ) (data_bytes : List ℕ) (sh : TheShape) (R : List Record) → Begins D.meaning since data_bytes sh R disk.old loaded
        → RunsTo D.meaning since data_bytes disk.new (K.written sink.old) (K.written sink.new) sh R scripts.now result }
    ensures device_fault { Causes D.meaning disk.old disk.new (IsErrOf result (RunFault.Store faults.DeviceFault)) }
    ensures write_fault { IsErrOf result RunFault.WriteFault → Rose (K.fault_count sink.old) (K.fault_count sink.new) }
    ensures told { D.meaning.told disk.new ↔ D.meaning.told disk.old }
{
    let mut store = Store::over(disk, loaded);
    let ran = run_scripts(alloc, &mut store, scripts, sink);
    // What is stable now is in each image of a crash from now on.
    let _moment = store.moment();
    let disk = store.into_disk();
    give_back(disk);
    ran
}

/// The status of a store that failed. A page that isn't what an event needed is told by its first byte, as an opening does.
pub fn status_of_store<D: Disk>(disk: &mut D, fault: StoreFault) -> Status
    ensures stops { StopsAs D.meaning disk.old disk.new fault result }
    ensures later { D.meaning.fault_count disk.old ≤ D.meaning.fault_count disk.new }
    ensures device { result ≡ Status.DeviceFault → (fault ≡ faults.DeviceFault → ⊥) → Rose (D.meaning.fault_count disk.old) (D.meaning.fault_count disk.new) }
    ensures told { D.meaning.told disk.new ↔ D.meaning.told disk.old }
{
    match fault {
        StoreFault::DeviceFault => Status::DeviceFault,
        StoreFault::BadPage { dba } => Status::from(bad_page(disk, dba)),
        StoreFault::NoMemory => Status::NoMemory,
    }
}

/// Runs scripts over what was read of a disk, and says how that ended.
fn run_opened<D: Disk, K: Sink>(
    alloc: Global,
    disk: &mut D,
    loaded: Loaded<D>,
    scripts: &Scripts,
    sink: &mut K,
) -> Status
    requires unspent { loaded.fault ≡ None }
    requires built { IsScript BUILT_FORMS scripts.now }
    ensures ends { (since : ℕ) (data_bytes : List ℕ) (sh : TheShape) (R : List Record) → Begins D.meaning since data_bytes sh R disk.old loaded
        → EndsAs D.meaning since data_bytes disk.new (K.written sink.old) (K.written sink.new) sh R scripts.now result }
    ensures only { IsRunEnd D.meaning disk.new result }
    ensures device_fault { Causes D.meaning disk.old disk.new (result ≡ Status.DeviceFault) }
    ensures write_fault { result ≡ Status.WriteFault → Rose (K.fault_count sink.old) (K.fault_count sink.new) }
    ensures told { D.meaning.told disk.new ↔ D.meaning.told disk.old }
{
    match run_read(alloc, disk, loaded, scripts, sink) {
        Ok(()) => Status::Done,
        Err(RunFault::WriteFault) => Status::WriteFault,
        Err(RunFault::Store(fault)) => status_of_store(disk, fault),
    }
}

/// Runs the text of a script: it is read before the disk is called, and a store is opened before anything is printed.
#[tactic(auto, using(script_text::proofs::Cuts::few_lines))]
pub fn run_text<D: Disk, K: Sink>(alloc: Global, disk: &mut D, text: &[u8], sink: &mut K) -> Status
    requires { length text.now ≤ 2 ^ 24 }
    ensures tells { RunTells D.meaning disk.old disk.new (K.written sink.old) (K.written sink.new) result text.now }
    ensures device_fault { Causes D.meaning disk.old disk.new (result ≡ Status.DeviceFault) }
    ensures write_fault { result ≡ Status.WriteFault → Rose (K.fault_count sink.old) (K.fault_count sink.new) }
{
    let scripts = match parse(alloc, &BUILT_FORMS, text) {
        Ok(scripts) => scripts,
        Err(fault) => return Status::from(fault),
    };
    let loaded = match recover(alloc, disk) {
        Ok(loaded) => loaded,
        Err(fault) => return Status::from(fault),
    };
    run_opened(alloc, disk, loaded, &scripts, sink)
}
