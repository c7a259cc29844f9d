// What is counted of a store.
ghost use Rattle.std.specs.Prelude.{◌≡◌, ◌↔◌, ◌≤◌, ◌+◌, ◌*◌, ◌++◌, ℕ, List, None, IfOk, IfErr, IsErrOf, codes, decimal};
ghost use Rattle.seg_words.specs.Types.{Shape as TheShape, Rose};
ghost use Rattle.disk_model.specs.Types.{Causes};
ghost use Rattle.redo_model.specs.Records.{Record};
ghost use Rattle.redo_model.specs.Model.{table_count};
ghost use Rattle.store_core.specs.Causes.{HasLooked, IsSoundFault};
ghost use Rattle.store_core.specs.Store.{IsTrue};
ghost use Rattle.store_core.specs.declared.fault.StoreFault.TheVariants as faults;
ghost use Rattle.assm.specs.Ends.{Begins};
ghost use Rattle.assm.specs.Checks.{AreCounts, CheckTells, CountsTo, PrintsCounts, counts_text, inexact_to};

use crate::run::{give_back, status_of_store};
use crate::status::Status;
use disk_model::Disk;
use recovery::recover;
use seg_base::{NoMemory, Obj};
use space_usage::inexact;
use std::alloc::Global;
use store_core::{Loaded, Store, StoreFault};
use store_read::count_tables;
use text_port::{Sink, put, put_number, write_all};

/// How many records, commits and tables a store has, and how many formatted blocks under their high marks keep another class than
/// theirs.
#[derive(Clone, Copy, Debug, PartialEq, Eq, Drop)]
pub struct Counts {
    pub records: u64,
    pub commits: u64,
    pub tables: u8,
    pub inexact: u64,
}

/// The sum with one table more.
fn with_more(count: u64, more: u32, tables: u8) -> u64
    requires small { count ≤ tables * 4294967295 }
    ensures value { result ≡ count + more }
    ensures small { result ≤ (tables + 1) * 4294967295 }
{
    count + u64::from(more)
}

/// The inexact blocks of the first tables.
fn count_inexact<D: Disk>(
    alloc: Global,
    store: &mut Store<D>,
    tables: u8,
) -> Result<u64, StoreFault>
    requires unspent { store.old.fault ≡ None }
    ensures looked { HasLooked D.meaning store.old store.new result }
    ensures says { (R : List Record) → IsTrue D.meaning R store.old → tables ≡ table_count R → IfOk result (λ n. n ≡ inexact_to store.old.shape R tables) }
    ensures sound { (R : List Record) → IsTrue D.meaning R store.old → tables ≡ table_count R → IfErr result IsSoundFault }
{
    let mut count = 0;
    for table in 0..tables {
        let more = match inexact(alloc, store, Obj(table + 1)) {
            Ok(more) => more,
            Err(fault) => return Err(fault),
        };
        count = with_more(count, more, table);
    }
    Ok(count)
}

/// What is counted of a store.
fn count_store<D: Disk>(alloc: Global, store: &mut Store<D>) -> Result<Counts, StoreFault>
    requires unspent { store.old.fault ≡ None }
    ensures looked { HasLooked D.meaning store.old store.new result }
    ensures says { (R : List Record) → IsTrue D.meaning R store.old → IfOk result (AreCounts store.old.shape R) }
    ensures sound { (R : List Record) → IsTrue D.meaning R store.old → IfErr result IsSoundFault }
{
    let records = store.log_len();
    let commits = store.commits();
    let tables = match count_tables(store) {
        Ok(tables) => tables,
        Err(fault) => return Err(fault),
    };
    match count_inexact(alloc, store, tables) {
        Ok(inexact) => Ok(Counts {
            records,
            commits: commits.0,
            tables,
            inexact,
        }),
        Err(fault) => Err(fault),
    }
}

/// What is counted of the store that was read of a disk.
fn count_read<D: Disk>(alloc: Global, disk: &mut D, loaded: Loaded<D>) -> Result<Counts, StoreFault>
    requires unspent { loaded.fault ≡ None }
    ensures counted { (since : ℕ) (data_bytes : List ℕ) (sh : TheShape) (R : List Record) → Begins D.meaning since data_bytes sh R disk.old loaded → CountsTo D.meaning since data_bytes disk.new sh R result }
    ensures device_fault { Causes D.meaning disk.old disk.new (IsErrOf result faults.DeviceFault) }
    ensures told { D.meaning.told disk.new ↔ D.meaning.told disk.old }
{
    let mut store = Store::over(disk, loaded);
    let counted = count_store(alloc, &mut store);
    let disk = store.into_disk();
    give_back(disk);
    counted
}

/// The line of what was counted.
fn counts_line(alloc: Global, counts: &Counts) -> Result<Vec<u8>, NoMemory>
    ensures { IfOk result (λ text. text.items ≡ counts_text counts.now) }
{
    let mut out = Vec::new(alloc);
    put(&mut out, b"records ")?;
    put_number(&mut out, counts.records)?;
    put(&mut out, b" commits ")?;
    put_number(&mut out, counts.commits)?;
    put(&mut out, b" tables ")?;
    put_number(&mut out, u64::from(counts.tables))?;
    put(&mut out, b" inexact ")?;
    put_number(&mut out, counts.inexact)?;
    put(&mut out, b"\n")?;
    Ok(out)
}

/// Prints what was counted.
fn print_counts<K: Sink>(alloc: Global, counts: &Counts, sink: &mut K) -> Status
    ensures prints { PrintsCounts (K.written sink.old) (K.written sink.new) counts.now result }
    ensures write_fault { result ≡ Status.WriteFault → Rose (K.fault_count sink.old) (K.fault_count sink.new) }
{
    let Ok(text) = counts_line(alloc, counts) else {
        return Status::NoMemory;
    };
    match write_all(sink, &text) {
        Ok(()) => Status::Done,
        Err(_) => Status::WriteFault,
    }
}

/// `check`: opens the store, and prints what is counted of it. Only the opening adds records.
pub fn check_store<D: Disk, K: Sink>(alloc: Global, disk: &mut D, sink: &mut K) -> Status
    ensures tells { CheckTells D.meaning disk.old disk.new (K.written sink.old) (K.written sink.new) result }
    ensures device_fault { Causes D.meaning disk.old disk.new (result ≡ Status.DeviceFault) }
    ensures write_fault { result ≡ Status.WriteFault → Rose (K.fault_count sink.old) (K.fault_count sink.new) }
{
    let loaded = match recover(alloc, disk) {
        Ok(loaded) => loaded,
        Err(fault) => return Status::from(fault),
    };
    match count_read(alloc, disk, loaded) {
        Ok(counts) => print_counts(alloc, &counts, sink),
        Err(fault) => status_of_store(disk, fault),
    }
}
