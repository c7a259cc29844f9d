// A store of a disk.
ghost use Rattle.std.specs.Prelude.{◌≡◌, ◌≤◌, ◌<◌, ◌^◌, [], ℕ, List, None, reverse, length, IfOk, IfErr, IsErrOf, OnOk, true, false};
ghost use Rattle.std.specs.Borrow.{GName};
ghost use Rattle.seg_words.specs.Types.{Shape as TheShape, is_shape};
ghost use Rattle.disk_model.specs.Crash.{Causes, Untouched};
ghost use Rattle.disk_model.specs.Only.{IsSettled};
ghost use Rattle.disk_model.specs.declared.disk.File.TheVariants.{Log};
ghost use Rattle.log_frame.specs.Head.{is_formatted};
ghost use Rattle.log_frame.specs.Spelling.{IsLog};
ghost use Rattle.store_files.specs.Store.{IsDurable};
ghost use Rattle.redo_model.specs.Records.{Record};
ghost use Rattle.redo_model.specs.Model.{commit_count, IsLawful};
ghost use Rattle.redo_log.specs.Kept.{Holds};
ghost use Rattle.redo_log.specs.Lasting.{IsOpened};
ghost use Rattle.page_map.specs.Pages.{HasPages};
ghost use Rattle.page_map.specs.Fitting.{AreAllFit};
ghost use Rattle.redo_log.specs.Found.{WalkEnds};
ghost use Rattle.page_map.specs.declared.fault.PageFault.TheVariants as pages_fault;
ghost use Rattle.store_core.specs.Store.{HasList, IsTrue, with_disk};
ghost use Rattle.store_core.specs.Survives.{HasLog, IsSound, Survives};
ghost use Rattle.store_core.specs.Causes.{IsSoundOpen, IsSoundFrame, IsSoundLog, AnswersSoundly};
ghost use Rattle.store_core.specs.Preparing.{head_refusal, log_refusal, pages_refusal, HeadSays, IsRefused, IsPrepared, IsHeadRead, IsLogRead, AreRead};
ghost use Rattle.store_core.specs.declared.fault.StoreOpen.TheVariants as opens;

use crate::commits::commits_after;
use crate::{Loaded, Store, StoreOpen};
use disk_model::Disk;
use log_frame::{FrameFault, read_shape};
use page_map::{PageFault, Pages};
use redo_log::{LogFault, RedoLog, open};
use redo_record::Record;
use seg_base::{Dba, FIRST_GATE, Lsn, Scn, Shape};
use std::alloc::Global;
use std::snapshot::Snapshot;

fn of_frame(fault: FrameFault) -> StoreOpen
    ensures same { result ≡ head_refusal fault }
    ensures device { result ≡ opens.DeviceFault → fault ≡ FrameFault.DeviceFault }
    ensures not_open { result ≡ opens.NotOpen → fault ≡ FrameFault.NotOpen }
    ensures sound { IsSoundFrame fault → IsSoundOpen result }
{
    match fault {
        FrameFault::DeviceFault => StoreOpen::DeviceFault,
        FrameFault::NotOpen => StoreOpen::NotOpen,
        FrameFault::BadFrame { offset, seen } => StoreOpen::BadLog { offset, seen },
        FrameFault::NoMemory => StoreOpen::NoMemory,
    }
}

fn of_log(fault: LogFault) -> StoreOpen
    ensures same { result ≡ log_refusal fault }
    ensures device { result ≡ opens.DeviceFault → fault ≡ LogFault.DeviceFault }
    ensures not_open { result ≡ opens.NotOpen → fault ≡ LogFault.NotOpen }
    ensures sound { IsSoundLog fault → IsSoundOpen result }
{
    match fault {
        LogFault::DeviceFault => StoreOpen::DeviceFault,
        LogFault::NotOpen => StoreOpen::NotOpen,
        LogFault::BadLog { offset, seen } => StoreOpen::BadLog { offset, seen },
        LogFault::NoMemory => StoreOpen::NoMemory,
    }
}

fn of_pages(fault: PageFault) -> StoreOpen
    ensures same { result ≡ pages_refusal fault }
    ensures memory { fault ≡ pages_fault.NoMemory → result ≡ opens.NoMemory }
    ensures device { result ≡ opens.DeviceFault → ⊥ }
    ensures not_open { result ≡ opens.NotOpen → ⊥ }
{
    match fault {
        PageFault::BadPage { block } => StoreOpen::BadPage { dba: Dba(block) },
        PageFault::NoMemory => StoreOpen::NoMemory,
    }
}

// What the head of the log says.
fn shape_of<D: Disk>(disk: &mut D) -> Result<Shape, StoreOpen>
    ensures found { D.meaning.told disk.old → IsHeadRead (D.meaning.files disk.old).log_bytes result }
    ensures whole { (sh : TheShape) (groups : List (List ℕ)) → D.meaning.told disk.old → IsLog sh groups (D.meaning.files disk.old).log_bytes → AnswersSoundly result (λ shape. shape ≡ sh) }
    ensures not_open { D.meaning.told disk.old → IsErrOf result opens.NotOpen → is_formatted (D.meaning.files disk.old).log_bytes ≡ false }
    ensures cause { Causes D.meaning disk.old disk.new (IsErrOf result opens.DeviceFault) }
    ensures untouched { Untouched D.meaning disk.old disk.new }
{
    match read_shape(disk) {
        Ok(shape) => Ok(shape),
        Err(fault) => Err(of_frame(fault)),
    }
}

// The log from its first gate on.
fn log_of<D: Disk>(alloc: Global, disk: &mut D) -> Result<RedoLog, StoreOpen>
    ensures found { (file : List ℕ) (sh : TheShape) → D.meaning.told disk.old → (D.meaning.files disk.old).log_bytes ≡ file → HeadSays file sh → IsLogRead file result }
    ensures whole { (sh : TheShape) (groups : List (List ℕ)) (R : List Record) → IsSettled D.meaning disk.old Log → IsLog sh groups (D.meaning.files disk.old).log_bytes → Holds groups [] R
        → AnswersSoundly result (IsOpened D.meaning disk.new sh groups groups [] R) }
    ensures room { IfOk result (λ log. 18 ≤ log.waiting.room) }
    ensures not_open { D.meaning.told disk.old → IsErrOf result opens.NotOpen → is_formatted (D.meaning.files disk.old).log_bytes ≡ false }
    ensures cause { Causes D.meaning disk.old disk.new (IsErrOf result opens.DeviceFault) }
    ensures untouched { Untouched D.meaning disk.old disk.new }
{
    match open(alloc, disk, FIRST_GATE, Lsn(0)) {
        Ok(log) => Ok(log),
        Err(fault) => Err(of_log(fault)),
    }
}

// All records of the log.
fn records_of<D: Disk>(alloc: Global, disk: &mut D, log: &RedoLog) -> Result<Vec<Record>, StoreOpen>
    ensures found { (file : List ℕ) (sh : TheShape) → D.meaning.told disk.old → (D.meaning.files disk.old).log_bytes ≡ file → HeadSays file sh → AreRead file result }
    ensures whole { (sh : TheShape) (groups : List (List ℕ)) (R : List Record) → D.meaning.told disk.old → IsLog sh groups (D.meaning.files disk.old).log_bytes → Holds groups [] R
        → AnswersSoundly result (λ records. reverse records.items ≡ R) }
    ensures few { IfOk result (λ records. length records.items < 2 ^ 64) }
    ensures not_open { D.meaning.told disk.old → IsErrOf result opens.NotOpen → ⊥ }
    ensures cause { Causes D.meaning disk.old disk.new (IsErrOf result opens.DeviceFault) }
    ensures untouched { Untouched D.meaning disk.old disk.new }
{
    match log.read_from(alloc, disk, FIRST_GATE) {
        Ok(records) => {
            let _count = records.len();
            Ok(records)
        }
        Err(fault) => Err(of_log(fault)),
    }
}

// The pages that some records make.
fn pages_of(alloc: Global, shape: &Shape, records: &[Record]) -> Result<Pages, StoreOpen>
    ensures pages { IfOk result (HasPages shape.now (reverse records.now)) }
    ensures fits { OnOk result (AreAllFit shape.now (reverse records.now)) }
    ensures why { (file : List ℕ) (at : ℕ) → HeadSays file shape.now → WalkEnds file FIRST_GATE at [] (reverse records.now) → IfErr result (IsRefused file) }
    ensures lawful { is_shape shape.now ≡ true → IsLawful shape.now (reverse records.now) → IfErr result (λ e. e ≡ opens.NoMemory) }
    ensures device { IsErrOf result opens.DeviceFault → ⊥ }
    ensures not_open { IsErrOf result opens.NotOpen → ⊥ }
{
    match Pages::after(alloc, shape, records) {
        Ok(pages) => Ok(pages),
        Err(fault) => Err(of_pages(fault)),
    }
}

// How many of the records are commits.
#[tactic(auto, using(crate::proofs::Counting::none_counted, crate::proofs::Counting::one_counted, crate::proofs::Counting::all_counted))]
fn count_commits(records: &[Record]) -> Scn
    ensures { result ≡ commit_count (reverse records.now) }
{
    let mut commits = Scn(0);
    for (_i, rec) in records.iter().enumerate() {
        commits = commits_after(commits, rec);
    }
    commits
}

/// Reads all of the log, and makes the pages that its records make, one record after the other. `NotOpen` comes exactly where
/// the log isn't formatted, `BadLog` for the first byte of the log that is wrong, and `BadPage` where a record doesn't fit on
/// the page of a block that it touches: at `Ok` each record of the log fits on each page that it touches. No file is changed.
pub fn prepare<D: Disk>(alloc: Global, disk: &mut D) -> Result<Loaded<D>, StoreOpen>
    ensures prepared { D.meaning.told disk.old → IsPrepared (D.meaning.files disk.old).log_bytes result }
    ensures list { (sh : TheShape) (R : List Record) → IsSettled D.meaning disk.old Log → HasLog sh R (D.meaning.files disk.old).log_bytes
        → IfOk result (λ loaded. (loan : GName) → HasList D.meaning R (with_disk disk.new loan loaded)) }
    ensures lawful { (sh : TheShape) (R : List Record) → IsSettled D.meaning disk.old Log → HasLog sh R (D.meaning.files disk.old).log_bytes → IsLawful sh R
        → IfOk result (λ loaded. (loan : GName) → IsTrue D.meaning R (with_disk disk.new loan loaded)) }
    ensures sound { (sh : TheShape) (R : List Record) → IsSettled D.meaning disk.old Log → HasLog sh R (D.meaning.files disk.old).log_bytes → IsLawful sh R → IfErr result IsSoundOpen }
    ensures survives { (sh : TheShape) (R : List Record) → IsDurable D.meaning disk.old → IsSound sh R (D.meaning.files disk.old)
        → IfOk result (λ loaded. (loan : GName) → Survives D.meaning (D.meaning.clock disk.old) (λ _. length R) R (with_disk disk.new loan loaded)) }
    ensures not_open { D.meaning.told disk.old → IsErrOf result opens.NotOpen → is_formatted (D.meaning.files disk.old).log_bytes ≡ false }
    ensures first { IfOk result (λ loaded. loaded.first ≡ disk.old) }
    ensures unspent { IfOk result (λ loaded. loaded.fault ≡ None) }
    ensures cause { Causes D.meaning disk.old disk.new (IsErrOf result opens.DeviceFault) }
    ensures untouched { Untouched D.meaning disk.old disk.new }
{
    let first = Snapshot::of(&*disk);
    let shape = match shape_of(disk) {
        Ok(shape) => shape,
        Err(fault) => return Err(fault),
    };
    let log = match log_of(alloc, disk) {
        Ok(log) => log,
        Err(fault) => return Err(fault),
    };
    let records = match records_of(alloc, disk, &log) {
        Ok(records) => records,
        Err(fault) => return Err(fault),
    };
    let pages = match pages_of(alloc, &shape, &records) {
        Ok(pages) => pages,
        Err(fault) => return Err(fault),
    };
    let commits = count_commits(&records);
    Ok(Loaded {
        first,
        alloc,
        shape,
        log,
        pages,
        commits,
        fault: None,
    })
}

/// The store of a disk, whose redo list is that of the log. Of the disk after an `Err` it says nothing: use `prepare` and
/// `Store::over` where that counts.
pub fn replay<'a, D: Disk>(alloc: Global, disk: &'a mut D) -> Result<Store<'a, D>, StoreOpen>
    ensures refused { D.meaning.told disk.old → IfErr result (IsRefused (D.meaning.files disk.old).log_bytes) }
    ensures list { (sh : TheShape) (R : List Record) → IsSettled D.meaning disk.old Log → HasLog sh R (D.meaning.files disk.old).log_bytes
        → IfOk result (HasList D.meaning R) }
    ensures lawful { (sh : TheShape) (R : List Record) → IsSettled D.meaning disk.old Log → HasLog sh R (D.meaning.files disk.old).log_bytes → IsLawful sh R
        → IfOk result (IsTrue D.meaning R) }
    ensures sound { (sh : TheShape) (R : List Record) → IsSettled D.meaning disk.old Log → HasLog sh R (D.meaning.files disk.old).log_bytes → IsLawful sh R → IfErr result IsSoundOpen }
    ensures survives { (sh : TheShape) (R : List Record) → IsDurable D.meaning disk.old → IsSound sh R (D.meaning.files disk.old)
        → IfOk result (Survives D.meaning (D.meaning.clock disk.old) (λ _. length R) R) }
    ensures not_open { D.meaning.told disk.old → IsErrOf result opens.NotOpen → is_formatted (D.meaning.files disk.old).log_bytes ≡ false }
    ensures first { IfOk result (λ store. store.first ≡ disk.old) }
    ensures loan { IfOk result (λ store. store.loan ≡ disk.entry.ghost_name) }
    ensures unspent { IfOk result (λ store. store.fault ≡ None) }
    ensures untouched { IfOk result (λ store. Untouched D.meaning disk.old store.disk) }
{
    let loaded = prepare(alloc, disk)?;
    Ok(Store::over(disk, loaded))
}
