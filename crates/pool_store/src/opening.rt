// A store of a disk.
ghost use Rattle.std.specs.Prelude.{◌≡◌, ◌↔◌, ◌≤◌, ◌<◌, ◌^◌, [], ℕ, List, None, reverse, length, IfOk, IfErr, IsErrOf, OnOk, true, false};
ghost use Rattle.std.specs.Borrow.{GName};
ghost use Rattle.seg_words.specs.Types.{Shape as TheShape, is_shape};
ghost use Rattle.disk_model.specs.Crash.{Causes, Leaves, Untouched};
ghost use Rattle.disk_model.specs.Only.{IsSettled};
ghost use Rattle.disk_model.specs.declared.disk.File.TheVariants.{Log};
ghost use Rattle.log_frame.specs.Head.{is_formatted};
ghost use Rattle.log_frame.specs.Spelling.{IsLog};
ghost use Rattle.store_files.specs.Store.{IsDurable};
ghost use Rattle.redo_model.specs.Records.{Record};
ghost use Rattle.redo_model.specs.Model.{commit_count, IsLawful};
ghost use Rattle.redo_log.specs.Kept.{Holds};
ghost use Rattle.redo_log.specs.Lasting.{IsOpened};
ghost use Rattle.redo_log.specs.Found.{WalkEnds};
ghost use Rattle.page_store.specs.Types.{is_sound_area, LeavesLog};
ghost use Rattle.store_pages.specs.Pages.{AreReadable, HasFolds, HasPages, KeepsFiles, LeavesFolds};
ghost use Rattle.store_pages.specs.Redoing.{IsOpenable, StopsAt};
ghost use Rattle.store_pages.specs.Refused.{HasBlocks, IsRefused as IsPageRefused};
ghost use Rattle.pool_store.specs.Store.{HasList, IsTrue, with_disk};
ghost use Rattle.pool_store.specs.Survives.{HasLog, IsLeft, IsSound, Survives};
ghost use Rattle.pool_store.specs.Causes.{IsSoundOpen, IsSoundFrame, IsSoundLog, AnswersSoundly};
ghost use Rattle.pool_store.specs.Preparing.{head_refusal, log_refusal, pages_refusal, HeadSays, IsLogOf, IsRefused, PageStops, IsPrepared, IsHeadRead, IsLogRead, AreRead};
ghost use Rattle.pool_store.specs.declared.fault.StoreOpen.TheVariants as opens;

use crate::commits::commits_after;
use crate::{Loaded, Store, StoreOpen};
use disk_model::Disk;
use log_frame::{FrameFault, read_shape};
use page_store::PageFault;
use redo_log::{LogFault, RedoLog, open};
use redo_record::Record;
use seg_base::{FIRST_GATE, Lsn, Scn, Shape};
use std::alloc::Global;
use std::snapshot::Snapshot;
use store_pages::StorePages;

fn of_frame(fault: FrameFault) -> StoreOpen
    ensures same { result ≡ head_refusal fault }
    ensures device { result ≡ opens.DeviceFault → fault ≡ FrameFault.DeviceFault }
    ensures not_open { result ≡ opens.NotOpen → fault ≡ FrameFault.NotOpen }
    ensures no_page { (dba : ℕ) → result ≡ opens.BadPage dba → ⊥ }
    ensures sound { IsSoundFrame fault → IsSoundOpen result }
{
    match fault {
        FrameFault::DeviceFault => StoreOpen::DeviceFault,
        FrameFault::NotOpen => StoreOpen::NotOpen,
        FrameFault::BadFrame { offset, seen } => StoreOpen::BadLog { offset, seen },
        FrameFault::NoMemory => StoreOpen::NoMemory,
    }
}

fn of_log(fault: LogFault) -> StoreOpen
    ensures same { result ≡ log_refusal fault }
    ensures device { result ≡ opens.DeviceFault → fault ≡ LogFault.DeviceFault }
    ensures not_open { result ≡ opens.NotOpen → fault ≡ LogFault.NotOpen }
    ensures no_page { (dba : ℕ) → result ≡ opens.BadPage dba → ⊥ }
    ensures sound { IsSoundLog fault → IsSoundOpen result }
{
    match fault {
        LogFault::DeviceFault => StoreOpen::DeviceFault,
        LogFault::NotOpen => StoreOpen::NotOpen,
        LogFault::BadLog { offset, seen } => StoreOpen::BadLog { offset, seen },
        LogFault::NoMemory => StoreOpen::NoMemory,
    }
}

fn of_pages(fault: PageFault) -> StoreOpen
    ensures same { result ≡ pages_refusal fault }
    ensures device { result ≡ opens.DeviceFault → fault ≡ PageFault.DeviceFault }
    ensures not_open { result ≡ opens.NotOpen → ⊥ }
    ensures no_log { (offset seen : ℕ) → result ≡ opens.BadLog offset seen → ⊥ }
{
    match fault {
        PageFault::DeviceFault => StoreOpen::DeviceFault,
        PageFault::BadPage { dba } => StoreOpen::BadPage { dba },
        PageFault::NoMemory => StoreOpen::NoMemory,
    }
}

// What the head of the log says.
fn shape_of<D: Disk>(disk: &mut D) -> Result<Shape, StoreOpen>
    ensures found { D.meaning.told disk.old → IsHeadRead (D.meaning.files disk.old).log_bytes result }
    ensures whole { (sh : TheShape) (groups : List (List ℕ)) → D.meaning.told disk.old → IsLog sh groups (D.meaning.files disk.old).log_bytes → AnswersSoundly result (λ shape. shape ≡ sh) }
    ensures not_open { D.meaning.told disk.old → IsErrOf result opens.NotOpen → is_formatted (D.meaning.files disk.old).log_bytes ≡ false }
    ensures no_page { (dba : ℕ) → IsErrOf result (opens.BadPage dba) → ⊥ }
    ensures cause { Causes D.meaning disk.old disk.new (IsErrOf result opens.DeviceFault) }
    ensures untouched { Untouched D.meaning disk.old disk.new }
{
    match read_shape(disk) {
        Ok(shape) => Ok(shape),
        Err(fault) => Err(of_frame(fault)),
    }
}

// The log from its first gate on.
fn log_of<D: Disk>(alloc: Global, disk: &mut D) -> Result<RedoLog, StoreOpen>
    ensures found { (file : List ℕ) (sh : TheShape) → D.meaning.told disk.old → (D.meaning.files disk.old).log_bytes ≡ file → HeadSays file sh → IsLogRead file result }
    ensures whole { (sh : TheShape) (groups : List (List ℕ)) (R : List Record) → IsSettled D.meaning disk.old Log → IsLog sh groups (D.meaning.files disk.old).log_bytes → Holds groups [] R
        → AnswersSoundly result (IsOpened D.meaning disk.new sh groups groups [] R) }
    ensures room { IfOk result (λ log. 18 ≤ log.waiting.room) }
    ensures not_open { D.meaning.told disk.old → IsErrOf result opens.NotOpen → is_formatted (D.meaning.files disk.old).log_bytes ≡ false }
    ensures no_page { (dba : ℕ) → IsErrOf result (opens.BadPage dba) → ⊥ }
    ensures cause { Causes D.meaning disk.old disk.new (IsErrOf result opens.DeviceFault) }
    ensures untouched { Untouched D.meaning disk.old disk.new }
{
    match open(alloc, disk, FIRST_GATE, Lsn(0)) {
        Ok(log) => Ok(log),
        Err(fault) => Err(of_log(fault)),
    }
}

// All records of the log.
fn records_of<D: Disk>(alloc: Global, disk: &mut D, log: &RedoLog) -> Result<Vec<Record>, StoreOpen>
    ensures found { (file : List ℕ) (sh : TheShape) → D.meaning.told disk.old → (D.meaning.files disk.old).log_bytes ≡ file → HeadSays file sh → AreRead file result }
    ensures whole { (sh : TheShape) (groups : List (List ℕ)) (R : List Record) → D.meaning.told disk.old → IsLog sh groups (D.meaning.files disk.old).log_bytes → Holds groups [] R
        → AnswersSoundly result (λ records. reverse records.items ≡ R) }
    ensures few { IfOk result (λ records. length records.items < 2 ^ 63) }
    ensures not_open { D.meaning.told disk.old → IsErrOf result opens.NotOpen → ⊥ }
    ensures no_page { (dba : ℕ) → IsErrOf result (opens.BadPage dba) → ⊥ }
    ensures cause { Causes D.meaning disk.old disk.new (IsErrOf result opens.DeviceFault) }
    ensures untouched { Untouched D.meaning disk.old disk.new }
{
    match log.read_from(alloc, disk, FIRST_GATE) {
        Ok(records) => {
            let _count = records.as_slice().len();
            Ok(records)
        }
        Err(fault) => Err(of_log(fault)),
    }
}

// The pages of the data file, brought up to some records, which are all of the log.
fn pages_of<D: Disk>(
    alloc: Global,
    disk: &mut D,
    shape: Shape,
    records: &[Record],
) -> Result<StorePages, StoreOpen>
    requires { length records.now < 2 ^ 64 }
    ensures opened { IsOpenable D.meaning disk.old shape records.now [] 0 → IfOk result (HasPages D.meaning disk.new (reverse records.now) 0 (reverse records.now)) }
    ensures any_moment { IsOpenable D.meaning disk.old shape records.now [] 0 → LeavesFolds D.meaning disk.old disk.new shape (reverse records.now) 0 }
    ensures files { IsOpenable D.meaning disk.old shape records.now [] 0 → OnOk result (KeepsFiles D.meaning disk.old disk.new) }
    ensures stops { IsOpenable D.meaning disk.old shape records.now [] 0 → (dba : ℕ) → IsErrOf result (opens.BadPage dba) → StopsAt shape (reverse records.now) 0 dba }
    ensures why { (file : List ℕ) (at : ℕ) → HeadSays file shape → WalkEnds file FIRST_GATE at [] (reverse records.now) → IfErr result (IsRefused file) }
    ensures names { HasBlocks D.meaning disk.old shape → (dba : ℕ) → IsErrOf result (opens.BadPage dba) → IsPageRefused shape (D.meaning.files disk.old).data_bytes records.now dba }
    ensures area { D.meaning.told disk.old → OnOk result (is_sound_area shape (D.meaning.files disk.old).data_bytes ≡ true) }
    ensures lawful { IsOpenable D.meaning disk.old shape records.now [] 0 → is_shape shape ≡ true → IsLawful shape (reverse records.now) → IfErr result IsSoundOpen }
    ensures not_open { IsErrOf result opens.NotOpen → ⊥ }
    ensures no_log { (offset seen : ℕ) → IsErrOf result (opens.BadLog offset seen) → ⊥ }
    ensures shape { IfOk result (λ pages. pages.shape ≡ shape) }
    ensures log { LeavesLog D.meaning disk.old disk.new }
    ensures cause { Causes D.meaning disk.old disk.new (IsErrOf result opens.DeviceFault) }
    ensures told { D.meaning.told disk.new ↔ D.meaning.told disk.old }
    ensures reads { D.meaning.told disk.old → D.meaning.log_reads disk.new ≡ D.meaning.log_reads disk.old }
{
    match store_pages::open(alloc, disk, shape, Lsn(0), records) {
        Ok(pages) => Ok(pages),
        Err(fault) => Err(of_pages(fault)),
    }
}

// How many of the records are commits.
#[tactic(auto, using(crate::proofs::Counting::none_counted, crate::proofs::Counting::one_counted, crate::proofs::Counting::all_counted))]
fn count_commits(records: &[Record]) -> Scn
    ensures { result ≡ commit_count (reverse records.now) }
{
    let mut commits = Scn(0);
    for (_i, rec) in records.iter().enumerate() {
        commits = commits_after(commits, rec);
    }
    commits
}

// What was read of a log: its shape, the log from its first gate on, and all of its records.
#[derive(Drop)]
struct Logged {
    shape: Shape,
    log: RedoLog,
    records: Vec<Record>,
}

// Reads all of the log.
fn read_log<D: Disk>(alloc: Global, disk: &mut D) -> Result<Logged, StoreOpen>
    ensures found { D.meaning.told disk.old → IfOk result (λ read. IsLogOf (D.meaning.files disk.old).log_bytes read.shape read.log (reverse read.records.items)) }
    ensures refused { D.meaning.told disk.old → IfErr result (IsRefused (D.meaning.files disk.old).log_bytes) }
    ensures whole { (sh : TheShape) (groups : List (List ℕ)) (R : List Record) → IsSettled D.meaning disk.old Log → IsLog sh groups (D.meaning.files disk.old).log_bytes → Holds groups [] R
        → AnswersSoundly result (λ read. (read.shape ≡ sh) × IsOpened D.meaning disk.new sh groups groups [] R read.log × (reverse read.records.items ≡ R)) }
    ensures few { IfOk result (λ read. length read.records.items < 2 ^ 63) }
    ensures room { IfOk result (λ read. 18 ≤ read.log.waiting.room) }
    ensures not_open { D.meaning.told disk.old → IsErrOf result opens.NotOpen → is_formatted (D.meaning.files disk.old).log_bytes ≡ false }
    ensures no_page { (dba : ℕ) → IsErrOf result (opens.BadPage dba) → ⊥ }
    ensures cause { Causes D.meaning disk.old disk.new (IsErrOf result opens.DeviceFault) }
    ensures untouched { Untouched D.meaning disk.old disk.new }
{
    let shape = match shape_of(disk) {
        Ok(shape) => shape,
        Err(fault) => return Err(fault),
    };
    let log = match log_of(alloc, disk) {
        Ok(log) => log,
        Err(fault) => return Err(fault),
    };
    let records = match records_of(alloc, disk, &log) {
        Ok(records) => records,
        Err(fault) => return Err(fault),
    };
    Ok(Logged {
        shape,
        log,
        records,
    })
}

/// Reads all of the log, and brings the pages of the data file up to its records: a batch that wasn't finished is written to its
/// blocks, and then each record is redone on the pages that haven't it, one after the other. `NotOpen` comes exactly where the log
/// isn't formatted, and `BadLog` for the first byte of the log that is wrong; then no file is changed. `BadPage` comes where the
/// whole log is right: block 4 where the double-write area isn't one, else a block that a record touches, whose page can't be read
/// or on which the record doesn't fit. At any moment a crash leaves a log as it was, and files from which the same is made.
pub fn prepare<D: Disk>(alloc: Global, disk: &mut D) -> Result<Loaded<D>, StoreOpen>
    ensures prepared { D.meaning.told disk.old → IsPrepared (D.meaning.files disk.old).log_bytes result }
    ensures page { D.meaning.told disk.old → (dba : ℕ) → IsErrOf result (opens.BadPage dba) → PageStops D.meaning disk.old dba }
    ensures area { D.meaning.told disk.old → IfOk result (λ loaded. is_sound_area loaded.shape (D.meaning.files disk.old).data_bytes ≡ true) }
    ensures stops { (sh : TheShape) (R : List Record) → IsDurable D.meaning disk.old → HasLog sh R (D.meaning.files disk.old).log_bytes → HasFolds sh R 0 (D.meaning.files disk.old).data_bytes → AreReadable sh R
        → (dba : ℕ) → IsErrOf result (opens.BadPage dba) → StopsAt sh R 0 dba }
    ensures list { (sh : TheShape) (R : List Record) → IsSettled D.meaning disk.old Log → HasLog sh R (D.meaning.files disk.old).log_bytes
        → IfOk result (λ loaded. (loan : GName) → HasList D.meaning R (with_disk disk.new loan loaded)) }
    ensures lawful { (sh : TheShape) (R : List Record) → IsDurable D.meaning disk.old → IsSound sh R (D.meaning.files disk.old)
        → IfOk result (λ loaded. (loan : GName) → IsTrue D.meaning R (with_disk disk.new loan loaded)) }
    ensures sound { (sh : TheShape) (R : List Record) → IsDurable D.meaning disk.old → IsSound sh R (D.meaning.files disk.old) → IfErr result IsSoundOpen }
    ensures survives { (sh : TheShape) (R : List Record) → IsDurable D.meaning disk.old → IsSound sh R (D.meaning.files disk.old)
        → IfOk result (λ loaded. (loan : GName) → Survives D.meaning (D.meaning.clock disk.old) (λ _. length R) R (with_disk disk.new loan loaded)) }
    ensures any_moment { (sh : TheShape) (R : List Record) → IsDurable D.meaning disk.old → IsSound sh R (D.meaning.files disk.old)
        → Leaves D.meaning disk.old disk.new (IsLeft sh (D.meaning.files disk.old).data_bytes R (length R)) }
    ensures log { LeavesLog D.meaning disk.old disk.new }
    ensures unwritten { IsErrOf result opens.NotOpen → Untouched D.meaning disk.old disk.new }
    ensures bad_unwritten { (offset seen : ℕ) → IsErrOf result (opens.BadLog offset seen) → Untouched D.meaning disk.old disk.new }
    ensures not_open { D.meaning.told disk.old → IsErrOf result opens.NotOpen → is_formatted (D.meaning.files disk.old).log_bytes ≡ false }
    ensures first { IfOk result (λ loaded. loaded.first ≡ disk.old) }
    ensures unspent { IfOk result (λ loaded. loaded.fault ≡ None) }
    ensures told { D.meaning.told disk.new ↔ D.meaning.told disk.old }
    ensures cause { Causes D.meaning disk.old disk.new (IsErrOf result opens.DeviceFault) }
{
    let first = Snapshot::of(&*disk);
    let read = match read_log(alloc, disk) {
        Ok(read) => read,
        Err(fault) => return Err(fault),
    };
    let Logged {
        shape,
        log,
        records,
    } = read;
    let pages = match pages_of(alloc, disk, shape, &records) {
        Ok(pages) => pages,
        Err(fault) => return Err(fault),
    };
    let commits = count_commits(&records);
    Ok(Loaded {
        first,
        shape,
        log,
        pages,
        commits,
        fault: None,
    })
}

/// The store of a disk, whose redo list is that of the log. Of the disk after an `Err` it says nothing: use `prepare` and
/// `Store::over` where that counts.
pub fn replay<'a, D: Disk>(alloc: Global, disk: &'a mut D) -> Result<Store<'a, D>, StoreOpen>
    ensures refused { D.meaning.told disk.old → IfErr result (IsRefused (D.meaning.files disk.old).log_bytes) }
    ensures page { D.meaning.told disk.old → (dba : ℕ) → IsErrOf result (opens.BadPage dba) → PageStops D.meaning disk.old dba }
    ensures area { D.meaning.told disk.old → IfOk result (λ store. is_sound_area store.shape (D.meaning.files disk.old).data_bytes ≡ true) }
    ensures list { (sh : TheShape) (R : List Record) → IsSettled D.meaning disk.old Log → HasLog sh R (D.meaning.files disk.old).log_bytes
        → IfOk result (HasList D.meaning R) }
    ensures lawful { (sh : TheShape) (R : List Record) → IsDurable D.meaning disk.old → IsSound sh R (D.meaning.files disk.old) → IfOk result (IsTrue D.meaning R) }
    ensures sound { (sh : TheShape) (R : List Record) → IsDurable D.meaning disk.old → IsSound sh R (D.meaning.files disk.old) → IfErr result IsSoundOpen }
    ensures survives { (sh : TheShape) (R : List Record) → IsDurable D.meaning disk.old → IsSound sh R (D.meaning.files disk.old)
        → IfOk result (Survives D.meaning (D.meaning.clock disk.old) (λ _. length R) R) }
    ensures not_open { D.meaning.told disk.old → IsErrOf result opens.NotOpen → is_formatted (D.meaning.files disk.old).log_bytes ≡ false }
    ensures first { IfOk result (λ store. store.first ≡ disk.old) }
    ensures loan { IfOk result (λ store. store.loan ≡ disk.entry.ghost_name) }
    ensures unspent { IfOk result (λ store. store.fault ≡ None) }
    ensures log { IfOk result (λ store. LeavesLog D.meaning disk.old store.disk) }
    ensures told { IfOk result (λ store. D.meaning.told store.disk ↔ D.meaning.told disk.old) }
{
    let loaded = prepare(alloc, disk)?;
    Ok(Store::over(disk, loaded))
}
