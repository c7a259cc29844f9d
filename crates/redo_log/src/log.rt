// The list of records over the log file.
ghost use Rattle.std.specs.Prelude.{◌≡◌, ◌↔◌, ◌++◌, ◌+◌, ◌-◌, ◌∷◌, [], ◌≤◌, ◌<◌, ◌^◌, List, ℕ, min, suc, length, IfOk, IfErr, OnOk, OnErr, IsErr, IsErrOf};
ghost use Rattle.seg_words.specs.Types.{Shape};
ghost use Rattle.disk_model.specs.Types.{Causes, Leaves, Untouched, OnlyFile};
ghost use Rattle.disk_model.specs.declared.disk.File.TheVariants.{Log};
ghost use Rattle.log_frame.specs.Types.{IsPayload, IsReady, Leads, WithOrWithout};
ghost use Rattle.log_survival.specs.declared.acknowledged.Acknowledged.{Acknowledged};
ghost use Rattle.redo_record.specs.declared.record.Record.{Record};
ghost use Rattle.redo_record.specs.declared.record.Record.TheVariants.{Commit};
ghost use Rattle.redo_record.specs.Spelled.{HasSpelling};
ghost use Rattle.redo_log.specs.Kept.{HasList, Stays, with_group};
ghost use Rattle.redo_log.specs.Lasting.{Lasts, GroupOrNone, all_now};
ghost use Rattle.redo_log.specs.Found.{IsReadFrom};

use crate::LogFault;
use crate::fault::of_frame;
use crate::opening::{number_after, read_from};
use crate::waiting::{COMMIT_SIZE, Waiting, commit_bytes};
use disk_model::Disk;
use log_frame::{FrameFault, LogFile};
use redo_record::{CommitRecord, Record, encode};
use seg_base::{Lsn, NoMemory, Scn, TxnId};
use std::alloc::Global;
use std::marker::Model;

/// A redo list whose first records are on the disk. The others wait in memory, as bytes.
#[derive(Drop)]
pub struct RedoLog {
    file: LogFile,
    stable: Lsn,
    count: Lsn,
    waiting: Waiting,
    scratch: Vec<u8>,
}

impl Model for RedoLog {
    ghost use Rattle.redo_log.specs.Kept.{Kept};

    ghost Value = { Kept };

    ghost view = { λ l. record { end = l.file; stable = l.stable; count = l.count; waiting = l.waiting } };
}

impl RedoLog {
    // A log that was opened, of which so many records are on the disk and none waits.
    pub(crate) fn over(alloc: Global, file: LogFile, count: Lsn) -> Result<RedoLog, NoMemory>
        ensures end { IfOk result (λ log. log.end ≡ file) }
        ensures room { IfOk result (λ log. COMMIT_SIZE ≤ log.waiting.room) }
        ensures stable { IfOk result (λ log. log.stable ≡ count) }
        ensures count { IfOk result (λ log. log.count ≡ count) }
        ensures none { IfOk result (λ log. log.waiting.bytes ≡ []) }
    {
        let waiting = Waiting::new(alloc)?;
        Ok(RedoLog {
            file,
            stable: count,
            count,
            waiting,
            scratch: Vec::new(alloc),
        })
    }

    /// The log's end: the place of the gate behind its last stable group, from which `open` finds no record. A checkpoint
    /// states it, with the number of the last stable record.
    pub fn end(&self) -> u64
        ensures { result ≡ self.now.end }
    {
        self.file.end()
    }

    /// How many bytes the records have that aren't stable.
    pub fn unwritten(&self) -> u64
        ensures { result ≡ length self.now.waiting.bytes }
    {
        self.waiting.as_slice().len() as u64
    }

    /// The number of the last stable record.
    pub fn stable(&self) -> Lsn
        ensures { result ≡ self.now.stable }
    {
        self.stable
    }

    /// The number of the last record.
    pub fn count(&self) -> Lsn
        ensures { result ≡ self.now.count }
    {
        self.count
    }

    /// Adds a record at the end, and answers its number. Without memory nothing is added.
    #[tactic(auto, using(crate::proofs::Adding::one_more, crate::proofs::Adding::stays))]
    pub fn append(&mut self, rec: &Record) -> Result<Lsn, NoMemory>
        ensures added { (groups : List (List ℕ)) (R0 R : List Record) → HasList groups R0 R self.old → HasSpelling rec.now → OnOk result (HasList groups R0 (rec.now ∷ R) self.new) }
        ensures number { IfOk result (λ lsn. lsn ≡ self.new.count) }
        ensures room { OnOk result (COMMIT_SIZE ≤ self.new.waiting.room) }
        ensures end { OnOk result (self.new.end ≡ self.old.end) }
        ensures stable { OnOk result (self.new.stable ≡ self.old.stable) }
        ensures refused { OnErr result (Stays self.old self.new) }
    {
        self.scratch.clear();
        encode(rec, &mut self.scratch)?;
        self.waiting.add(&self.scratch)?;
        self.count = number_after(self.count, 1);
        Ok(self.count)
    }

    /// Adds two records or none, and answers the number of the second.
    #[tactic(auto, using(crate::proofs::Adding::two_more, crate::proofs::Adding::stays))]
    pub fn append_pair(&mut self, first: &Record, second: &Record) -> Result<Lsn, NoMemory>
        ensures added { (groups : List (List ℕ)) (R0 R : List Record) → HasList groups R0 R self.old → HasSpelling first.now → HasSpelling second.now → OnOk result (HasList groups R0 (second.now ∷ first.now ∷ R) self.new) }
        ensures number { IfOk result (λ lsn. lsn ≡ self.new.count) }
        ensures room { OnOk result (COMMIT_SIZE ≤ self.new.waiting.room) }
        ensures end { OnOk result (self.new.end ≡ self.old.end) }
        ensures stable { OnOk result (self.new.stable ≡ self.old.stable) }
        ensures refused { OnErr result (Stays self.old self.new) }
    {
        self.scratch.clear();
        encode(first, &mut self.scratch)?;
        encode(second, &mut self.scratch)?;
        self.waiting.add(&self.scratch)?;
        self.count = number_after(self.count, 2);
        Ok(self.count)
    }

    /// Adds a Commit, and answers its number. It takes no memory: room for one is always kept.
    #[tactic(auto, using(crate::proofs::Adding::one_more))]
    pub fn append_commit(&mut self, txn: TxnId, number: Scn, entry: u8) -> Lsn
        requires { COMMIT_SIZE ≤ self.old.waiting.room }
        ensures added { (groups : List (List ℕ)) (R0 R : List Record) → HasList groups R0 R self.old → HasList groups R0 (Commit (record { txn = txn; number = number; entry = entry }) ∷ R) self.new }
        ensures number { result ≡ self.new.count }
        ensures end { self.new.end ≡ self.old.end }
        ensures stable { self.new.stable ≡ self.old.stable }
    {
        let bytes = commit_bytes(CommitRecord { txn, number, entry });
        self.waiting.add_within(&bytes);
        self.count = number_after(self.count, 1);
        self.count
    }

    // Writes what waits as one group.
    #[tactic(auto, using(crate::proofs::Adding::all_stable, crate::proofs::Adding::stays))]
    fn write_group<D: Disk>(&mut self, disk: &mut D) -> Result<(), FrameFault>
        requires { 1 ≤ length self.old.waiting.bytes }
        ensures any_moment { (shape : Shape) (groups : List (List ℕ)) → IsReady D.meaning disk.old shape groups self.old.end
            → Leaves D.meaning disk.old disk.new (OnlyFile D.meaning disk.old Log (WithOrWithout shape groups self.old.waiting.bytes)) }
        ensures survives { (since : ℕ) (shape : Shape) (groups : List (List ℕ)) (acknowledged : List Acknowledged) → IsReady D.meaning disk.old shape groups self.old.end
            → Lasts D.meaning since shape groups acknowledged disk.old → Lasts D.meaning since shape (groups ++ self.old.waiting.bytes ∷ []) acknowledged disk.new }
        ensures ready { (shape : Shape) (groups : List (List ℕ)) → IsReady D.meaning disk.old shape groups self.old.end
            → OnOk result (Leads D.meaning disk.old disk.new shape (groups ++ self.old.waiting.bytes ∷ []) self.new.end) }
        ensures list { (groups : List (List ℕ)) (R0 R : List Record) → HasList groups R0 R self.old → OnOk result (HasList (groups ++ self.old.waiting.bytes ∷ []) R0 R self.new) }
        ensures refused { OnErr result (Stays self.old self.new) }
        ensures stable { OnOk result (self.new.stable ≡ self.old.count) }
        ensures count { OnOk result (self.new.count ≡ self.old.count) }
        ensures none { OnOk result (self.new.waiting.bytes ≡ []) }
        ensures room { OnOk result (COMMIT_SIZE ≤ self.new.waiting.room) }
        ensures cause { Causes D.meaning disk.old disk.new (IsErr result) }
        ensures only { IfErr result (λ e. e ≡ FrameFault.DeviceFault) }
        ensures told { D.meaning.told disk.new ↔ D.meaning.told disk.old }
        ensures reads { D.meaning.log_reads disk.new ≡ D.meaning.log_reads disk.old }
    {
        write_bytes(&mut self.file, disk, self.waiting.as_slice())?;
        self.waiting.clear();
        self.stable = self.count;
        Ok(())
    }

    /// Writes the records that wait as one group, where any wait. At any moment of the call a crash leaves the log as it
    /// was or with this group. At `Ok` all records are stable: all groups of the log are acknowledged from this moment on. It
    /// takes no memory.
    pub fn flush<D: Disk>(&mut self, disk: &mut D) -> Result<(), LogFault>
        ensures any_moment { (shape : Shape) (groups : List (List ℕ)) → IsReady D.meaning disk.old shape groups self.old.end
            → Leaves D.meaning disk.old disk.new (OnlyFile D.meaning disk.old Log (GroupOrNone shape groups self.old.waiting.bytes)) }
        ensures survives { (since : ℕ) (shape : Shape) (groups : List (List ℕ)) (acknowledged : List Acknowledged) → IsReady D.meaning disk.old shape groups self.old.end
            → Lasts D.meaning since shape groups acknowledged disk.old → Lasts D.meaning since shape (with_group groups self.old.waiting.bytes) acknowledged disk.new }
        ensures ready { (shape : Shape) (groups : List (List ℕ)) → IsReady D.meaning disk.old shape groups self.old.end
            → OnOk result (IsReady D.meaning disk.new shape (with_group groups self.old.waiting.bytes) self.new.end) }
        ensures list { (groups : List (List ℕ)) (R0 R : List Record) → HasList groups R0 R self.old → OnOk result (HasList (with_group groups self.old.waiting.bytes) R0 R self.new) }
        ensures acknowledged { (since : ℕ) (shape : Shape) (groups : List (List ℕ)) (acknowledged : List Acknowledged) → IsReady D.meaning disk.old shape groups self.old.end
            → Lasts D.meaning since shape groups acknowledged disk.old → OnOk result (Lasts D.meaning since shape (with_group groups self.old.waiting.bytes) (all_now (with_group groups self.old.waiting.bytes) (D.meaning.clock disk.new) ∷ acknowledged) disk.new) }
        ensures refused { OnErr result (Stays self.old self.new) }
        ensures stable { OnOk result (self.new.stable ≡ self.old.count) }
        ensures count { OnOk result (self.new.count ≡ self.old.count) }
        ensures none { OnOk result (self.new.waiting.bytes ≡ []) }
        ensures room { OnOk result (COMMIT_SIZE ≤ self.new.waiting.room) }
        ensures cause { Causes D.meaning disk.old disk.new (IsErr result) }
        ensures only { IfErr result (λ e. e ≡ LogFault.DeviceFault) }
        ensures told { D.meaning.told disk.new ↔ D.meaning.told disk.old }
        ensures reads { D.meaning.log_reads disk.new ≡ D.meaning.log_reads disk.old }
    {
        if self.waiting.is_empty() {
            self.stable = self.count;
            return Ok(());
        }
        match self.write_group(disk) {
            Ok(()) => Ok(()),
            Err(fault) => Err(of_frame(fault)),
        }
    }

    /// All records of the groups from a gate on to the closed gate, in order. `BadLog` comes as for `open`.
    pub fn read_from<D: Disk>(
        &self,
        alloc: Global,
        disk: &mut D,
        at: u64,
    ) -> Result<Vec<Record>, LogFault>
        ensures read { D.meaning.told disk.old → IsReadFrom (D.meaning.files disk.old).log_bytes at result }
        ensures cause { Causes D.meaning disk.old disk.new (IsErrOf result LogFault.DeviceFault) }
        ensures untouched { Untouched D.meaning disk.old disk.new }
    {
        read_from(alloc, disk, at)
    }
}

// Adds a group to the log file.
fn write_bytes<D: Disk>(file: &mut LogFile, disk: &mut D, payload: &[u8]) -> Result<(), FrameFault>
    requires { IsPayload payload.now }
    ensures any_moment { (shape : Shape) (groups : List (List ℕ)) → IsReady D.meaning disk.old shape groups file.old
        → Leaves D.meaning disk.old disk.new (OnlyFile D.meaning disk.old Log (WithOrWithout shape groups payload.now)) }
    ensures survives { (since : ℕ) (shape : Shape) (groups : List (List ℕ)) (acknowledged : List Acknowledged) → IsReady D.meaning disk.old shape groups file.old
        → Lasts D.meaning since shape groups acknowledged disk.old → Lasts D.meaning since shape (groups ++ payload.now ∷ []) acknowledged disk.new }
    ensures ready { (shape : Shape) (groups : List (List ℕ)) → IsReady D.meaning disk.old shape groups file.old
        → OnOk result (Leads D.meaning disk.old disk.new shape (groups ++ payload.now ∷ []) file.new) }
    ensures kept { OnErr result (file.new ≡ file.old) }
    ensures cause { Causes D.meaning disk.old disk.new (IsErr result) }
    ensures only { IfErr result (λ e. e ≡ FrameFault.DeviceFault) }
    ensures told { D.meaning.told disk.new ↔ D.meaning.told disk.old }
    ensures reads { D.meaning.log_reads disk.new ≡ D.meaning.log_reads disk.old }
{
    log_survival::append(file, disk, payload)
}
