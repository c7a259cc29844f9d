// Making records stable.
ghost use Rattle.std.specs.Prelude.{◌≡◌, ◌↔◌, ◌<◌, ◌≤◌, [], ℕ, List, None, OnOk, OnErr, IfErr, IsErr, length};
ghost use Rattle.seg_words.specs.Types.{Shape};
ghost use Rattle.disk_model.specs.Crash.{Causes, Leaves};
ghost use Rattle.disk_model.specs.Only.{OnlyFile};
ghost use Rattle.disk_model.specs.declared.disk.File.TheVariants.{Log};
ghost use Rattle.log_frame.specs.Ready.{IsReady};
ghost use Rattle.redo_model.specs.Records.{Record};
ghost use Rattle.redo_log.specs.Kept.{Stays, with_group, HasList as HasLogList};
ghost use Rattle.redo_log.specs.Lasting.{GroupOrNone};
ghost use Rattle.pool_store.specs.Store.{HasList, waits};
ghost use Rattle.pool_store.specs.Causes.{HasLooked};
ghost use Rattle.pool_store.specs.declared.fault.StoreFault.TheVariants as faults;

use crate::sparing::lasting;
use crate::{Store, StoreFault};
use disk_model::Disk;
use redo_log::RedoLog;

/// How many bytes of records wait at most where one more is added without a flush: 1 MiB.
pub const MOST_UNWRITTEN: u64 = 1_048_576;

// Makes all records stable. The only fault is one of the disk.
pub(crate) fn flush_in<D: Disk>(disk: &mut D, log: &mut RedoLog) -> Result<(), StoreFault>
    ensures any_moment { (shape : Shape) (groups : List (List ℕ)) → IsReady D.meaning disk.old shape groups log.old.end
        → Leaves D.meaning disk.old disk.new (OnlyFile D.meaning disk.old Log (GroupOrNone shape groups log.old.waiting.bytes)) }
    ensures ready { (shape : Shape) (groups : List (List ℕ)) → IsReady D.meaning disk.old shape groups log.old.end
        → OnOk result (IsReady D.meaning disk.new shape (with_group groups log.old.waiting.bytes) log.new.end) }
    ensures list { (groups : List (List ℕ)) (R : List Record) → HasLogList groups [] R log.old → OnOk result (HasLogList (with_group groups log.old.waiting.bytes) [] R log.new) }
    ensures stable { OnOk result (log.new.stable ≡ log.old.count) }
    ensures none { OnOk result (log.new.waiting.bytes ≡ []) }
    ensures room { OnOk result (18 ≤ log.new.waiting.room) }
    ensures refused { OnErr result (Stays log.old log.new) }
    ensures only { IfErr result (λ e. e ≡ faults.DeviceFault) }
    ensures cause { Causes D.meaning disk.old disk.new (IsErr result) }
    ensures told { D.meaning.told disk.new ↔ D.meaning.told disk.old }
    ensures reads { D.meaning.log_reads disk.new ≡ D.meaning.log_reads disk.old }
{
    match log.flush(disk) {
        Ok(()) => Ok(()),
        Err(_) => Err(StoreFault::DeviceFault),
    }
}

impl<'a, D: Disk> Store<'a, D> {
    /// Makes all records stable. At each moment of the call a crash leaves what was stable, or all records. It takes no memory.
    pub fn flush_log(&mut self) -> Result<(), StoreFault>
        ensures looked { HasLooked D.meaning self.old self.new result }
        ensures stable { (R : List Record) → HasList D.meaning R self.old → OnOk result (self.new.log.stable ≡ length R) }
        ensures written { OnOk result (waits self.new ≡ 0) }
        ensures only { self.old.fault ≡ None → IfErr result (λ e. e ≡ faults.DeviceFault) }
        ensures pages { self.new.pages ≡ self.old.pages }
    {
        if let Some(fault) = self.fault {
            return Err(fault);
        }
        match flush_in(self.disk, &mut self.log) {
            Ok(()) => Ok(()),
            Err(fault) => {
                self.fault = lasting(&fault);
                Err(fault)
            }
        }
    }

    // Makes all records stable where too many wait. A store that has failed answers its fault.
    pub(crate) fn flush_full(&mut self) -> Result<(), StoreFault>
        ensures looked { HasLooked D.meaning self.old self.new result }
        ensures full { (R : List Record) → HasList D.meaning R self.old → MOST_UNWRITTEN < waits self.old → OnOk result (self.new.log.stable ≡ length R) }
        ensures none { waits self.old ≤ MOST_UNWRITTEN → self.new ≡ self.old }
        ensures only { self.old.fault ≡ None → IfErr result (λ e. e ≡ faults.DeviceFault) }
    {
        if self.log.unwritten() > MOST_UNWRITTEN {
            return self.flush_log();
        }
        match self.fault {
            Some(fault) => Err(fault),
            None => Ok(()),
        }
    }
}
