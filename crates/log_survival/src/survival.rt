// Each call that a writer of groups makes, with what survives it.
ghost use Rattle.std.specs.Prelude.{◌≡◌, ◌↔◌, ◌≤◌, ◌++◌, [], ◌∷◌, ℕ, List, length, OnOk, OnErr, IfErr, IsErr};
ghost use Rattle.seg_words.specs.Types.{Shape};
ghost use Rattle.disk_model.specs.Types.{Leaves, Causes, Untouched, OnlyFile};
ghost use Rattle.disk_model.specs.declared.disk.File.TheVariants.{Log};
ghost use Rattle.log_frame.specs.Types.{IsPayload, IsReady, Leads, WithOrWithout};
ghost use Rattle.log_survival.specs.Survives.{Survives, AreMade};
ghost use Rattle.log_survival.specs.declared.acknowledged.Acknowledged.{Acknowledged};

use crate::Acknowledged;
use disk_model::Disk;
use log_frame::{FrameFault, LogFile};

/// The moment from which on nothing is lost: the log is on the disk now, and nothing was acknowledged since.
pub fn begin<D: Disk>(disk: &D) -> u64
    ensures moment { result ≡ D.meaning.clock disk.now }
    ensures survives { (shape : Shape) (groups : List (List ℕ)) (end : ℕ) → IsReady D.meaning disk.now shape groups end
        → Survives D.meaning result shape groups [] disk.now × AreMade groups result [] }
{
    disk.moment()
}

/// Adds a group. At each moment so far a crash leaves the acknowledged groups and some of those after them, the new one
/// as the last.
pub fn append<D: Disk>(log: &mut LogFile, disk: &mut D, payload: &[u8]) -> Result<(), FrameFault>
    requires { IsPayload payload.now }
    ensures any_moment { (shape : Shape) (groups : List (List ℕ)) → IsReady D.meaning disk.old shape groups log.old
        → Leaves D.meaning disk.old disk.new (OnlyFile D.meaning disk.old Log (WithOrWithout shape groups payload.now)) }
    ensures survives { (since : ℕ) (shape : Shape) (groups : List (List ℕ)) (acknowledged : List Acknowledged)
        → IsReady D.meaning disk.old shape groups log.old → AreMade groups (D.meaning.clock disk.old) acknowledged
        → Survives D.meaning since shape groups acknowledged disk.old
        → Survives D.meaning since shape (groups ++ payload.now ∷ []) acknowledged disk.new × AreMade (groups ++ payload.now ∷ []) (D.meaning.clock disk.new) acknowledged }
    ensures kept { OnErr result (log.new ≡ log.old) }
    ensures added { (shape : Shape) (groups : List (List ℕ)) → IsReady D.meaning disk.old shape groups log.old
        → OnOk result (Leads D.meaning disk.old disk.new shape (groups ++ payload.now ∷ []) log.new) }
    ensures cause { Causes D.meaning disk.old disk.new (IsErr result) }
    ensures only { IfErr result (λ e. e ≡ FrameFault.DeviceFault) }
    ensures told { D.meaning.told disk.new ↔ D.meaning.told disk.old }
    ensures reads { D.meaning.log_reads disk.new ≡ D.meaning.log_reads disk.old }
{
    log.append_group(disk, payload)
}

/// Acknowledges all groups of the log, now.
pub fn acknowledge<D: Disk>(disk: &D, count: u64) -> Acknowledged
    ensures moment { result.moment ≡ D.meaning.clock disk.now }
    ensures groups { result.groups ≡ count }
    ensures survives { (since : ℕ) (shape : Shape) (groups : List (List ℕ)) (end : ℕ) (acknowledged : List Acknowledged)
        → IsReady D.meaning disk.now shape groups end → length groups ≡ count → AreMade groups (D.meaning.clock disk.now) acknowledged
        → Survives D.meaning since shape groups acknowledged disk.now
        → Survives D.meaning since shape groups (result ∷ acknowledged) disk.now × AreMade groups (D.meaning.clock disk.now) (result ∷ acknowledged) }
{
    Acknowledged {
        moment: disk.moment(),
        groups: count,
    }
}

/// The law of calls that make no write: what survived before them survives them.
pub fn looked<D: Disk>(old: &D, new: &D)
    ensures { (since : ℕ) (shape : Shape) (groups : List (List ℕ)) (acknowledged : List Acknowledged)
        → Untouched D.meaning old.now new.now → since ≤ D.meaning.clock old.now → AreMade groups (D.meaning.clock old.now) acknowledged
        → Survives D.meaning since shape groups acknowledged old.now
        → Survives D.meaning since shape groups acknowledged new.now × AreMade groups (D.meaning.clock new.now) acknowledged }
{
    let _old = old;
    let _new = new;
}
