// The last event of a shrink that doesn't only compact.
ghost use Rattle.std.specs.Prelude.{◌≡◌, None, Some, false};
ghost use Rattle.script_text.specs.declared.statement.Statement.TheVariants as asked;
ghost use Rattle.history_model.specs.Spans.{Span};
ghost use Rattle.session_core.specs.Acting.{HasCalled, IsAt};
ghost use Rattle.session_core.specs.Marks.{HasActedMarking};
ghost use Rattle.session_core.specs.ShrinkEvents.{IsLowering, told_shrunk};

use crate::session::LowerWork;
use crate::turned::{Acted, Turned};
use disk_model::Disk;
use history_model::Kept;
use history_text::Outcome;
use lowering::lower;
use scan_table::Scans;
use seg_base::{Name, TxnId};
use std::alloc::Global;
use store_core::{Lowered, Store, StoreFault};

/// The shrink is over, with what its lowering released.
fn told_shrunk(work: LowerWork, lowered: &Lowered, table: Name, own: Option<TxnId>) -> Acted
    ensures { result ≡ told_shrunk work lowered.now table own }
{
    let skipped = work.skips.len() as u64;
    let released = lowered.released.as_slice().len() as u32;
    Acted {
        turned: Turned::Over {
            outcome: Outcome::Shrunk {
                table,
                moved: work.moved,
                skipped,
                stop: work.stop,
                released,
                high: lowered.high,
            },
            kept: Kept::Stopped {
                skips: work.skips,
                records: work.stopped,
            },
        },
        own,
    }
}

/// Lowers the table of which the name was copied.
fn lower_named<D: Disk>(
    alloc: Global,
    scans: &mut Scans,
    store: &mut Store<D>,
    own: Option<TxnId>,
    work: LowerWork,
    table: Name,
) -> Result<Acted, StoreFault>
    requires unspent { store.old.fault ≡ None }
    ensures acted { (x : Span) → IsAt D.meaning x own store.old → IsLowering store.old.shape x table work → HasActedMarking D.meaning x (Some (asked.Shrink table false)) scans.old scans.new store.old store.new result }
    ensures called { HasCalled D.meaning store.old store.new result }
{
    match lower(alloc, store, work.obj) {
        Ok(lowered) => {
            scans.released(work.obj, &lowered);
            Ok(told_shrunk(work, &lowered, table, own))
        }
        Err(fault) => Err(fault),
    }
}

/// The last event of a shrink that has stopped: the longest suffix of vacant extents of its table is released and the table's marks
/// are lowered, by one record, or nothing is added where the last extent stays. Each open scan that has yet to read a block of a
/// released extent is marked.
pub fn end_shrink<D: Disk>(
    alloc: Global,
    scans: &mut Scans,
    store: &mut Store<D>,
    own: Option<TxnId>,
    work: LowerWork,
    name: &Name,
) -> Result<Acted, StoreFault>
    requires unspent { store.old.fault ≡ None }
    ensures acted { (x : Span) → IsAt D.meaning x own store.old → IsLowering store.old.shape x name.now work → HasActedMarking D.meaning x (Some (asked.Shrink name.now false)) scans.old scans.new store.old store.new result }
    ensures called { HasCalled D.meaning store.old store.new result }
{
    match name.duplicate(alloc) {
        Ok(table) => lower_named(alloc, scans, store, own, work, table),
        Err(_) => Err(StoreFault::NoMemory),
    }
}
