// A shrink: its first event, its steps, and the event that lowers its table's marks.
ghost use Rattle.std.specs.Prelude.{◌≡◌, ℕ, List, Option, Some, None};
ghost use Rattle.script_text.specs.declared.statement.Statement.TheVariants as asked;
ghost use Rattle.history_model.specs.Spans.{Span};
ghost use Rattle.scan_table.specs.Places.{place};
ghost use Rattle.session_core.specs.Acting.{HasCalled};
ghost use Rattle.session_step.specs.Turning.{HasTurned, IsTurnOf, KnowsShrinks, part_of};

use disk_model::Disk;
use scan_table::Scans;
use seg_base::{Name, TxnId};
use session_core::{
    Acted, Changed, Doing, LowerWork, OpenShrink, ShrinkWork, end_shrink, go_on_shrinking,
    start_shrink,
};
use std::alloc::Global;
use store_core::{Store, StoreFault};

/// Which event of a shrink comes, with its work so far.
#[derive(Drop)]
enum Part {
    First,
    Step(ShrinkWork),
    Last(LowerWork),
}

fn part_of(doing: Doing) -> Part
    ensures { result ≡ part_of doing }
{
    match doing {
        Doing::Shrinking(work) => Part::Step(work),
        Doing::Lowering(work) => Part::Last(work),
        _ => Part::First,
    }
}

/// One event of `shrink`; `shrinks` are the shrinks of the other sessions that are under way.
pub fn shrink<D: Disk>(
    alloc: Global,
    store: &mut Store<D>,
    scans: &mut Scans,
    own: Option<TxnId>,
    doing: Doing,
    shrinks: &[OpenShrink],
    table: &Name,
    compact: bool,
    changed: &mut Changed,
) -> Result<Acted, StoreFault>
    requires unspent { store.old.fault ≡ None }
    ensures turned { (x : Span) (who : ℕ) (labels : List (List ℕ × ℕ)) → KnowsShrinks x shrinks.now doing → IsTurnOf D.meaning x (Some (asked.Shrink table.now compact)) who own labels (place who scans.old) doing store.old → HasTurned D.meaning x (Some (asked.Shrink table.now compact)) who scans.old scans.new store.old store.new result }
    ensures called { HasCalled D.meaning store.old store.new result }
{
    match part_of(doing) {
        Part::First => start_shrink(alloc, store, own, shrinks, table),
        Part::Step(work) => go_on_shrinking(alloc, store, own, work, table, compact, changed),
        Part::Last(work) => end_shrink(alloc, scans, store, own, work, table),
    }
}
