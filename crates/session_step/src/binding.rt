// The label of an accepted insert, and the row that a target is.
ghost use Rattle.std.specs.Prelude.{◌≡◌, Option, slice_get, OnErr, OnOk};
ghost use Rattle.session_step.specs.Bindings.{AreBoundTurned, IsBoundBy, IsBoundIn, inserted_in, inserted_row, row_by};

use crate::labels::Labels;
use history_text::Outcome;
use script_text::{Statement, Target};
use seg_base::{NoMemory, RowNo};
use session_core::Turned;
use std::alloc::Global;

/// The row that an update or a delete is about, none where it is a label that no accepted insert bound.
pub fn row_by(labels: &Labels, target: &Target) -> Option<RowNo>
    ensures { result ≡ row_by labels.now target.now }
{
    match target {
        Target::Label(label) => labels.row(label),
        Target::Number(row) => Some(*row),
    }
}

fn inserted_row(outcome: &Outcome) -> Option<RowNo>
    ensures { result ≡ inserted_row outcome.now }
{
    match outcome {
        Outcome::Inserted { row } => Some(*row),
        _ => None,
    }
}

/// The row that an event inserted.
fn inserted_in(turned: &Turned) -> Option<RowNo>
    ensures { result ≡ inserted_in turned.now }
{
    match turned {
        Turned::On(_) => None,
        Turned::Over { outcome, .. } => inserted_row(outcome),
    }
}

/// The label of an insert stands for its row.
fn bind_label(
    alloc: Global,
    labels: &mut Labels,
    statement: &Statement,
    row: RowNo,
) -> Result<(), NoMemory>
    ensures bound { OnOk result (IsBoundBy statement.now row labels.old labels.new) }
{
    match statement {
        Statement::Insert { label, .. } => labels.bind(alloc, label, row),
        _ => Ok(()),
    }
}

/// The same of the statement at a place of the script, where one is there.
fn bind_next(
    alloc: Global,
    labels: &mut Labels,
    script: &[Statement],
    told: usize,
    row: RowNo,
) -> Result<(), NoMemory>
    ensures bound { OnOk result (IsBoundIn (slice_get script.now told) row labels.old labels.new) }
{
    match script.get(told) {
        Some(statement) => bind_label(alloc, labels, statement, row),
        None => Ok(()),
    }
}

/// After an event of the statement at a place of the script: where it inserted a row, the label stands for it.
pub fn bind_turned(
    alloc: Global,
    labels: &mut Labels,
    script: &[Statement],
    told: usize,
    turned: &Turned,
) -> Result<(), NoMemory>
    ensures bound { OnOk result (AreBoundTurned (slice_get script.now told) turned.now labels.old labels.new) }
{
    match inserted_in(turned) {
        Some(row) => bind_next(alloc, labels, script, told, row),
        None => Ok(()),
    }
}
