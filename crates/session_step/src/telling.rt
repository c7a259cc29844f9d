// The start of a statement and its entry, as the history tells them.
ghost use Rattle.std.specs.Prelude.{◌≡◌, ◌≢◌, ◌≤◌, ◌<◌, ◌^◌, ◌-◌, false, true, OnOk, OnErr, IfOk};
ghost use Rattle.session_step.specs.Telling.{Begins, Ends, Finishes, GoesOnWith, IsDone, IsStarted, entry_ordinal};

use crate::session::Session;
use history_model::{HistoryItem, Start};
use history_text::Entry;
use seg_base::{Lsn, Newest, NoMemory};
use session_core::{Acted, Doing, Turned};

/// Whether nothing is under way.
fn is_waiting(doing: &Doing) -> bool
    ensures waits { result ≡ true → doing.now ≡ Doing.Waiting }
    ensures busy { result ≡ false → doing.now ≢ Doing.Waiting }
{
    match doing {
        Doing::Waiting => true,
        _ => false,
    }
}

/// The start of a session's next statement is told, unless one is under way. False where nothing is left of the session.
pub fn begin(
    history: &mut Newest<HistoryItem>,
    session: &mut Session,
    who: u8,
    statements: usize,
    records: Lsn,
) -> Result<bool, NoMemory>
    ensures on { IfOk result (λ more. more ≡ true → session.old.doing ≢ Doing.Waiting → GoesOnWith session.old session.new history.old history.new) }
    ensures first { IfOk result (λ more. more ≡ true → session.old.doing ≡ Doing.Waiting → IsStarted who statements records session.old session.new history.old history.new) }
    ensures done { IfOk result (λ more. more ≡ false → IsDone statements session.old) }
    ensures same { IfOk result (λ more. more ≡ false → (session.new ≡ session.old) × (history.new ≡ history.old)) }
    ensures told { session.new.told ≡ session.old.told }
    ensures begins { Begins history.old history.new }
    ensures failed { OnErr result ((session.new ≡ session.old) × (history.new ≡ history.old)) }
{
    if !is_waiting(&session.doing) {
        return Ok(true);
    }
    if session.told >= statements && session.own.is_none() {
        return Ok(false);
    }
    history.push(HistoryItem::Started(Start {
        session: who,
        begins: records,
    }))?;
    session.begins = records;
    Ok(true)
}

fn entry_ordinal(told: usize, statements: usize) -> Option<u32>
    requires { statements < 2 ^ 32 - 1 }
    ensures { result ≡ entry_ordinal statements told }
{
    if told < statements {
        return Some(told as u32 + 1);
    }
    None
}

/// The statement goes on, or its entry is told.
pub fn finish(
    history: &mut Newest<HistoryItem>,
    session: &mut Session,
    who: u8,
    statements: usize,
    records: Lsn,
    moment: u64,
    acted: Acted,
) -> Result<(), NoMemory>
    requires short { statements < 2 ^ 32 - 1 }
    requires few { session.old.told ≤ statements }
    ensures finishes { OnOk result (Finishes who statements records moment acted session.old session.new history.old history.new) }
    ensures ends { Ends session.old.told history.old session.new.told history.new }
    ensures failed { OnErr result ((session.new ≡ session.old) × (history.new ≡ history.old)) }
{
    let Acted { turned, own } = acted;
    match turned {
        Turned::On(doing) => {
            session.doing = doing;
            session.own = own;
            Ok(())
        }
        Turned::Over { outcome, kept } => {
            let entry = Entry {
                session: who,
                ordinal: entry_ordinal(session.told, statements),
                begins: session.begins,
                ends: records,
                moment,
                outcome,
            };
            history.push(HistoryItem::Told { entry, kept })?;
            session.told += 1;
            session.doing = Doing::Waiting;
            session.own = own;
            Ok(())
        }
    }
}
