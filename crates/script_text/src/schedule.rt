// The items of a schedule line.
ghost use Rattle.std.specs.Prelude.{◌≡◌, ◌≤◌, ◌++◌, option_copied, IfSome};
ghost use Rattle.seg_words.specs.Types.{list_all, list_any};
ghost use Rattle.script_text.specs.Pieces.{words};
ghost use Rattle.script_text.specs.Parsed.{Becomes};
ghost use Rattle.script_text.specs.Schedule.{times_of, is_item, is_flush, turns_in, items_of, with_turns};

use crate::form::Forms;
use crate::limit::MOST_TURNS;
use crate::pieces::{cut, is_number, number, ordinal};
use crate::statement::Turns;
use crate::why::{LineFault, Why};
use seg_base::Sequence;

/// How often: once, or as the number behind the `x` says.
fn times_of(digits: Option<&[u8]>) -> Option<u64>
    ensures times { result ≡ times_of (option_copied digits.entry) }
    ensures range { IfSome result (λ n. n ≤ MOST_TURNS) }
{
    match digits {
        Some(digits) => ordinal(digits, MOST_TURNS),
        None => Some(1),
    }
}

/// Whether it is `N` or `NxC`, whatever the number N.
fn is_item(item: &[u8]) -> bool
    ensures { result ≡ is_item item.now }
{
    let (who, times) = cut(item, b'x');
    is_number(who) && times_of(times).is_some()
}

/// Whether it is an item for 0.
fn is_flush(item: &[u8]) -> bool
    ensures { result ≡ is_flush item.now }
{
    let (who, _) = cut(item, b'x');
    who == b"0".as_slice()
}

#[tactic(auto, using(crate::proofs::Cuts::words_cut, crate::proofs::Cuts::left_shorter))]
fn are_items(items: &[u8]) -> bool
    ensures { result ≡ list_all is_item (words items.now) }
{
    let mut left = Some(items);
    while let Some(now) = left {
        let (item, after) = cut(now, b' ');
        if !is_item(item) {
            return false;
        }
        left = after;
    }
    true
}

#[tactic(auto, using(crate::proofs::Cuts::words_cut, crate::proofs::Cuts::left_shorter))]
fn has_flush(items: &[u8]) -> bool
    ensures { result ≡ list_any is_flush (words items.now) }
{
    let mut left = Some(items);
    while let Some(now) = left {
        let (item, after) = cut(now, b' ');
        if is_flush(item) {
            return true;
        }
        left = after;
    }
    false
}

/// The turns of an item for 0 or for one of so many sessions.
fn turns_in(sessions: u8, item: &[u8]) -> Option<Turns>
    ensures { result ≡ turns_in sessions item.now }
{
    let (who, times) = cut(item, b'x');
    let Some(who) = number(who, u64::from(sessions)) else {
        return None;
    };
    let Some(times) = times_of(times) else {
        return None;
    };
    Some(Turns {
        who: who as u8,
        times: times as u32,
    })
}

/// Adds the turns of well-formed items.
#[tactic(auto, using(crate::proofs::Cuts::words_cut, crate::proofs::Cuts::left_shorter))]
fn add_turns(sessions: u8, items: &[u8], schedule: &mut Sequence<Turns>) -> Result<(), LineFault>
    ensures { Becomes result schedule.new (with_turns schedule.old sessions (words items.now)) }
{
    let mut left = Some(items);
    while let Some(now) = left {
        let (item, after) = cut(now, b' ');
        let Some(turns) = turns_in(sessions, item) else {
            return Err(LineFault::Bad(Why::ScheduleSession));
        };
        schedule.push(turns)?;
        left = after;
    }
    Ok(())
}

/// Adds what the items of a line schedule. On a fault the schedule is of no use.
pub fn add_items(
    forms: &Forms,
    sessions: u8,
    items: &[u8],
    schedule: &mut Sequence<Turns>,
) -> Result<(), LineFault>
    ensures { Becomes result schedule.new (items_of forms.now schedule.old sessions (words items.now)) }
{
    if !forms.flushes && has_flush(items) {
        return Err(LineFault::Bad(Why::NotAStatement));
    }
    if !are_items(items) {
        return Err(LineFault::Bad(Why::BadNumber));
    }
    add_turns(sessions, items, schedule)
}
