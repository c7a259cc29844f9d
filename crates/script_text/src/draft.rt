// What was read of a script so far.
ghost use Rattle.std.specs.Prelude.{◌≡◌, ◌≤◌, option_copied, IfOk, [], Some};
ghost use Rattle.script_text.specs.Parsed.{Gives, Becomes};
ghost use Rattle.script_text.specs.Grammar.{nothing_read, closed_of, is_passed_over, is_session, is_schedule, is_out_of_order, is_just, next_session, session_of, schedule_of, bound, added, joined, rowed, formed, worded, line_of};

use crate::form::{Form, Forms, form_of, is_open, is_ready};
use crate::labels::Labels;
use crate::pieces::{are_text_bytes, cut, number};
use crate::row::row;
use crate::schedule::add_items;
use crate::statement::{Statement, Turns};
use crate::why::{LineFault, Why};
use seg_base::{MOST_SESSIONS, NoMemory, Sequence};
use std::alloc::Global;
use std::mem;

/// The sessions so far, of which the last one is still open, with the labels of all of them, and the schedule.
#[derive(Drop)]
pub struct Draft {
    /// How many sessions, with the open one.
    pub count: u8,
    pub closed: Sequence<Sequence<Statement>>,
    pub current: Sequence<Statement>,
    pub labels: Labels,
    pub schedule: Sequence<Turns>,
}

impl Draft {
    pub fn new(alloc: Global) -> Draft
        ensures { result ≡ nothing_read }
    {
        Draft {
            count: 0,
            closed: Sequence::new(alloc),
            current: Sequence::new(alloc),
            labels: Labels::new(alloc),
            schedule: Sequence::new(alloc),
        }
    }
}

/// Whether the line is empty or a comment.
fn is_passed_over(line: &[u8]) -> bool
    ensures { result ≡ is_passed_over line.now }
{
    match line {
        [] => true,
        [_] => false,
        [a, b, ..] => *a == b'-' && *b == b'-',
    }
}

fn is_session(form: Option<Form>) -> bool
    ensures { result ≡ is_session form }
{
    match form {
        Some(Form::Session) => true,
        _ => false,
    }
}

fn is_schedule(form: Option<Form>) -> bool
    ensures { result ≡ is_schedule form }
{
    match form {
        Some(Form::Schedule) => true,
        _ => false,
    }
}

/// Whether no line of this form may stand here.
fn is_out_of_order(draft: &Draft, form: Option<Form>) -> bool
    ensures { result ≡ is_out_of_order draft.now form }
{
    if draft.count == 0 {
        return !is_session(form);
    }
    if draft.schedule.as_slice().is_empty() {
        return false;
    }
    !is_schedule(form)
}

/// Closes the open session, where there is one.
fn close(alloc: Global, draft: &mut Draft) -> Result<(), NoMemory>
    ensures { IfOk result (λ _. draft.new ≡ record draft.old { closed = closed_of draft.old; current = [] }) }
{
    let finished = mem::replace(&mut draft.current, Sequence::new(alloc));
    if draft.count > 0 {
        draft.closed.push(finished)?;
    }
    Ok(())
}

/// `N`, the next of the numbers 1 to 64
fn session_of(
    alloc: Global,
    forms: &Forms,
    draft: &mut Draft,
    digits: &[u8],
) -> Result<(), LineFault>
    ensures { Becomes result draft.new (session_of forms.now draft.old (Some digits.now)) }
{
    let Some(next) = number(digits, u64::from(MOST_SESSIONS)) else {
        return Err(LineFault::Bad(Why::SessionOrder));
    };
    if next != u64::from(draft.count) + 1 {
        return Err(LineFault::Bad(Why::SessionOrder));
    }
    if draft.count > 0 && !forms.sessions {
        return Err(LineFault::Bad(Why::NotAStatement));
    }
    close(alloc, draft)?;
    draft.count = next as u8;
    Ok(())
}

/// `I ..`
fn schedule_of(forms: &Forms, draft: &mut Draft, items: &[u8]) -> Result<(), LineFault>
    ensures { Becomes result draft.new (schedule_of forms.now draft.old (Some items.now)) }
{
    if !forms.schedule {
        return Err(LineFault::Bad(Why::NotAStatement));
    }
    add_items(forms, draft.count, items, &mut draft.schedule)
}

/// Binds the statement's label, where it has one.
fn bind(alloc: Global, labels: &mut Labels, statement: &Statement) -> Result<(), LineFault>
    ensures { Becomes result labels.new (bound labels.old statement.now) }
{
    let Statement::Insert { label, .. } = statement else {
        return Ok(());
    };
    if labels.bind(alloc, label.as_slice())? {
        Ok(())
    } else {
        Err(LineFault::Bad(Why::DuplicateLabel))
    }
}

/// Adds a statement to the open session.
fn add(alloc: Global, draft: &mut Draft, statement: Statement) -> Result<(), LineFault>
    ensures { Becomes result draft.new (added draft.old statement) }
{
    bind(alloc, &mut draft.labels, &statement)?;
    Ok(draft.current.push(statement)?)
}

/// The same, where it is a statement yet.
fn join(
    alloc: Global,
    forms: &Forms,
    draft: &mut Draft,
    statement: Statement,
) -> Result<(), LineFault>
    ensures { Becomes result draft.new (joined forms.now draft.old statement) }
{
    if !is_ready(forms, &statement) {
        return Err(LineFault::Bad(Why::NotAStatement));
    }
    add(alloc, draft, statement)
}

/// Adds the statement of a line of this form.
fn add_row(
    alloc: Global,
    forms: &Forms,
    draft: &mut Draft,
    form: Form,
    rest: Option<&[u8]>,
) -> Result<(), LineFault>
    ensures { Becomes result draft.new (rowed forms.now draft.old form (option_copied rest.entry)) }
{
    if !is_open(forms, form) {
        return Err(LineFault::Bad(Why::NotAStatement));
    }
    let statement = row(alloc, form, rest)?;
    join(alloc, forms, draft, statement)
}

fn add_formed(
    alloc: Global,
    forms: &Forms,
    draft: &mut Draft,
    form: Option<Form>,
    rest: Option<&[u8]>,
) -> Result<(), LineFault>
    ensures { Becomes result draft.new (formed forms.now draft.old form (option_copied rest.entry)) }
{
    match form {
        None => Err(LineFault::Bad(Why::NotAStatement)),
        Some(Form::Session) => match rest {
            Some(digits) => session_of(alloc, forms, draft, digits),
            None => Err(LineFault::Bad(Why::SessionOrder)),
        },
        Some(Form::Schedule) => match rest {
            Some(items) => schedule_of(forms, draft, items),
            None => Err(LineFault::Bad(Why::NotAStatement)),
        },
        Some(form) => add_row(alloc, forms, draft, form, rest),
    }
}

/// Adds what a line asks for, or says why it is refused; then the draft is of no use.
#[tactic(auto, unfolding(crate::specs::Grammar::line_of))]
pub fn add_line(
    alloc: Global,
    forms: &Forms,
    draft: &mut Draft,
    line: &[u8],
) -> Result<(), LineFault>
    ensures { Becomes result draft.new (line_of forms.now draft.old line.now) }
{
    if is_passed_over(line) {
        return Ok(());
    }
    if !are_text_bytes(line) {
        return Err(LineFault::Bad(Why::BadByte));
    }
    let (word, rest) = cut(line, b' ');
    let form = form_of(word);
    if is_out_of_order(draft, form) {
        return Err(LineFault::Bad(Why::SessionOrder));
    }
    add_formed(alloc, forms, draft, form, rest)
}
