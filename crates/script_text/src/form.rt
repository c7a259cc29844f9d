// The forms of lines.
ghost use Rattle.std.specs.Prelude.{◌≡◌};
ghost use Rattle.script_text.specs.Forms.{word_of, form_of, later_form_of, is_open, is_ready};

use crate::statement::Statement;

/// The form of a line, told by its first word.
#[derive(Clone, Copy, Debug, PartialEq, Eq, Drop)]
pub enum Form {
    Session,
    Table,
    Movement,
    Insert,
    Update,
    Delete,
    Commit,
    Rollback,
    Scan,
    Shrink,
    Usage,
    Fix,
    Repair,
    Checkpoint,
    Schedule,
}

/// Which of the forms that come later are built: a line of another one is no statement.
#[derive(Clone, Copy, Debug, PartialEq, Eq, Drop)]
pub struct Forms {
    /// Sessions after the first.
    pub sessions: bool,
    pub schedule: bool,
    /// Items of the schedule for 0.
    pub flushes: bool,
    /// Shrinks that only compact.
    pub compact: bool,
    /// The other shrinks, which also lower their table's marks.
    pub shrink: bool,
    pub usage: bool,
    pub fix: bool,
    pub repair: bool,
    pub checkpoint: bool,
}

/// The whole grammar.
pub const ALL_FORMS: Forms = Forms {
    sessions: true,
    schedule: true,
    flushes: true,
    compact: true,
    shrink: true,
    usage: true,
    fix: true,
    repair: true,
    checkpoint: true,
};

/// The form of a line with this first word.
#[tactic(auto, unfolding(crate::specs::Forms::form_of))]
pub fn form_of(word: &[u8]) -> Option<Form>
    ensures { result ≡ form_of word.now }
{
    if word == b"session".as_slice() {
        return Some(Form::Session);
    }
    if word == b"table".as_slice() {
        return Some(Form::Table);
    }
    if word == b"movement".as_slice() {
        return Some(Form::Movement);
    }
    if word == b"insert".as_slice() {
        return Some(Form::Insert);
    }
    if word == b"update".as_slice() {
        return Some(Form::Update);
    }
    if word == b"delete".as_slice() {
        return Some(Form::Delete);
    }
    if word == b"commit".as_slice() {
        return Some(Form::Commit);
    }
    if word == b"rollback".as_slice() {
        return Some(Form::Rollback);
    }
    later_form_of(word)
}

fn later_form_of(word: &[u8]) -> Option<Form>
    ensures { result ≡ later_form_of word.now }
{
    if word == b"scan".as_slice() {
        return Some(Form::Scan);
    }
    if word == b"shrink".as_slice() {
        return Some(Form::Shrink);
    }
    if word == b"usage".as_slice() {
        return Some(Form::Usage);
    }
    if word == b"fix".as_slice() {
        return Some(Form::Fix);
    }
    if word == b"repair".as_slice() {
        return Some(Form::Repair);
    }
    if word == b"checkpoint".as_slice() {
        return Some(Form::Checkpoint);
    }
    if word == b"schedule".as_slice() {
        return Some(Form::Schedule);
    }
    None
}

/// The first word of a form's lines.
pub fn word_of(form: Form) -> &'static [u8]
    ensures { result.now ≡ word_of form }
{
    match form {
        Form::Session => b"session",
        Form::Table => b"table",
        Form::Movement => b"movement",
        Form::Insert => b"insert",
        Form::Update => b"update",
        Form::Delete => b"delete",
        Form::Commit => b"commit",
        Form::Rollback => b"rollback",
        Form::Scan => b"scan",
        Form::Shrink => b"shrink",
        Form::Usage => b"usage",
        Form::Fix => b"fix",
        Form::Repair => b"repair",
        Form::Checkpoint => b"checkpoint",
        Form::Schedule => b"schedule",
    }
}

/// Whether lines of the form are statements yet.
pub fn is_open(forms: &Forms, form: Form) -> bool
    ensures { result ≡ is_open forms.now form }
{
    match form {
        Form::Shrink => forms.compact,
        Form::Usage => forms.usage,
        Form::Fix => forms.fix,
        Form::Repair => forms.repair,
        Form::Checkpoint => forms.checkpoint,
        _ => true,
    }
}

/// Whether the statement, of a form that is open, is one yet.
pub fn is_ready(forms: &Forms, statement: &Statement) -> bool
    ensures { result ≡ is_ready forms.now statement.now }
{
    match statement {
        Statement::Shrink { compact, .. } => *compact || forms.shrink,
        _ => true,
    }
}
