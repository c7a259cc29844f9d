// The statement of a line, by its form and what stands behind its first word. Each function tests in the order of the
// faults.
ghost use Rattle.std.specs.Prelude.{◌≡◌, option_copied, ok_or, Ok, Err, if◌then◌else◌};
ghost use Rattle.script_text.specs.declared.why.Why.TheVariants.{NotAStatement};
ghost use Rattle.script_text.specs.Parsed.{Gives};
ghost use Rattle.script_text.specs.Rows.{named, label_in, marked, numbered, labelled, target_of, text_of, switch_of, compact_of, one_name, table_of, movement_of, insert_of, update_of, delete_of, shrink_of, fix_block, fix_value, fix_with, fix_of, scan_of, usage_of, repair_of, row_alone, row_with, row};

use crate::form::Form;
use crate::limit::{MOST_NUMBER, MOST_ROW_NUMBER};
use crate::pieces::{cut, is_word, last_word, number, ordinal};
use crate::statement::{Statement, Target};
use crate::why::{LineFault, Why};
use seg_base::{Dba, LONGEST_ROW, MOST_PCTFREE, Name, RowNo, Text};
use std::alloc::Global;

const NOT_A_STATEMENT: LineFault = LineFault::Bad(Why::NotAStatement);

const BAD_NUMBER: LineFault = LineFault::Bad(Why::BadNumber);

fn named(alloc: Global, word: &[u8]) -> Result<Name, LineFault>
    ensures { Gives result (named word.now) }
{
    match Name::copy(alloc, word)? {
        Some(name) => Ok(name),
        None => Err(LineFault::Bad(Why::BadName)),
    }
}

/// What follows the sign of a label.
fn label_in(word: &[u8]) -> Option<&[u8]>
    ensures { ok_or (option_copied result) NotAStatement ≡ label_in word.now }
{
    match word {
        [b'@', label @ ..] => Some(label),
        _ => None,
    }
}

/// Whether a word has the sign of a label or of a row number.
fn is_marked(word: &[u8]) -> bool
    ensures { (if result then Ok word.now else Err NotAStatement) ≡ marked word.now }
{
    match word {
        [b'@' | b'#', ..] => true,
        _ => false,
    }
}

fn numbered(digits: &[u8]) -> Result<Target, LineFault>
    ensures { Gives result (numbered digits.now) }
{
    match ordinal(digits, MOST_ROW_NUMBER) {
        Some(row) => Ok(Target::Number(RowNo(row))),
        None => Err(BAD_NUMBER),
    }
}

fn labelled(alloc: Global, label: &[u8]) -> Result<Target, LineFault>
    ensures { Gives result (labelled label.now) }
{
    let name = named(alloc, label)?;
    Ok(Target::Label(name))
}

/// `@K` or `#N`
fn target_of(alloc: Global, word: &[u8]) -> Result<Target, LineFault>
    ensures { Gives result (target_of word.now) }
{
    match word {
        [b'@', label @ ..] => labelled(alloc, label),
        [_, digits @ ..] => numbered(digits),
        [] => Err(NOT_A_STATEMENT),
    }
}

fn text_of(alloc: Global, bytes: &[u8]) -> Result<Text, LineFault>
    ensures { Gives result (text_of bytes.now) }
{
    if bytes.is_empty() {
        return Err(LineFault::Bad(Why::RowEmpty));
    }
    if bytes.len() > LONGEST_ROW {
        return Err(LineFault::Bad(Why::RowTooLong));
    }
    Ok(Text::copy(alloc, bytes)?)
}

fn switch_of(word: Option<&[u8]>) -> Result<bool, LineFault>
    ensures { Gives result (switch_of (option_copied word.entry)) }
{
    let Some(word) = word else {
        return Err(NOT_A_STATEMENT);
    };
    if word == b"on".as_slice() {
        Ok(true)
    } else if word == b"off".as_slice() {
        Ok(false)
    } else {
        Err(NOT_A_STATEMENT)
    }
}

fn compact_of(word: Option<&[u8]>) -> Result<bool, LineFault>
    ensures { Gives result (compact_of (option_copied word.entry)) }
{
    let Some(word) = word else {
        return Ok(false);
    };
    if word == b"compact".as_slice() {
        Ok(true)
    } else {
        Err(NOT_A_STATEMENT)
    }
}

/// `T P`
#[tactic(auto, unfolding(crate::specs::Rows::table_of))]
fn table_of(alloc: Global, rest: &[u8]) -> Result<Statement, LineFault>
    ensures { Gives result (table_of rest.now) }
{
    let (name, after) = cut(rest, b' ');
    let Some(percent) = last_word(after) else {
        return Err(NOT_A_STATEMENT);
    };
    let name = named(alloc, name)?;
    let Some(pctfree) = number(percent, u64::from(MOST_PCTFREE)) else {
        return Err(BAD_NUMBER);
    };
    Ok(Statement::Table {
        name,
        pctfree: pctfree as u8,
    })
}

/// `T on`, `T off`
#[tactic(auto, unfolding(crate::specs::Rows::movement_of))]
fn movement_of(alloc: Global, rest: &[u8]) -> Result<Statement, LineFault>
    ensures { Gives result (movement_of rest.now) }
{
    let (table, after) = cut(rest, b' ');
    let on = switch_of(after)?;
    let table = named(alloc, table)?;
    Ok(Statement::Movement { table, on })
}

/// `T @K TEXT`
#[tactic(auto, unfolding(crate::specs::Rows::insert_of))]
fn insert_of(alloc: Global, rest: &[u8]) -> Result<Statement, LineFault>
    ensures { Gives result (insert_of rest.now) }
{
    let (table, after) = cut(rest, b' ');
    let Some(after) = after else {
        return Err(NOT_A_STATEMENT);
    };
    let (word, text) = cut(after, b' ');
    let Some(text) = text else {
        return Err(NOT_A_STATEMENT);
    };
    let Some(label) = label_in(word) else {
        return Err(NOT_A_STATEMENT);
    };
    let table = named(alloc, table)?;
    let label = named(alloc, label)?;
    let text = text_of(alloc, text)?;
    Ok(Statement::Insert { table, label, text })
}

/// `T @K TEXT`, `T #N TEXT`
#[tactic(auto, unfolding(crate::specs::Rows::update_of))]
fn update_of(alloc: Global, rest: &[u8]) -> Result<Statement, LineFault>
    ensures { Gives result (update_of rest.now) }
{
    let (table, after) = cut(rest, b' ');
    let Some(after) = after else {
        return Err(NOT_A_STATEMENT);
    };
    let (word, text) = cut(after, b' ');
    let Some(text) = text else {
        return Err(NOT_A_STATEMENT);
    };
    if !is_marked(word) {
        return Err(NOT_A_STATEMENT);
    }
    let table = named(alloc, table)?;
    let target = target_of(alloc, word)?;
    let text = text_of(alloc, text)?;
    Ok(Statement::Update {
        table,
        target,
        text,
    })
}

/// `T @K`, `T #N`
#[tactic(auto, unfolding(crate::specs::Rows::delete_of))]
fn delete_of(alloc: Global, rest: &[u8]) -> Result<Statement, LineFault>
    ensures { Gives result (delete_of rest.now) }
{
    let (table, after) = cut(rest, b' ');
    let Some(word) = last_word(after) else {
        return Err(NOT_A_STATEMENT);
    };
    if !is_marked(word) {
        return Err(NOT_A_STATEMENT);
    }
    let table = named(alloc, table)?;
    let target = target_of(alloc, word)?;
    Ok(Statement::Delete { table, target })
}

/// `T`
fn one_name(alloc: Global, rest: &[u8]) -> Result<Name, LineFault>
    ensures { Gives result (one_name rest.now) }
{
    if !is_word(rest) {
        return Err(NOT_A_STATEMENT);
    }
    named(alloc, rest)
}

/// `T`, `T compact`
#[tactic(auto, unfolding(crate::specs::Rows::shrink_of))]
fn shrink_of(alloc: Global, rest: &[u8]) -> Result<Statement, LineFault>
    ensures { Gives result (shrink_of rest.now) }
{
    let (table, after) = cut(rest, b' ');
    let compact = compact_of(after)?;
    let table = named(alloc, table)?;
    Ok(Statement::Shrink { table, compact })
}

fn fix_block(alloc: Global, name: &[u8], digits: &[u8]) -> Result<Statement, LineFault>
    ensures { Gives result (fix_block name.now digits.now) }
{
    let table = named(alloc, name)?;
    let Some(block) = number(digits, MOST_NUMBER) else {
        return Err(BAD_NUMBER);
    };
    Ok(Statement::Fix {
        table,
        block: Dba(block as u32),
        value: None,
    })
}

fn fix_value(alloc: Global, name: &[u8], digits: &[u8], last: &[u8]) -> Result<Statement, LineFault>
    ensures { Gives result (fix_value name.now digits.now last.now) }
{
    let table = named(alloc, name)?;
    let Some(block) = number(digits, MOST_NUMBER) else {
        return Err(BAD_NUMBER);
    };
    let Some(value) = number(last, MOST_NUMBER) else {
        return Err(BAD_NUMBER);
    };
    Ok(Statement::Fix {
        table,
        block: Dba(block as u32),
        value: Some(value as u32),
    })
}

/// `T B`, `T B V`
#[tactic(auto, unfolding(crate::specs::Rows::fix_of))]
fn fix_of(alloc: Global, rest: &[u8]) -> Result<Statement, LineFault>
    ensures { Gives result (fix_of rest.now) }
{
    let (name, after) = cut(rest, b' ');
    let Some(after) = after else {
        return Err(NOT_A_STATEMENT);
    };
    let (digits, last) = cut(after, b' ');
    let Some(last) = last else {
        return fix_block(alloc, name, digits);
    };
    if !is_word(last) {
        return Err(NOT_A_STATEMENT);
    }
    fix_value(alloc, name, digits, last)
}

fn row_alone(form: Form) -> Result<Statement, LineFault>
    ensures { Gives result (row_alone form) }
{
    match form {
        Form::Commit => Ok(Statement::Commit),
        Form::Rollback => Ok(Statement::Rollback),
        Form::Checkpoint => Ok(Statement::Checkpoint),
        _ => Err(NOT_A_STATEMENT),
    }
}

fn scan_of(alloc: Global, rest: &[u8]) -> Result<Statement, LineFault>
    ensures { Gives result (scan_of rest.now) }
{
    let table = one_name(alloc, rest)?;
    Ok(Statement::Scan { table })
}

fn usage_of(alloc: Global, rest: &[u8]) -> Result<Statement, LineFault>
    ensures { Gives result (usage_of rest.now) }
{
    let table = one_name(alloc, rest)?;
    Ok(Statement::Usage { table })
}

fn repair_of(alloc: Global, rest: &[u8]) -> Result<Statement, LineFault>
    ensures { Gives result (repair_of rest.now) }
{
    let table = one_name(alloc, rest)?;
    Ok(Statement::Repair { table })
}

fn row_with(alloc: Global, form: Form, rest: &[u8]) -> Result<Statement, LineFault>
    ensures { Gives result (row_with form rest.now) }
{
    match form {
        Form::Table => table_of(alloc, rest),
        Form::Movement => movement_of(alloc, rest),
        Form::Insert => insert_of(alloc, rest),
        Form::Update => update_of(alloc, rest),
        Form::Delete => delete_of(alloc, rest),
        Form::Scan => scan_of(alloc, rest),
        Form::Shrink => shrink_of(alloc, rest),
        Form::Usage => usage_of(alloc, rest),
        Form::Fix => fix_of(alloc, rest),
        Form::Repair => repair_of(alloc, rest),
        _ => Err(NOT_A_STATEMENT),
    }
}

/// The statement of a line of this form, by what stands behind its first word.
pub fn row(alloc: Global, form: Form, rest: Option<&[u8]>) -> Result<Statement, LineFault>
    ensures { Gives result (row form (option_copied rest.entry)) }
{
    match rest {
        Some(rest) => row_with(alloc, form, rest),
        None => row_alone(form),
    }
}
