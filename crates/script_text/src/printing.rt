// Scripts as they are printed.
ghost use Rattle.std.specs.Prelude.{◌≡◌, ◌++◌, ◌∷◌, [], IfOk, OnOk, Ok, false, codes, decimal};
ghost use Rattle.seg_words.specs.Types.{list_any};
ghost use Rattle.std.specs.Str.Lines.{lines};
ghost use Rattle.script_text.specs.Grammar.{is_passed_over, scripts_of};
ghost use Rattle.script_text.specs.Spelled.{IsScript, form_of, behind, tail_of, switch_text, target_text, compact_text, value_text, statement_line, statement_lines, session_line, session_lines, item_text, items_text, schedule_line, printed};

use crate::form::{ALL_FORMS, Form, Forms, word_of};
use crate::scripts::Scripts;
use crate::statement::{Statement, Target, Turns};
use seg_base::{NoMemory, Sequence};
use std::alloc::Global;
use text_port::{put, put_number};

/// Adds a space and a word.
fn put_word(out: &mut Vec<u8>, word: &[u8]) -> Result<(), NoMemory>
    ensures { OnOk result (out.new.items ≡ out.old.items ++ (codes " " ++ word.now)) }
{
    put(out, b" ")?;
    put(out, word)
}

/// Adds a space and a number.
fn put_numeral(out: &mut Vec<u8>, number: u64) -> Result<(), NoMemory>
    ensures { OnOk result (out.new.items ≡ out.old.items ++ (codes " " ++ decimal number)) }
{
    put(out, b" ")?;
    put_number(out, number)
}

fn switch_text(on: bool) -> &'static [u8]
    ensures { result.now ≡ switch_text on }
{
    if on { b"on" } else { b"off" }
}

fn compact_text(compact: bool) -> &'static [u8]
    ensures { result.now ≡ compact_text compact }
{
    if compact { b" compact" } else { b"" }
}

fn put_target(out: &mut Vec<u8>, target: &Target) -> Result<(), NoMemory>
    ensures { OnOk result (out.new.items ≡ out.old.items ++ (codes " " ++ target_text target.now)) }
{
    match target {
        Target::Label(label) => {
            put(out, b" @")?;
            put(out, label.as_slice())
        }
        Target::Number(row) => {
            put(out, b" #")?;
            put_number(out, row.0)
        }
    }
}

fn put_value(out: &mut Vec<u8>, value: Option<u32>) -> Result<(), NoMemory>
    ensures { OnOk result (out.new.items ≡ out.old.items ++ value_text value) }
{
    match value {
        Some(value) => put_numeral(out, u64::from(value)),
        None => Ok(()),
    }
}

fn put_insert(out: &mut Vec<u8>, table: &[u8], label: &[u8], text: &[u8]) -> Result<(), NoMemory>
    ensures { OnOk result (out.new.items ≡ out.old.items ++ (codes " " ++ (table.now ++ (codes " @" ++ (label.now ++ (codes " " ++ text.now)))))) }
{
    put_word(out, table)?;
    put(out, b" @")?;
    put(out, label)?;
    put_word(out, text)
}

fn put_update(out: &mut Vec<u8>, table: &[u8], target: &Target, text: &[u8]) -> Result<(), NoMemory>
    ensures { OnOk result (out.new.items ≡ out.old.items ++ (codes " " ++ (table.now ++ (codes " " ++ (target_text target.now ++ (codes " " ++ text.now)))))) }
{
    put_word(out, table)?;
    put_target(out, target)?;
    put_word(out, text)
}

fn put_fix(out: &mut Vec<u8>, table: &[u8], block: u64, value: Option<u32>) -> Result<(), NoMemory>
    ensures { OnOk result (out.new.items ≡ out.old.items ++ (codes " " ++ (table.now ++ (codes " " ++ (decimal block ++ value_text value))))) }
{
    put_word(out, table)?;
    put_numeral(out, block)?;
    put_value(out, value)
}

/// Adds what stands behind the first word of a statement's line.
fn put_behind(out: &mut Vec<u8>, statement: &Statement) -> Result<(), NoMemory>
    ensures { OnOk result (out.new.items ≡ out.old.items ++ tail_of (behind statement.now)) }
{
    match statement {
        Statement::Table { name, pctfree } => {
            put_word(out, name.as_slice())?;
            put_numeral(out, u64::from(*pctfree))
        }
        Statement::Movement { table, on } => {
            put_word(out, table.as_slice())?;
            put_word(out, switch_text(*on))
        }
        Statement::Insert { table, label, text } => {
            put_insert(out, table.as_slice(), label.as_slice(), text.as_slice())
        }
        Statement::Update {
            table,
            target,
            text,
        } => put_update(out, table.as_slice(), target, text.as_slice()),
        Statement::Delete { table, target } => {
            put_word(out, table.as_slice())?;
            put_target(out, target)
        }
        Statement::Shrink { table, compact } => {
            put_word(out, table.as_slice())?;
            put(out, compact_text(*compact))
        }
        Statement::Fix {
            table,
            block,
            value,
        } => put_fix(out, table.as_slice(), u64::from(block.0), *value),
        Statement::Scan { table } | Statement::Usage { table } | Statement::Repair { table } => {
            put_word(out, table.as_slice())
        }
        Statement::Commit | Statement::Rollback | Statement::Checkpoint => Ok(()),
    }
}

/// The form of a statement's line.
fn form_of(statement: &Statement) -> Form
    ensures { result ≡ form_of statement.now }
{
    match statement {
        Statement::Table { .. } => Form::Table,
        Statement::Movement { .. } => Form::Movement,
        Statement::Insert { .. } => Form::Insert,
        Statement::Update { .. } => Form::Update,
        Statement::Delete { .. } => Form::Delete,
        Statement::Commit => Form::Commit,
        Statement::Rollback => Form::Rollback,
        Statement::Scan { .. } => Form::Scan,
        Statement::Shrink { .. } => Form::Shrink,
        Statement::Usage { .. } => Form::Usage,
        Statement::Fix { .. } => Form::Fix,
        Statement::Repair { .. } => Form::Repair,
        Statement::Checkpoint => Form::Checkpoint,
    }
}

#[tactic(auto, unfolding(crate::specs::Spelled::statement_line))]
fn put_statement(out: &mut Vec<u8>, statement: &Statement) -> Result<(), NoMemory>
    ensures { OnOk result (out.new.items ≡ out.old.items ++ statement_line statement.now) }
{
    put(out, word_of(form_of(statement)))?;
    put_behind(out, statement)?;
    put(out, b"\n")
}

fn put_statements(out: &mut Vec<u8>, statements: &[Statement]) -> Result<(), NoMemory>
    ensures { OnOk result (out.new.items ≡ out.old.items ++ statement_lines statements.now) }
{
    for statement in statements {
        put_statement(out, statement)?;
    }
    Ok(())
}

#[tactic(auto, unfolding(crate::specs::Spelled::session_line))]
fn put_session(out: &mut Vec<u8>, number: u64) -> Result<(), NoMemory>
    ensures { OnOk result (out.new.items ≡ out.old.items ++ session_line number) }
{
    put(out, b"session ")?;
    put_number(out, number)?;
    put(out, b"\n")
}

fn put_sessions(out: &mut Vec<u8>, sessions: &[Sequence<Statement>]) -> Result<(), NoMemory>
    ensures { OnOk result (out.new.items ≡ out.old.items ++ session_lines 1 sessions.now) }
{
    let mut number = 1;
    for session in sessions {
        put_session(out, number)?;
        put_statements(out, session.as_slice())?;
        number += 1;
    }
    Ok(())
}

#[tactic(auto, unfolding(crate::specs::Spelled::item_text))]
fn put_item(out: &mut Vec<u8>, turns: Turns) -> Result<(), NoMemory>
    ensures { OnOk result (out.new.items ≡ out.old.items ++ item_text turns) }
{
    put_number(out, u64::from(turns.who))?;
    if turns.times == 1 {
        return Ok(());
    }
    put(out, b"x")?;
    put_number(out, u64::from(turns.times))
}

fn put_items(out: &mut Vec<u8>, schedule: &[Turns]) -> Result<(), NoMemory>
    ensures { OnOk result (out.new.items ≡ out.old.items ++ items_text schedule.now) }
{
    for turns in schedule {
        put(out, b" ")?;
        put_item(out, *turns)?;
    }
    Ok(())
}

fn put_schedule(out: &mut Vec<u8>, schedule: &[Turns]) -> Result<(), NoMemory>
    ensures { OnOk result (out.new.items ≡ out.old.items ++ schedule_line schedule.now) }
{
    if schedule.is_empty() {
        return Ok(());
    }
    put(out, b"schedule")?;
    put_items(out, schedule)?;
    put(out, b"\n")
}

#[tactic(auto, unfolding(crate::specs::Spelled::printed))]
fn printed(alloc: Global, scripts: &Scripts) -> Result<Vec<u8>, NoMemory>
    ensures text { IfOk result (λ out. out.items ≡ printed scripts.now) }
    ensures spelled { IsScript ALL_FORMS scripts.now }
{
    let mut out = Vec::new(alloc);
    put_sessions(&mut out, scripts.sessions())?;
    put_schedule(&mut out, scripts.schedule())?;
    Ok(out)
}

/// The bytes of a script, without comments and empty lines: parsed again they give the same script, where the forms of
/// its lines are built.
#[tactic(auto, using(crate::proofs::ScriptSaid::printed_says, crate::proofs::PrintedLines::none_passed))]
pub fn print(alloc: Global, scripts: &Scripts) -> Result<Vec<u8>, NoMemory>
    ensures text { IfOk result (λ out. out.items ≡ printed scripts.now) }
    ensures again { IfOk result (λ out. (forms : Forms) → IsScript forms scripts.now → scripts_of forms out.items ≡ Ok scripts.now) }
    ensures plain { IfOk result (λ out. list_any is_passed_over (lines out.items) ≡ false) }
{
    printed(alloc, scripts)
}
