// From a script's bytes to its sessions.
ghost use Rattle.std.specs.Prelude.{◌≡◌, ◌<◌, ◌^◌, length, IfOk};
ghost use Rattle.std.specs.Str.Lines.{lines};
ghost use Rattle.script_text.specs.Grammar.{nothing_read, at_line, line_of, script_of, read_lines, scripts_of};
ghost use Rattle.script_text.specs.Parsed.{Reads, Parses};
ghost use Rattle.script_text.specs.Spelled.{IsScript};

use crate::draft::{Draft, add_line};
use crate::form::{ALL_FORMS, Forms};
use crate::pieces::first_line;
use crate::scripts::Scripts;
use crate::why::{LineFault, ScriptFault};
use seg_base::NoMemory;
use std::alloc::Global;

/// Adds what the line with this number asks for.
fn read_line(
    alloc: Global,
    forms: &Forms,
    draft: &mut Draft,
    number: u32,
    line: &[u8],
) -> Result<(), ScriptFault>
    ensures { Reads result draft.new (at_line number (line_of forms.now draft.old line.now)) }
{
    match add_line(alloc, forms, draft, line) {
        Ok(()) => Ok(()),
        Err(LineFault::Bad(why)) => Err(ScriptFault::BadLine { line: number, why }),
        Err(LineFault::NoMemory) => Err(ScriptFault::NoMemory),
    }
}

fn into_scripts(draft: Draft) -> Result<Scripts, NoMemory>
    requires { IsScript ALL_FORMS (script_of draft) }
    ensures { IfOk result (λ scripts. scripts ≡ script_of draft) }
{
    let Draft {
        count,
        closed,
        current,
        labels: _,
        schedule,
    } = draft;
    let mut sessions = closed;
    if count > 0 {
        sessions.push(current)?;
    }
    Ok(Scripts::from_parts(sessions, schedule))
}

/// What the lines of a text ask for.
fn read_lines(alloc: Global, forms: &Forms, text: &[u8]) -> Result<Draft, ScriptFault>
    requires { length (lines text.now) < 2 ^ 32 }
    ensures { Parses result (read_lines forms.now nothing_read 0 (lines text.now)) }
{
    let mut draft = Draft::new(alloc);
    let mut number = 0;
    let mut rest = text;
    while !rest.is_empty() {
        let (line, after) = first_line(rest);
        number += 1;
        read_line(alloc, forms, &mut draft, number, line)?;
        rest = after;
    }
    Ok(draft)
}

/// What the bytes of a script spell where these forms are built, or its first bad line: for every script, and nothing else is refused
/// but by want of memory. A line of a form that isn't built is no statement.
pub fn parse(alloc: Global, forms: &Forms, text: &[u8]) -> Result<Scripts, ScriptFault>
    requires { length (lines text.now) < 2 ^ 32 }
    ensures read { Parses result (scripts_of forms.now text.now) }
    ensures built { IfOk result (λ scripts. IsScript forms.now scripts) }
{
    let draft = read_lines(alloc, forms, text)?;
    Ok(into_scripts(draft)?)
}
