// The script that is made from a number: its text, and what is read of it.
ghost use Rattle.std.specs.Prelude.{◌≡◌, ◌++◌, ◌∷◌, IfOk, OnOk};
ghost use Rattle.script_text.specs.Spelled.{printed, statement_line, statement_lines};
ghost use Rattle.script_gen.specs.Generated.{commit_after, delete_of, deletes_at, deletes_to, ending, generated, insert_of, inserts_to, making};

use crate::drawing::{first_number, next_number, row_of};
use script_text::{ALL_FORMS, ScriptFault, Scripts, parse};
use seg_base::NoMemory;
use std::alloc::Global;
use text_port::{put, put_number};

/// A commit stands after so many inserts.
const INSERTS: u16 = 100;

fn put_making(out: &mut Vec<u8>) -> Result<(), NoMemory>
    ensures { OnOk result (out.new.items ≡ out.old.items ++ statement_lines making) }
{
    put(out, b"table g 10\nmovement g on\n")
}

/// The insert of a row, with what the number draws.
fn put_insert(alloc: Global, out: &mut Vec<u8>, row: u16, x: u32) -> Result<(), NoMemory>
    ensures { OnOk result (out.new.items ≡ out.old.items ++ statement_line (insert_of row x)) }
{
    put(out, b"insert g @r")?;
    put_number(out, u64::from(row))?;
    put(out, b" ")?;
    let text = row_of(alloc, x)?;
    put(out, &text)?;
    put(out, b"\n")
}

/// The commit that stands after the insert of a row of so many, where one does.
#[tactic(auto, unfolding(script_text::specs::Spelled::statement_line))]
fn put_commit_after(out: &mut Vec<u8>, rows: u16, row: u16) -> Result<(), NoMemory>
    ensures { OnOk result (out.new.items ≡ out.old.items ++ statement_lines (commit_after rows row)) }
{
    if row % INSERTS == 0 || row == rows {
        return put(out, b"commit\n");
    }
    Ok(())
}

/// A row of so many.
fn put_row(alloc: Global, out: &mut Vec<u8>, rows: u16, row: u16, x: u32) -> Result<(), NoMemory>
    ensures { OnOk result (out.new.items ≡ out.old.items ++ statement_lines (insert_of row x ∷ commit_after rows row)) }
{
    put_insert(alloc, out, row, x)?;
    put_commit_after(out, rows, row)
}

fn put_inserts(alloc: Global, out: &mut Vec<u8>, number: u32, rows: u16) -> Result<(), NoMemory>
    ensures { OnOk result (out.new.items ≡ out.old.items ++ statement_lines (inserts_to number rows rows)) }
{
    let mut x = first_number(number);
    for before in 0..rows {
        x = next_number(x);
        put_row(alloc, out, rows, before + 1, x)?;
    }
    Ok(())
}

fn put_delete(out: &mut Vec<u8>, row: u16) -> Result<(), NoMemory>
    ensures { OnOk result (out.new.items ≡ out.old.items ++ statement_line (delete_of row)) }
{
    put(out, b"delete g @r")?;
    put_number(out, u64::from(row))?;
    put(out, b"\n")
}

/// The delete of a row, where it is one that is deleted.
fn put_delete_at(out: &mut Vec<u8>, row: u16) -> Result<(), NoMemory>
    ensures { OnOk result (out.new.items ≡ out.old.items ++ statement_lines (deletes_at row)) }
{
    if row % 2 != 0 {
        return Ok(());
    }
    put_delete(out, row)
}

fn put_deletes(out: &mut Vec<u8>, rows: u16) -> Result<(), NoMemory>
    ensures { OnOk result (out.new.items ≡ out.old.items ++ statement_lines (deletes_to rows)) }
{
    for before in 0..rows {
        put_delete_at(out, before + 1)?;
    }
    Ok(())
}

#[tactic(auto, unfolding(script_text::specs::Spelled::statement_line))]
fn put_ending(out: &mut Vec<u8>) -> Result<(), NoMemory>
    ensures { OnOk result (out.new.items ≡ out.old.items ++ statement_lines ending) }
{
    put(out, b"commit\nshrink g\nscan g\n")
}

fn text_of(alloc: Global, number: u32, rows: u16) -> Result<Vec<u8>, NoMemory>
    ensures { IfOk result (λ text. text.items ≡ printed (generated number rows)) }
{
    let mut out = Vec::new(alloc);
    put(&mut out, b"session 1\n")?;
    put_making(&mut out)?;
    put_inserts(alloc, &mut out, number, rows)?;
    put_deletes(&mut out, rows)?;
    put_ending(&mut out)?;
    Ok(out)
}

/// The script of one session that is made from a number: so many inserts of rows that the number draws, with commits between
/// them, deletes of each second row, then a shrink and a scan. Its text is read as any script's.
pub fn generate(alloc: Global, number: u32, rows: u16) -> Result<Scripts, NoMemory>
    ensures { IfOk result (λ scripts. scripts ≡ generated number rows) }
{
    let text = text_of(alloc, number, rows)?;
    match parse(alloc, &ALL_FORMS, &text) {
        Ok(scripts) => Ok(scripts),
        Err(ScriptFault::NoMemory) => Err(NoMemory),
        Err(ScriptFault::BadLine { .. }) => unreachable!(),
    }
}
