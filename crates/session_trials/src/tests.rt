// Sessions over a store of three extents, whose undo blocks are 37 and 38. The first table's data blocks are 43 to 46, 48 to 54 and
// 56 to 62.
//
// The turns of a session are written as a row of signs: an event as the number of records that it adds, behind `<` where it starts a
// statement and before `>` where it tells an entry; a turn of a session that has ended, which does nothing, as `.`.
mod changes;
mod numbers;
mod settlings;
mod shrinks;
mod statements;

ghost use Rattle.std.specs.Prelude.{IfOk};
ghost use Rattle.session_step.specs.declared.forms.TheConstants.{BUILT_FORMS};
ghost use Rattle.script_text.specs.Spelled.{IsScript};

use disk_model::Memory;
use history_model::HistoryItem;
use script_text::{Scripts, parse};
use seg_base::{Newest, Shape};
use session_step::{BUILT_FORMS, Turn};
use session_world::{Run, step_run};
use std::alloc::Global;
use std::fmt::Write;
use std::process::Abort;
use std::test::Fail;
use store_core::{Store, prepare};
use store_files::format;
use text_port::Quiet;

fn formatted(alloc: Global) -> Result<Memory, Fail> {
    let shape = Shape {
        blocks: 64,
        extent: 8,
        undo: 2,
    };
    let mut disk = Memory::new(alloc, b"", b"", &[])?;
    format(&mut disk, shape)?;
    Ok(disk)
}

// In a short script a capital letter stands for a row of so many of its small letters.
fn row_length(letter: u8) -> usize {
    match letter {
        b'X' => 1_800,
        b'W' => 1_472,
        b'V' => 400,
        b'U' => 100,
        _ => 1,
    }
}

fn put_row(script: &mut Vec<u8>, letter: u8, length: usize) -> Result<(), Fail> {
    for _ in 0..length {
        script.push(letter)?;
    }
    Ok(())
}

fn written_out(alloc: Global, short: &str) -> Result<Vec<u8>, Fail> {
    let mut script = Vec::new(alloc);
    for byte in short.as_bytes() {
        put_row(&mut script, byte.to_ascii_lowercase(), row_length(*byte))?;
    }
    Ok(script)
}

#[tactic(auto, using(script_text::proofs::Cuts::few_lines))]
fn read_script(alloc: Global, script: &[u8]) -> Result<Scripts, Fail>
    ensures built { IfOk result (λ scripts. IsScript BUILT_FORMS scripts) }
{
    if script.len() > 1_000_000 {
        return Err("a long script")?;
    }
    Ok(parse(alloc, &BUILT_FORMS, script)?)
}

fn put_event(row: &mut String, items: &[HistoryItem], records: u64) -> Result<(), Fail> {
    if matches!(items.first(), Some(HistoryItem::Started(_))) {
        row.push('<')?;
    }
    write!(row, "{records}")?;
    if matches!(items.last(), Some(HistoryItem::Told { .. })) {
        row.push('>')?;
    }
    Ok(())
}

fn put_turn(row: &mut String, turn: Turn, items: &[HistoryItem], records: u64) -> Result<(), Fail> {
    if turn == Turn::Ended {
        row.push('.')?;
        if items.is_empty() && records == 0 {
            return Ok(());
        }
    }
    put_event(row, items, records)
}

fn items_since(history: &Newest<HistoryItem>, before: usize) -> &[HistoryItem] {
    match history.as_slice().get(before..) {
        Some(items) => items,
        None => history.as_slice(),
    }
}

#[tactic(auto, using(session_world::proofs::Runnable::scripts_run))]
fn step(
    alloc: Global,
    store: &mut Store<Memory>,
    run: &mut Run,
    scripts: &Scripts,
    who: u8,
) -> Result<Turn, Fail>
    requires { IsScript BUILT_FORMS scripts.now }
{
    if store.spent() {
        return Err("the store is spent")?;
    }
    Ok(step_run(alloc, store, run, scripts.sessions(), who, None, &mut Quiet)?)
}

fn take_turn(
    alloc: Global,
    store: &mut Store<Memory>,
    run: &mut Run,
    scripts: &Scripts,
    who: u8,
    row: &mut String,
) -> Result<(), Fail>
    requires { IsScript BUILT_FORMS scripts.now }
{
    let records = store.log_len();
    let before = run.history.len();
    let turn = step(alloc, store, run, scripts, who)?;
    let added = store.log_len().saturating_sub(records);
    put_turn(row, turn, items_since(&run.history, before), added)
}

fn take_turns(
    alloc: Global,
    store: &mut Store<Memory>,
    run: &mut Run,
    scripts: &Scripts,
    who: u8,
    turns: usize,
) -> Result<String, Fail>
    requires { IsScript BUILT_FORMS scripts.now }
{
    let mut row = String::new(alloc);
    for _ in 0..turns {
        take_turn(alloc, store, run, scripts, who, &mut row)?;
    }
    Ok(row)
}

// How many turns a row of signs has.
fn turns_of(row: &str) -> usize {
    row.bytes()
        .filter(|sign| !matches!(sign, b'<' | b'>'))
        .count()
}

fn check_turns<R: Abort>(
    rt: &R,
    alloc: Global,
    store: &mut Store<Memory>,
    run: &mut Run,
    scripts: &Scripts,
    who: u8,
    wanted: &str,
) -> Result<(), Fail>
    requires { IsScript BUILT_FORMS scripts.now }
{
    let row = take_turns(alloc, store, run, scripts, who, turns_of(wanted))?;
    assert_eq!(rt; row.as_str(), wanted, "session {who}");
    Ok(())
}

fn check_all<R: Abort>(
    rt: &R,
    alloc: Global,
    store: &mut Store<Memory>,
    run: &mut Run,
    scripts: &Scripts,
    wanted: &[(u8, &str)],
) -> Result<(), Fail>
    requires { IsScript BUILT_FORMS scripts.now }
{
    for (who, row) in wanted {
        check_turns(rt, alloc, store, run, scripts, *who, row)?;
    }
    Ok(())
}

// Runs a short script over an empty store: the sessions take turns as these rows of signs say, one after the other.
fn check<R: Abort>(rt: &R, alloc: Global, script: &str, wanted: &[(u8, &str)]) -> Result<(), Fail> {
    let script = written_out(alloc, script)?;
    let scripts = read_script(alloc, script.as_slice())?;
    let mut run = Run::new(alloc, scripts.sessions().len())?;
    let mut disk = formatted(alloc)?;
    let loaded = prepare(alloc, &mut disk)?;
    let mut store = Store::over(&mut disk, loaded);
    check_all(rt, alloc, &mut store, &mut run, &scripts, wanted)
}
