// A turn of each number that a session may have, and of each that none has.
ghost use Rattle.std.specs.Prelude.{IfOk};
ghost use Rattle.session_step.specs.declared.forms.TheConstants.{BUILT_FORMS};
ghost use Rattle.script_text.specs.Spelled.{IsScript};

use super::{formatted, read_script};
use disk_model::Memory;
use history_model::HistoryItem;
use session_step::Turn;
use session_world::{Parts, RunFault, World};
use std::alloc::Global;
use std::process::Abort;
use std::test::Fail;
use store_core::{Store, StoreFault, prepare};
use text_port::{Quiet, put, put_number};

fn put_session(script: &mut Vec<u8>, who: u64) -> Result<(), Fail> {
    put(script, b"session ")?;
    put_number(script, who)?;
    put(script, b"\ncommit\n")?;
    Ok(())
}

// A session of each number from 1 to 64, of one statement and one event.
fn parts_of_64(alloc: Global) -> Result<Parts, Fail>
    ensures built { IfOk result (λ parts. IsScript BUILT_FORMS parts.scripts) }
{
    let mut script = Vec::new(alloc);
    for who in 1..65u64 {
        put_session(&mut script, who)?;
    }
    let scripts = read_script(alloc, script.as_slice())?;
    Ok(Parts::new(alloc, scripts)?)
}

// The faults are named here, not turned into a failure by `?`: the prover doesn't find the store's fault inside a run's otherwise.
fn stopped_by(fault: RunFault) -> &'static str {
    match fault {
        RunFault::Store(StoreFault::NoMemory) => "no memory",
        RunFault::Store(_) => "the store has failed",
        RunFault::WriteFault => "the sink has failed",
    }
}

fn step(world: &mut World<Memory, Quiet>, who: u8) -> Result<Turn, Fail> {
    if world.fault().is_some() {
        return Err("the world is spent")?;
    }
    match world.step(who, None) {
        Ok(turn) => Ok(turn),
        Err(fault) => Err(stopped_by(fault))?,
    }
}

// Whether the newest item is an entry.
fn is_told(world: &World<Memory, Quiet>) -> bool {
    matches!(
        world.history().as_slice().last(),
        Some(HistoryItem::Told { .. })
    )
}

// A turn of a number: what it answers, and how many starts and entries there are then.
fn check_turn<R: Abort>(
    rt: &R,
    world: &mut World<Memory, Quiet>,
    who: u8,
    wanted: (Turn, usize),
) -> Result<(), Fail> {
    let turn = step(world, who)?;
    assert_eq!(rt; (turn, world.history().len()), wanted, "{who}");
    assert_eq!(rt; is_told(world), wanted.1 > 0, "{who}");
    Ok(())
}

fn check_first_turns<R: Abort>(rt: &R, world: &mut World<Memory, Quiet>) -> Result<(), Fail> {
    check_turn(rt, world, 0, (Turn::Ended, 0))?;
    for who in 1..65u8 {
        check_turn(rt, world, who, (Turn::Made, 2 * usize::from(who)))?;
    }
    for who in 65..=255u8 {
        check_turn(rt, world, who, (Turn::Ended, 128))?;
    }
    Ok(())
}

fn check_all_ended<R: Abort>(rt: &R, world: &mut World<Memory, Quiet>) -> Result<(), Fail> {
    for who in 0..=255u8 {
        check_turn(rt, world, who, (Turn::Ended, 128))?;
    }
    Ok(())
}

fn finish(world: &mut World<Memory, Quiet>) -> Result<(), Fail> {
    if world.fault().is_some() {
        return Err("the world is spent")?;
    }
    match world.finish() {
        Ok(()) => Ok(()),
        Err(fault) => Err(stopped_by(fault))?,
    }
}

// 64 sessions of one event, whose numbers are 1 to 64. Each ends with its first turn; a number that no session has ended before it
// began.
#[test]
fn each_number_has_its_turn(rt: HostRuntime) -> Result<(), Fail> {
    let alloc = rt.alloc();
    let parts = parts_of_64(alloc)?;
    let mut disk = formatted(alloc)?;
    let loaded = prepare(alloc, &mut disk)?;
    let mut sink = Quiet;
    let store = Store::over(&mut disk, loaded);
    let mut world = World::over(store, parts, &mut sink);
    check_first_turns(&rt, &mut world)?;
    check_all_ended(&rt, &mut world)?;
    finish(&mut world)
}
