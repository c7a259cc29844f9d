// The top call.
ghost use Rattle.std.specs.Prelude.{◌≡◌, ◌↔◌, ◌^◌, ℕ, Some, None, map, string_bytes, true};
ghost use Rattle.seg_words.specs.Types.{Shape as TheShape, Rose};
ghost use Rattle.text_port.specs.Whole.{WasLonger};
ghost use Rattle.script_text.specs.declared.why.Why.{Why};
ghost use Rattle.disk_model.specs.Types.{Causes, Untouched};
ghost use Rattle.log_frame.specs.Types.{is_formatted};
ghost use Rattle.script_text.specs.declared.statement.Statement.{Statement as TheStatement};
ghost use Rattle.script_text.specs.Spelled.{printed};
ghost use Rattle.script_gen.specs.Generated.{generated};
ghost use Rattle.assm.specs.Words.{command_in, script_with, statement_in};
ghost use Rattle.assm.specs.Top.{ScriptTells, RunTells, FormatTells, HadScript, IsBad};
ghost use Rattle.assm.specs.Checks.{CheckTells};
ghost use Rattle.assm.specs.Generates.{SumTells};
ghost use Rattle.assm.specs.declared.words.Command.TheVariants as asked;

use crate::asking::{run_repair, run_usage};
use crate::checking::check_store;
use crate::generating::run_generated;
use crate::making::format_store;
use crate::run::run_text;
use crate::status::Status;
use crate::words::{Command, command_in, table_in};
use disk_model::Disk;
use seg_base::Gate;
use std::alloc::Global;
use std::sync::Wait;
use std::thread::Threads;
use text_port::{Sink, Source, read_all};

/// The bytes that a script may have.
const MOST: usize = 1 << 24;

/// Reads a script from the source, and runs it.
fn run_source<D: Disk, S: Source, K: Sink>(
    alloc: Global,
    disk: &mut D,
    source: &mut S,
    sink: &mut K,
) -> Status
    ensures tells { ScriptTells D.meaning disk.old disk.new (K.written sink.old) (K.written sink.new) (S.left source.old) result }
    ensures read_fault { result ≡ Status.ReadFault → Rose (S.fault_count source.old) (S.fault_count source.new) }
    ensures script_too_long { result ≡ Status.ScriptTooLong → WasLonger (S.left source.old) (2 ^ 24) }
    ensures device_fault { Causes D.meaning disk.old disk.new (result ≡ Status.DeviceFault) }
    ensures write_fault { result ≡ Status.WriteFault → Rose (K.fault_count sink.old) (K.fault_count sink.new) }
{
    match read_all(alloc, source, MOST) {
        Ok(text) => run_text(alloc, disk, &text, sink),
        Err(end) => Status::from(end),
    }
}

/// All commands. Of these `run` alone reads the source.
#[tactic(auto, using(crate::proofs::Told::run_no_words, crate::proofs::Told::format_no_words, crate::proofs::Told::run_bad_script, crate::proofs::Told::format_no_script, crate::proofs::Summed::sum_no_words, crate::proofs::Summed::sum_no_script))]
pub fn script_command<R: Threads + Sync, D: Disk, S: Source, K: Sink>(
    _rt: &R,
    alloc: Global,
    words: &[String],
    disk: &mut D,
    source: &mut S,
    sink: &mut K,
) -> Status
    ensures bad_words { (result ≡ Status.BadWords) ↔ (command_in (map string_bytes words.now) ≡ None) }
    ensures bad_script { (line : ℕ) → (why : Why) → result ≡ Status.BadScript line why → HadScript (S.left source.old) (IsBad line why) }
    ensures device_fault { Causes D.meaning disk.old disk.new (result ≡ Status.DeviceFault) }
    ensures read_fault { result ≡ Status.ReadFault → Rose (S.fault_count source.old) (S.fault_count source.new) }
    ensures write_fault { result ≡ Status.WriteFault → Rose (K.fault_count sink.old) (K.fault_count sink.new) }
    ensures script_too_long { result ≡ Status.ScriptTooLong → WasLonger (S.left source.old) (2 ^ 24) }
    ensures refused { result ≡ Status.BadWords → (disk.new ≡ disk.old) × (K.written sink.new ≡ K.written sink.old) }
    ensures unread { (command_in (map string_bytes words.now) ≡ Some asked.Run → ⊥) → source.new ≡ source.old }
    ensures run { command_in (map string_bytes words.now) ≡ Some asked.Run → ScriptTells D.meaning disk.old disk.new (K.written sink.old) (K.written sink.new) (S.left source.old) result }
    ensures asks { (st : TheStatement) → statement_in (map string_bytes words.now) ≡ Some st → RunTells D.meaning disk.old disk.new (K.written sink.old) (K.written sink.new) result (printed (script_with st)) }
    ensures check { command_in (map string_bytes words.now) ≡ Some asked.Check → CheckTells D.meaning disk.old disk.new (K.written sink.old) (K.written sink.new) result }
    ensures generate { (number rows : ℕ) → command_in (map string_bytes words.now) ≡ Some (asked.Generate number rows) → SumTells D.meaning disk.old disk.new (K.written sink.old) (K.written sink.new) result (printed (generated number rows)) }
    ensures format { (shape : TheShape) → command_in (map string_bytes words.now) ≡ Some (asked.Format shape) → FormatTells D.meaning disk.old disk.new (K.written sink.old) (K.written sink.new) shape result }
    ensures store_kept { (shape : TheShape) → command_in (map string_bytes words.now) ≡ Some (asked.Format shape) → D.meaning.told disk.old → is_formatted (D.meaning.files disk.old).log_bytes ≡ true → Untouched D.meaning disk.old disk.new }
{
    match command_in(words) {
        None => Status::BadWords,
        Some(Command::Run) => run_source(alloc, disk, source, sink),
        Some(Command::Usage) => run_usage(alloc, disk, table_in(words), sink),
        Some(Command::Repair) => run_repair(alloc, disk, table_in(words), sink),
        Some(Command::Check) => check_store(alloc, disk, sink),
        Some(Command::Generate { number, rows }) => run_generated(alloc, disk, number, rows, sink),
        Some(Command::Format(shape)) => format_store(alloc, disk, &shape, sink),
    }
}

/// The program: what the words ask for, over the disk, the source and the sink. The gate is not called yet.
pub fn run_program<R: Threads + Wait + Sync, D: Disk + Send, S: Source, K: Sink + Send, G: Gate>(
    rt: &R,
    alloc: Global,
    words: &[String],
    disk: &mut D,
    source: &mut S,
    sink: &mut K,
    _gate: &G,
) -> Status
    ensures bad_words { (result ≡ Status.BadWords) ↔ (command_in (map string_bytes words.now) ≡ None) }
    ensures bad_script { (line : ℕ) → (why : Why) → result ≡ Status.BadScript line why → HadScript (S.left source.old) (IsBad line why) }
    ensures device_fault { Causes D.meaning disk.old disk.new (result ≡ Status.DeviceFault) }
    ensures read_fault { result ≡ Status.ReadFault → Rose (S.fault_count source.old) (S.fault_count source.new) }
    ensures write_fault { result ≡ Status.WriteFault → Rose (K.fault_count sink.old) (K.fault_count sink.new) }
    ensures script_too_long { result ≡ Status.ScriptTooLong → WasLonger (S.left source.old) (2 ^ 24) }
    ensures refused { result ≡ Status.BadWords → (disk.new ≡ disk.old) × (K.written sink.new ≡ K.written sink.old) }
    ensures unread { (command_in (map string_bytes words.now) ≡ Some asked.Run → ⊥) → source.new ≡ source.old }
    ensures run { command_in (map string_bytes words.now) ≡ Some asked.Run → ScriptTells D.meaning disk.old disk.new (K.written sink.old) (K.written sink.new) (S.left source.old) result }
    ensures asks { (st : TheStatement) → statement_in (map string_bytes words.now) ≡ Some st → RunTells D.meaning disk.old disk.new (K.written sink.old) (K.written sink.new) result (printed (script_with st)) }
    ensures check { command_in (map string_bytes words.now) ≡ Some asked.Check → CheckTells D.meaning disk.old disk.new (K.written sink.old) (K.written sink.new) result }
    ensures generate { (number rows : ℕ) → command_in (map string_bytes words.now) ≡ Some (asked.Generate number rows) → SumTells D.meaning disk.old disk.new (K.written sink.old) (K.written sink.new) result (printed (generated number rows)) }
    ensures format { (shape : TheShape) → command_in (map string_bytes words.now) ≡ Some (asked.Format shape) → FormatTells D.meaning disk.old disk.new (K.written sink.old) (K.written sink.new) shape result }
    ensures store_kept { (shape : TheShape) → command_in (map string_bytes words.now) ≡ Some (asked.Format shape) → D.meaning.told disk.old → is_formatted (D.meaning.files disk.old).log_bytes ≡ true → Untouched D.meaning disk.old disk.new }
{
    script_command(rt, alloc, words, disk, source, sink)
}
