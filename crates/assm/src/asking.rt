// The commands that run one statement about a table.
ghost use Rattle.std.specs.Prelude.{◌≡◌, ◌++◌, ℕ, IfOk, codes, true};
ghost use Rattle.seg_words.specs.Types.{Rose, is_name};
ghost use Rattle.disk_model.specs.Types.{Causes};
ghost use Rattle.script_text.specs.declared.statement.Statement.TheVariants as asks;
ghost use Rattle.script_text.specs.declared.why.Why.{Why};
ghost use Rattle.script_text.specs.Spelled.{printed};
ghost use Rattle.assm.specs.Top.{RunTells};
ghost use Rattle.assm.specs.Words.{script_with};

use crate::run::run_text;
use crate::status::Status;
use disk_model::Disk;
use seg_base::NoMemory;
use std::alloc::Global;
use text_port::{Sink, put};

/// A script of one session, with one statement of a word and a table's name.
fn script_text(alloc: Global, word: &[u8], table: &[u8]) -> Result<Vec<u8>, NoMemory>
    ensures { IfOk result (λ text. text.items ≡ (((codes "session 1\n" ++ word.now) ++ codes " ") ++ table.now) ++ codes "\n") }
{
    let mut out = Vec::new(alloc);
    put(&mut out, b"session 1\n")?;
    put(&mut out, word)?;
    put(&mut out, b" ")?;
    put(&mut out, table)?;
    put(&mut out, b"\n")?;
    Ok(out)
}

/// `usage`
pub fn run_usage<D: Disk, K: Sink>(
    alloc: Global,
    disk: &mut D,
    table: &[u8],
    sink: &mut K,
) -> Status
    requires { is_name table.now ≡ true }
    ensures tells { RunTells D.meaning disk.old disk.new (K.written sink.old) (K.written sink.new) result (printed (script_with (asks.Usage table.now))) }
    ensures no_bad_script { (line : ℕ) → (why : Why) → result ≡ Status.BadScript line why → ⊥ }
    ensures device_fault { Causes D.meaning disk.old disk.new (result ≡ Status.DeviceFault) }
    ensures write_fault { result ≡ Status.WriteFault → Rose (K.fault_count sink.old) (K.fault_count sink.new) }
{
    match script_text(alloc, b"usage", table) {
        Ok(text) => run_text(alloc, disk, &text, sink),
        Err(_) => Status::NoMemory,
    }
}

/// `repair`
pub fn run_repair<D: Disk, K: Sink>(
    alloc: Global,
    disk: &mut D,
    table: &[u8],
    sink: &mut K,
) -> Status
    requires { is_name table.now ≡ true }
    ensures tells { RunTells D.meaning disk.old disk.new (K.written sink.old) (K.written sink.new) result (printed (script_with (asks.Repair table.now))) }
    ensures no_bad_script { (line : ℕ) → (why : Why) → result ≡ Status.BadScript line why → ⊥ }
    ensures device_fault { Causes D.meaning disk.old disk.new (result ≡ Status.DeviceFault) }
    ensures write_fault { result ≡ Status.WriteFault → Rose (K.fault_count sink.old) (K.fault_count sink.new) }
{
    match script_text(alloc, b"repair", table) {
        Ok(text) => run_text(alloc, disk, &text, sink),
        Err(_) => Status::NoMemory,
    }
}
