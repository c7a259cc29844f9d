//! The program: makes a store, and runs scripts of sessions over it.
#![tactic(auto)]

mod asking;
mod checking;
mod generating;
mod making;
mod run;
mod status;
#[cfg(test)]
mod tests;
mod top;
mod usage;
mod words;

use disk_host::Host;
use seg_base::Open;
use status::{Status, StatusLine};
use std::env::{self, Env};
use std::fs::{Files, OpenOptions};
use std::io::ErrorKind;
use std::process::ExitCode;
use text_port::{Stdin, Stdout};
use top::run_program;
use usage::usage_text;

/// The words after the program's name. A word that is no text is none of ours.
fn own_words<R: Env + AllocGlobal>(rt: &R) -> Result<Vec<String>, Status> {
    match env::args(rt) {
        Ok(args) => match args.skip(1).collect(rt.alloc()) {
            Ok(words) => Ok(words),
            Err(_) => Err(Status::NoMemory),
        },
        Err(error) => match error.kind() {
            ErrorKind::InvalidData => Err(Status::BadWords),
            _ => Err(Status::NoMemory),
        },
    }
}

/// A folder in the place of a standard stream, where it is closed: it can be neither read nor written, while a file of
/// the store that got the stream's number would be.
fn hold_place<R: Files>(rt: &R) -> Option<R::File> {
    let mut how = OpenOptions::new();
    how.read(true);
    how.open(rt, "/").ok()
}

fn main(rt: HostRuntime) -> ExitCode {
    let _held = [hold_place(&rt), hold_place(&rt), hold_place(&rt)];
    let mut disk = Host::new(&rt, "assm.dat", "assm.log");
    let mut source = Stdin::new(rt.stdin());
    let mut sink = Stdout::new(rt.stdout());
    let status = match own_words(&rt) {
        Ok(words) => run_program(
            &rt,
            rt.alloc(),
            &words,
            &mut disk,
            &mut source,
            &mut sink,
            &Open,
        ),
        Err(status) => status,
    };
    let cause = match status {
        Status::DeviceFault => disk.cause(),
        Status::ReadFault => source.cause(),
        Status::WriteFault => sink.cause(),
        _ => None,
    };
    if status != Status::Done {
        let line = StatusLine { status };
        let _ = eprintln!(rt; "{line}");
    }
    if status == Status::BadWords {
        if let Ok(text) = usage_text(rt.alloc()) {
            let _ = eprint!(rt; "{text}");
        }
    }
    if let Some(cause) = cause {
        let _ = match cause.line(rt.alloc()) {
            Ok(line) => eprintln!(rt; "{line}"),
            Err(_) => eprintln!(rt; "{cause}"),
        };
    }
    ExitCode::from(status.number())
}
