// The usage text.
use clap::Command;
use std::alloc::{AllocError, Global};

/// A command, and what it does.
const COMMANDS: [(&str, &str); 6] = [
    ("format", "BLOCKS EXTENT UNDO: makes a store"),
    ("run", "runs the script that standard input has"),
    ("usage", "T: tells how full the blocks of a table are"),
    (
        "repair",
        "T: recalculates the kept class of each block of a table",
    ),
    (
        "check",
        "counts records, commits, tables and inexact blocks",
    ),
    (
        "gen",
        "NUMBER ROWS: runs the script that is made from the number, and sums it up",
    ),
];

/// How the program is called: each command that is built.
pub fn usage_text(alloc: Global) -> Result<String, AllocError> {
    let mut program = Command::new(alloc, "assm")
        .disable_help_flag(true)
        .disable_help_subcommand(true)
        .disable_version_flag(true)
        .subcommand_required(true);
    for (name, about) in COMMANDS {
        program = program.subcommand(Command::new(alloc, name).about(about))?;
    }
    program.render_help()
}
