// How the program ends.
ghost use Rattle.std.specs.Prelude.{◌≡◌, Some};
ghost use Rattle.assm.specs.Status.{number_of, status_of_read, status_of_script, status_of_open, file_text, status_text, status_line};

use disk_model::File;
use recovery::OpenFault;
use script_text::{ScriptFault, Why};
use std::fmt;
use text_port::ReadEnd;

/// Shown as the variant's name, with its fields after spaces: numbers in decimal, a file as `data` or `log`.
#[derive(Clone, Copy, Debug, PartialEq, Eq)]
pub enum Status {
    Done,
    BadWords,
    BadScript { line: u32, why: Why },
    DeviceFault,
    NoMemory,
    BadFile { file: File, offset: u64, seen: u8 },
    NotFormatted,
    ReadFault,
    WriteFault,
    ScriptTooLong,
    AlreadyFormatted,
}

fn file_name(file: File) -> &'static str
    ensures { result.now ≡ file_text file }
{
    match file {
        File::Data => "data",
        File::Log => "log",
    }
}

impl fmt::Display for Status {
    ghost output = { λ status. Some (status_text status) };

    fn fmt<W: fmt::Write>(&self, f: &mut fmt::Formatter<W>) -> fmt::Result {
        match self {
            Status::Done => write!(f, "Done"),
            Status::BadWords => write!(f, "BadWords"),
            Status::BadScript { line, why } => write!(f, "BadScript {line} {why}"),
            Status::DeviceFault => write!(f, "DeviceFault"),
            Status::NoMemory => write!(f, "NoMemory"),
            Status::BadFile { file, offset, seen } => {
                let name = file_name(*file);
                write!(f, "BadFile {name} {offset} {seen}")
            }
            Status::NotFormatted => write!(f, "NotFormatted"),
            Status::ReadFault => write!(f, "ReadFault"),
            Status::WriteFault => write!(f, "WriteFault"),
            Status::ScriptTooLong => write!(f, "ScriptTooLong"),
            Status::AlreadyFormatted => write!(f, "AlreadyFormatted"),
        }
    }
}

/// A status as the program prints it on standard error: its name behind the program's, with its fields after spaces.
#[derive(Clone, Copy, Debug)]
pub struct StatusLine {
    pub status: Status,
}

impl fmt::Display for StatusLine {
    ghost output = { λ line. Some (status_line line.status) };

    fn fmt<W: fmt::Write>(&self, f: &mut fmt::Formatter<W>) -> fmt::Result {
        let status = self.status;
        write!(f, "assm: {status}")
    }
}

impl Status {
    /// The number that the process ends with.
    pub fn number(self) -> u8
        ensures { result ≡ number_of self }
    {
        match self {
            Status::Done => 0,
            Status::BadWords => 1,
            Status::BadScript { .. } => 2,
            Status::DeviceFault => 3,
            Status::NoMemory => 4,
            Status::BadFile { .. } => 5,
            Status::NotFormatted => 6,
            Status::ReadFault => 7,
            Status::WriteFault => 8,
            Status::ScriptTooLong => 9,
            Status::AlreadyFormatted => 10,
        }
    }
}

impl From<ReadEnd> for Status {
    ghost from_gives = { λ end status. status ≡ status_of_read end };

    fn from(end: ReadEnd) -> Status {
        match end {
            ReadEnd::ReadFault => Status::ReadFault,
            ReadEnd::TooLong => Status::ScriptTooLong,
            ReadEnd::NoMemory => Status::NoMemory,
        }
    }
}

impl From<ScriptFault> for Status {
    ghost from_gives = { λ fault status. status ≡ status_of_script fault };

    fn from(fault: ScriptFault) -> Status {
        match fault {
            ScriptFault::BadLine { line, why } => Status::BadScript { line, why },
            ScriptFault::NoMemory => Status::NoMemory,
        }
    }
}

impl From<OpenFault> for Status {
    ghost from_gives = { λ fault status. status ≡ status_of_open fault };

    fn from(fault: OpenFault) -> Status {
        match fault {
            OpenFault::DeviceFault => Status::DeviceFault,
            OpenFault::NotFormatted => Status::NotFormatted,
            OpenFault::BadFile { file, offset, seen } => Status::BadFile { file, offset, seen },
            OpenFault::AlreadyFormatted => Status::AlreadyFormatted,
            OpenFault::NoMemory => Status::NoMemory,
        }
    }
}
