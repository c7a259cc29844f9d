// Standard input and output. No clause says which bytes the system gives or takes.
ghost use Rattle.std.specs.Prelude.{◌<◌, ◌≤◌, None, length, IfOk};
ghost use Rattle.std.specs.Io.{ReadsAtMost};

use crate::{Sink, Source};
use io_cause::{Call, Cause};
use seg_base::Failed;
use std::io::{self, ErrorKind, Read, Write};

/// Standard input, or any reader: each error of the reader is a fault, and is counted, but that a call which a signal
/// interrupted is made again. The first one's cause is kept.
#[derive(Debug, Drop)]
pub struct Stdin<R> {
    reader: R,
    faults: u64,
    first_cause: Option<Cause<'static>>,
}

// Reads once.
fn read_once<R: Read>(reader: &mut R, buf: &mut [u8]) -> io::Result<usize>
    ensures { ReadsAtMost result buf.new }
{
    for _ in 0..u64::MAX {
        match reader.read(buf) {
            Ok(count) => return Ok(count),
            Err(error) if error.kind() == ErrorKind::Interrupted => {}
            Err(error) => return Err(error),
        }
    }
    Err(io::Error::from(ErrorKind::Interrupted))
}

impl<R: Read> Stdin<R> {
    pub fn new(reader: R) -> Stdin<R> {
        Stdin {
            reader,
            faults: 0,
            first_cause: None,
        }
    }

    /// Why it first failed, where it has.
    pub fn cause(&self) -> Option<Cause<'static>> {
        self.first_cause
    }
}

impl<R: Read> Source for Stdin<R> {
    ghost left = { λ _. None };

    ghost fault_count = { λ s. s.faults };

    fn read(&mut self, buf: &mut [u8]) -> Result<usize, Failed> {
        match read_once(&mut self.reader, buf) {
            Ok(count) => Ok(count),
            Err(error) => {
                self.faults = self.faults.saturating_add(1);
                self.first_cause = self.first_cause.or(Some(Cause {
                    name: "standard input",
                    call: Call::Read,
                    error,
                }));
                Err(Failed)
            }
        }
    }
}

/// Standard output, or any writer: each error of the writer is a fault, and is counted, but that a call which a signal
/// interrupted is made again. So is a writer that takes no byte of a piece that has some. The first one's cause is kept.
#[derive(Debug, Drop)]
pub struct Stdout<W> {
    writer: W,
    faults: u64,
    first_cause: Option<Cause<'static>>,
}

// Writes once, at least one byte of a piece that has some.
fn write_once<W: Write>(writer: &mut W, bytes: &[u8]) -> io::Result<usize>
    ensures bound { IfOk result (λ n. n ≤ length bytes.now) }
    ensures some { IfOk result (λ n. 0 < length bytes.now → 0 < n) }
{
    for _ in 0..u64::MAX {
        match writer.write(bytes) {
            Ok(count) if count > 0 || bytes.is_empty() => return Ok(count),
            Ok(_) => return Err(io::Error::new(ErrorKind::WriteZero, "no byte was taken")),
            Err(error) if error.kind() == ErrorKind::Interrupted => {}
            Err(error) => return Err(error),
        }
    }
    Err(io::Error::from(ErrorKind::Interrupted))
}

impl<W: Write> Stdout<W> {
    pub fn new(writer: W) -> Stdout<W> {
        Stdout {
            writer,
            faults: 0,
            first_cause: None,
        }
    }

    /// Why it first failed, where it has.
    pub fn cause(&self) -> Option<Cause<'static>> {
        self.first_cause
    }
}

impl<W: Write> Sink for Stdout<W> {
    ghost written = { λ _. None };

    ghost fault_count = { λ s. s.faults };

    fn write(&mut self, bytes: &[u8]) -> Result<usize, Failed> {
        match write_once(&mut self.writer, bytes) {
            Ok(count) => Ok(count),
            Err(error) => {
                self.faults = self.faults.saturating_add(1);
                self.first_cause = self.first_cause.or(Some(Cause {
                    name: "standard output",
                    call: Call::Write,
                    error,
                }));
                Err(Failed)
            }
        }
    }

    fn faults(&self) -> u64 {
        self.faults
    }
}
