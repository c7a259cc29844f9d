// The first failure of a file or a stream.
use std::alloc::{AllocError, Global};
use std::{fmt, io};

/// A call on a file or a stream.
#[derive(Clone, Copy, Debug, PartialEq, Eq)]
pub enum Call {
    Open,
    Make,
    Lock,
    Read,
    Write,
    Length,
    Sync,
    SyncFolder,
}

/// A call that failed: on which file or stream, which call, and what the system said. Its line is
/// `assm.log: write: No space left on device`; shown, which takes no memory, it also has the system's number of the error.
#[derive(Clone, Copy, Debug)]
pub struct Cause<'a> {
    pub name: &'a str,
    pub call: Call,
    pub error: io::Error,
}

impl fmt::Display for Call {
    fn fmt<W: fmt::Write>(&self, f: &mut fmt::Formatter<W>) -> fmt::Result {
        f.write_str(match self {
            Call::Open => "open",
            Call::Make => "make",
            Call::Lock => "lock",
            Call::Read => "read",
            Call::Write => "write",
            Call::Length => "length",
            Call::Sync => "sync",
            Call::SyncFolder => "sync of the folder",
        })
    }
}

// What the library writes behind the words of an error that the system numbers.
const NUMBER: &str = " (os error ";

impl fmt::Display for Cause<'_> {
    fn fmt<W: fmt::Write>(&self, f: &mut fmt::Formatter<W>) -> fmt::Result {
        let name = self.name;
        let call = self.call;
        let error = self.error;
        write!(f, "{name}: {call}: {error}")
    }
}

impl Cause<'_> {
    /// Its line, without the number that the system gives the error.
    pub fn line(&self, alloc: Global) -> Result<String, AllocError> {
        let mut text = self.to_string(alloc)?;
        let words = match text.as_str().split_once(NUMBER) {
            Some((words, _)) => words.len(),
            None => return Ok(text),
        };
        text.truncate(words);
        Ok(text)
    }
}
