// What a store asks of an open file.
use std::fs::{File, OpenFile};
use std::io;
use std::os::unix::fs::FileExt;

/// An open file that can be locked, and read and written at a place.
pub trait StoreFile: OpenFile + FileExt {
    /// Locks the file for this process alone, without waiting. The lock ends with the open file. `WouldBlock` comes
    /// where another open file has it.
    fn lock_alone(&self) -> io::Result<()>;
}

impl StoreFile for File {
    fn lock_alone(&self) -> io::Result<()> {
        match self.try_lock() {
            Ok(()) => Ok(()),
            Err(error) => Err(io::Error::from(error)),
        }
    }
}
