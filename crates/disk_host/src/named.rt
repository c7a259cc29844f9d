// One file by its name: opened where it is there, made where it is first written.
use crate::StoreFile;
use crate::opened::{
    became_shorter, folder_of, length_from, lock, look, make, open_regular, sync_folder_of,
};
use crate::places::{read_from, write_to};
use io_cause::{Call, Cause};
use std::fs::Files;
use std::io;

/// A file of a store. While `file` is None, it is missing: it has no bytes.
#[derive(Drop)]
pub(crate) struct NamedFile<'a, F> {
    name: &'a str,
    file: Option<F>,
    // It was made here, and its folder wasn't synced since.
    is_new: bool,
    // The end of what was read, written or told: it is at least as long, unless somebody cut it.
    least: u64,
    // It was looked at since the last sync, and was whole.
    is_whole: bool,
}

// The answer of a call, with its cause where it failed.
fn told<'a, T>(name: &'a str, call: Call, answer: io::Result<T>) -> Result<T, Cause<'a>> {
    match answer {
        Ok(value) => Ok(value),
        Err(error) => Err(Cause { name, call, error }),
    }
}

impl<'a, F: StoreFile + Drop> NamedFile<'a, F> {
    pub fn new(name: &'a str) -> NamedFile<'a, F> {
        NamedFile {
            name,
            file: None,
            is_new: false,
            least: 0,
            is_whole: false,
        }
    }

    /// Opens and locks the file, where it is there.
    pub fn open<R: Files<File = F>>(&mut self, rt: &R) -> Result<(), Cause<'a>> {
        let name = self.name;
        let Some(looked) = told(name, Call::Open, look(rt, name))? else {
            return Ok(());
        };
        let file = told(name, Call::Open, open_regular(rt, name, &looked))?;
        told(name, Call::Lock, lock(&file))?;
        self.least = looked.len();
        self.file = Some(file);
        Ok(())
    }

    /// Puts what is there onto the device.
    pub fn settle(&self) -> Result<(), Cause<'a>> {
        match &self.file {
            None => Ok(()),
            Some(file) => told(self.name, Call::Sync, file.sync_all()),
        }
    }

    /// Puts the name of a file that is there onto the device. So does each other file of its folder.
    pub fn settle_name<R: Files<File = F>>(&self, rt: &R) -> Result<(), Cause<'a>> {
        match &self.file {
            None => Ok(()),
            Some(_) => told(self.name, Call::SyncFolder, sync_folder_of(rt, self.name)),
        }
    }

    /// Whether putting its name onto the device does so for the other file.
    pub fn covers(&self, other: &NamedFile<'a, F>) -> bool {
        self.file.is_some() && folder_of(self.name) == folder_of(other.name)
    }

    // Makes and locks the file.
    fn make<R: Files<File = F>>(&mut self, rt: &R) -> Result<(), Cause<'a>> {
        let name = self.name;
        let file = told(name, Call::Make, make(rt, name))?;
        told(name, Call::Lock, lock(&file))?;
        self.is_new = true;
        self.file = Some(file);
        Ok(())
    }

    /// The bytes from the offset on, as many as the buffer holds and the file has.
    pub fn read(&mut self, offset: u64, buf: &mut [u8]) -> Result<usize, Cause<'a>> {
        let name = self.name;
        let Some(file) = &self.file else {
            return Ok(0);
        };
        let count = told(name, Call::Read, read_from(file, offset, buf))?;
        let end = offset.saturating_add(count as u64);
        if count < buf.len() && end < self.least {
            return Err(Cause {
                name,
                call: Call::Read,
                error: became_shorter(),
            });
        }
        self.least = self.least.max(end);
        Ok(count)
    }

    // Before the first write since a sync: a file that somebody cut or removed gets nothing more, so that nothing is
    // acknowledged behind what it has lost.
    fn expect_whole(&mut self) -> Result<(), Cause<'a>> {
        match &self.file {
            Some(file) if !self.is_whole => {
                told(self.name, Call::Write, length_from(file, self.least))?;
                self.is_whole = true;
                Ok(())
            }
            _ => Ok(()),
        }
    }

    /// Writes the bytes, in a file that is made where it is missing.
    pub fn write_at<R: Files<File = F>>(
        &mut self,
        rt: &R,
        offset: u64,
        bytes: &[u8],
    ) -> Result<(), Cause<'a>> {
        if self.file.is_none() {
            self.make(rt)?;
        }
        self.expect_whole()?;
        let Some(file) = &self.file else {
            return Ok(());
        };
        told(self.name, Call::Write, write_to(file, offset, bytes))?;
        self.least = self.least.max(offset.saturating_add(bytes.len() as u64));
        Ok(())
    }

    pub fn len(&mut self) -> Result<u64, Cause<'a>> {
        let Some(file) = &self.file else {
            return Ok(0);
        };
        let len = told(self.name, Call::Length, length_from(file, self.least))?;
        self.least = len;
        Ok(len)
    }

    /// Puts what was written onto the device; of a new file its name too.
    pub fn sync<R: Files<File = F>>(&mut self, rt: &R) -> Result<(), Cause<'a>> {
        let name = self.name;
        let Some(file) = &self.file else {
            return Ok(());
        };
        if self.is_new {
            told(name, Call::Sync, file.sync_all())?;
            told(name, Call::SyncFolder, sync_folder_of(rt, name))?;
        } else {
            told(name, Call::Sync, file.sync_data())?;
        }
        self.is_new = false;
        self.is_whole = false;
        Ok(())
    }
}
