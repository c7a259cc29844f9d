// Both files of a store, opened and locked at the first call on either.
use crate::StoreFile;
use crate::named::NamedFile;
use disk_model::File;
use io_cause::Cause;
use std::fs::Files;

#[derive(Clone, Copy)]
enum Stage<'a> {
    Unopened,
    Open,
    // They couldn't be opened, or a sync has failed: from then on it isn't known what the device has.
    Refused(Cause<'a>),
}

pub(crate) struct StoreFiles<'a, R: Files> {
    rt: &'a R,
    data_file: NamedFile<'a, R::File>,
    log_file: NamedFile<'a, R::File>,
    stage: Stage<'a>,
}

impl<R: Files> Drop for StoreFiles<'_, R> {
    fn drop(self) {
        let StoreFiles {
            rt: _,
            data_file: _data,
            log_file: _log,
            stage: _,
        } = self;
    }
}

impl<'a, R: Files> StoreFiles<'a, R>
where
    R::File: StoreFile,
{
    pub fn new(rt: &'a R, data_name: &'a str, log_name: &'a str) -> StoreFiles<'a, R> {
        StoreFiles {
            rt,
            data_file: NamedFile::new(data_name),
            log_file: NamedFile::new(log_name),
            stage: Stage::Unopened,
        }
    }

    // Opens and locks the files that are there, before anything is read or written, and then syncs them and their folder, so
    // that what is read is what the device has.
    fn open_both(&mut self) -> Result<(), Cause<'a>> {
        self.log_file.open(self.rt)?;
        self.data_file.open(self.rt)?;
        self.log_file.settle()?;
        self.data_file.settle()?;
        self.log_file.settle_name(self.rt)?;
        if self.log_file.covers(&self.data_file) {
            return Ok(());
        }
        self.data_file.settle_name(self.rt)
    }

    // Opens the files at the first call, and refuses each call once that has failed.
    fn ready(&mut self) -> Result<(), Cause<'a>> {
        match self.stage {
            Stage::Open => Ok(()),
            Stage::Refused(cause) => Err(cause),
            Stage::Unopened => {
                let opened = self.open_both();
                self.keep(opened, Stage::Open)
            }
        }
    }

    // Goes on to the stage where the answer is Ok, and else refuses from now on.
    fn keep(&mut self, answer: Result<(), Cause<'a>>, stage: Stage<'a>) -> Result<(), Cause<'a>> {
        self.stage = match answer {
            Ok(()) => stage,
            Err(cause) => Stage::Refused(cause),
        };
        answer
    }

    pub fn read(&mut self, file: File, offset: u64, buf: &mut [u8]) -> Result<usize, Cause<'a>> {
        self.ready()?;
        match file {
            File::Data => self.data_file.read(offset, buf),
            File::Log => self.log_file.read(offset, buf),
        }
    }

    pub fn write_at(&mut self, file: File, offset: u64, bytes: &[u8]) -> Result<(), Cause<'a>> {
        self.ready()?;
        match file {
            File::Data => self.data_file.write_at(self.rt, offset, bytes),
            File::Log => self.log_file.write_at(self.rt, offset, bytes),
        }
    }

    pub fn len(&mut self, file: File) -> Result<u64, Cause<'a>> {
        self.ready()?;
        match file {
            File::Data => self.data_file.len(),
            File::Log => self.log_file.len(),
        }
    }

    pub fn sync(&mut self, file: File) -> Result<(), Cause<'a>> {
        self.ready()?;
        let synced = match file {
            File::Data => self.data_file.sync(self.rt),
            File::Log => self.log_file.sync(self.rt),
        };
        self.keep(synced, Stage::Open)
    }
}
