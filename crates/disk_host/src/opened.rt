// Opening, making, locking and syncing by name.
use crate::StoreFile;
use std::fs::{self, Files, Metadata, OpenFile, OpenOptions};
use std::io::{self, ErrorKind};
use std::os::unix::fs::MetadataExt;

fn not_regular() -> io::Error {
    io::Error::new(ErrorKind::InvalidInput, "not a regular file")
}

/// What the name itself denotes, with no link followed. None where nothing is there.
pub(crate) fn look<R: Files>(rt: &R, name: &str) -> io::Result<Option<Metadata>> {
    match fs::symlink_metadata(rt, name) {
        Ok(metadata) => Ok(Some(metadata)),
        Err(error) if error.kind() == ErrorKind::NotFound => Ok(None),
        Err(error) => Err(error),
    }
}

/// Opens the regular file that was looked at. A link, a folder, a pipe or a device isn't opened.
pub(crate) fn open_regular<R: Files>(rt: &R, name: &str, looked: &Metadata) -> io::Result<R::File> {
    if !looked.is_file() {
        return Err(not_regular());
    }
    let mut how = OpenOptions::new();
    how.read(true).write(true);
    let file = how.open(rt, name)?;
    let opened = file.metadata()?;
    if !opened.is_file() || opened.dev() != looked.dev() || opened.ino() != looked.ino() {
        return Err(not_regular());
    }
    Ok(file)
}

/// Makes a file that is not there yet.
pub(crate) fn make<R: Files>(rt: &R, name: &str) -> io::Result<R::File> {
    let mut how = OpenOptions::new();
    how.read(true).write(true).create_new(true);
    how.open(rt, name)
}

/// Locks the file, and says in words of its own that another has it.
pub(crate) fn lock<F: StoreFile>(file: &F) -> io::Result<()> {
    match file.lock_alone() {
        Ok(()) => Ok(()),
        Err(error) if error.kind() == ErrorKind::WouldBlock => {
            let words = "another process has the store open";
            Err(io::Error::new(ErrorKind::WouldBlock, words))
        }
        Err(error) => Err(error),
    }
}

/// The length of a file that has still its name and at least this length, the end of what was read or written.
pub(crate) fn length_from<F: OpenFile>(file: &F, least: u64) -> io::Result<u64> {
    let metadata = file.metadata()?;
    if metadata.nlink() == 0 {
        return Err(io::Error::new(ErrorKind::NotFound, "the file was removed"));
    }
    if metadata.len() < least {
        return Err(became_shorter());
    }
    Ok(metadata.len())
}

pub(crate) fn became_shorter() -> io::Error {
    io::Error::new(ErrorKind::UnexpectedEof, "the file has become shorter")
}

/// Puts the names in a file's folder onto the device.
pub(crate) fn sync_folder_of<R: Files>(rt: &R, name: &str) -> io::Result<()> {
    let mut how = OpenOptions::new();
    how.read(true);
    how.open(rt, folder_of(name))?.sync_all()
}

/// The folder in which a name stands.
pub(crate) fn folder_of(name: &str) -> &str {
    match name.rsplit_once('/') {
        None => ".",
        Some((folder, _)) if folder.is_empty() => "/",
        Some((folder, _)) => folder,
    }
}
