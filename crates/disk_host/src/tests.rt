// What no clause says: which files are made, locked and refused, and that they hold what was written.
use crate::places::read_from;
use crate::{Host, StoreFile};
use disk_model::{Disk, File};
use io_cause::Call;
use seg_base::Failed;
use std::cell::Cell;
use std::fs::{self, Files, OpenFile, OpenOptions};
use std::io::{self, ErrorKind};
use std::os::unix::fs::{FileExt, symlink};
use std::process::{self, Abort};
use std::test::Fail;

/// Which call failed first, if one has.
fn failed<R: Files>(disk: &Host<'_, R>) -> Option<Call>
where
    R::File: StoreFile,
{
    disk.cause().map(|cause| cause.call)
}

/// Both files are missing, and each is made by its own first write.
fn write_first<R: Files + Abort>(rt: &R, data_name: &str, log_name: &str)
where
    R::File: StoreFile,
{
    let mut disk = Host::new(rt, data_name, log_name);
    assert_eq!(rt; disk.len(File::Log), Ok(0));
    assert_eq!(rt; disk.sync(File::Data), Ok(()));
    assert_eq!(rt; disk.write_at(File::Data, 2, b"data"), Ok(()));
    assert_eq!(rt; fs::exists(rt, data_name).ok(), Some(true));
    assert_eq!(rt; fs::exists(rt, log_name).ok(), Some(false));
    assert_eq!(rt; disk.write_at(File::Log, 3, b""), Ok(()));
    assert_eq!(rt; disk.sync(File::Log), Ok(()));
    let mut other = Host::new(rt, data_name, log_name);
    assert_eq!(rt; other.len(File::Log), Err(Failed));
    assert_eq!(rt; failed(&other), Some(Call::Lock));
    assert_eq!(rt; disk.moment(), 5);
}

/// The lock has ended with its disk, and each name has its own bytes.
fn read_again<R: Files + Abort>(rt: &R, data_name: &str, log_name: &str)
where
    R::File: StoreFile,
{
    let mut disk = Host::new(rt, data_name, log_name);
    let mut buf = [7u8; 8];
    assert_eq!(rt; disk.len(File::Log), Ok(3));
    assert_eq!(rt; disk.read(File::Data, 1, &mut buf), Ok(5));
    assert_eq!(rt; buf, *b"\0data\x07\x07\x07");
    assert_eq!(rt; disk.write_at(File::Data, u64::MAX, b"x"), Err(Failed));
}

#[test]
fn a_file_is_made_by_its_first_write_and_locked(rt: HostRuntime) -> Result<(), Fail> {
    let id = process::id(rt.process());
    let data_name = format!(in rt.alloc(); "/tmp/assm-host-{id}.dat")?;
    let log_name = format!(in rt.alloc(); "/tmp/assm-host-{id}.log")?;
    write_first(&rt, data_name.as_str(), log_name.as_str());
    read_again(&rt, data_name.as_str(), log_name.as_str());
    fs::remove_file(&rt, data_name.as_str())?;
    fs::remove_file(&rt, log_name.as_str())?;
    Ok(())
}

/// A log that can't be opened: each call fails, and says the first failure.
fn is_refused<R: Files + Abort>(rt: &R, data_name: &str, log_name: &str, call: Call)
where
    R::File: StoreFile,
{
    let mut disk = Host::new(rt, data_name, log_name);
    assert_eq!(rt; disk.len(File::Log), Err(Failed));
    assert_eq!(rt; disk.len(File::Data), Err(Failed));
    assert_eq!(rt; failed(&disk), Some(call));
    assert_eq!(rt; disk.faults(), 2);
}

/// The log of ten bytes is cut to four under an open disk.
fn is_cut<R: Files + Abort>(rt: &R, log_name: &str) -> Result<(), Fail>
where
    R::File: StoreFile,
{
    let mut disk = Host::new(rt, "/tmp/no/such/folder", log_name);
    assert_eq!(rt; disk.len(File::Log), Ok(10));
    OpenOptions::new()
        .write(true)
        .open(rt, log_name)?
        .set_len(4)?;
    assert_eq!(rt; disk.read(File::Log, 0, &mut [0u8; 4]), Ok(4));
    assert_eq!(rt; disk.read(File::Log, 0, &mut [0u8; 8]), Err(Failed));
    assert_eq!(rt; failed(&disk), Some(Call::Read));
    assert_eq!(rt; disk.len(File::Log), Err(Failed));
    assert_eq!(rt; disk.write_at(File::Log, 10, b"x"), Err(Failed));
    assert_eq!(rt; disk.write_at(File::Data, 0, b"x"), Err(Failed));
    Ok(())
}

/// A link to a file, a folder, one file under both names, and a file that is cut.
#[test]
fn what_is_no_file_of_its_own_is_refused(rt: HostRuntime) -> Result<(), Fail> {
    let id = process::id(rt.process());
    let file = format!(in rt.alloc(); "/tmp/assm-host-{id}-file")?;
    let link = format!(in rt.alloc(); "/tmp/assm-host-{id}-link")?;
    fs::write(&rt, file.as_str(), "some bytes")?;
    symlink(&rt, file.as_str(), link.as_str())?;
    is_refused(&rt, file.as_str(), link.as_str(), Call::Open);
    is_refused(&rt, "/tmp", file.as_str(), Call::Open);
    is_refused(&rt, file.as_str(), file.as_str(), Call::Lock);
    is_cut(&rt, file.as_str())?;
    fs::remove_file(&rt, link.as_str())?;
    fs::remove_file(&rt, file.as_str())?;
    Ok(())
}

/// Gives two bytes at each second call, four in all; a signal interrupts the others.
#[derive(Drop)]
struct Interrupted {
    calls: Cell<u64>,
}

impl FileExt for Interrupted {
    fn read_at(&self, buf: &mut [u8], offset: u64) -> io::Result<usize> {
        self.calls.set(self.calls.get().saturating_add(1));
        if self.calls.get() % 2 == 1 {
            return Err(io::Error::from(ErrorKind::Interrupted));
        }
        match buf {
            [first, second, ..] if offset < 4 => {
                *first = b'a';
                *second = b'b';
                Ok(2)
            }
            _ => Ok(0),
        }
    }

    fn write_at(&self, _buf: &[u8], _offset: u64) -> io::Result<usize> {
        Err(io::Error::from(ErrorKind::Unsupported))
    }
}

#[test]
fn an_interrupted_read_is_made_again(rt: HostRuntime) {
    let file = Interrupted {
        calls: Cell::new(0),
    };
    let mut buf = [0u8; 8];
    assert_eq!(rt; read_from(&file, 0, &mut buf).ok(), Some(4));
    assert_eq!(rt; buf, *b"abab\0\0\0\0");
    assert_eq!(rt; file.calls.get(), 6);
}
