// What no clause says: that calls succeed, and what the adapters of the real streams do.
ghost use Rattle.std.specs.Prelude.{◌≡◌, IfOk};

use crate::{
    MemorySink, MemorySource, Quiet, ReadEnd, Sink, Source, Stdin, Stdout, read_all, write_all,
};
use seg_base::Failed;
use std::io::{self, ErrorKind, Read, Write};
use std::test::Fail;

/// 5,000 bytes take more than one piece. The bound itself is allowed, and one byte more is not.
#[test]
fn all_is_read_up_to_the_bound(rt: HostRuntime) -> Result<(), Fail> {
    let alloc = rt.alloc();
    let mut text = [b'x'; 5000];
    text[0] = b'a';
    text[4999] = b'z';
    let mut source = MemorySource::new(alloc, &text, &[])?;
    let all = read_all(alloc, &mut source, 5000).ok();
    assert!(rt; all.is_some());
    if let Some(all) = all {
        assert_eq!(rt; all.as_slice(), text.as_slice());
    }
    let mut source = MemorySource::new(alloc, &text, &[])?;
    assert_eq!(rt;
        read_all(alloc, &mut source, 4999).err(),
        Some(ReadEnd::TooLong)
    );
    for call in 0..3 {
        let mut source = MemorySource::new(alloc, &text, &[call])?;
        assert_eq!(rt;
            read_all(alloc, &mut source, 5000).err(),
            Some(ReadEnd::ReadFault)
        );
    }
    Ok(())
}

/// Seven bytes a call, so that eleven bytes take two calls.
#[test]
fn all_is_written_or_a_first_part(rt: HostRuntime) -> Result<(), Fail> {
    let alloc = rt.alloc();
    let mut sink = MemorySink::new(alloc, 7, &[])?;
    assert_eq!(rt; write_all(&mut sink, b"hello world"), Ok(()));
    assert_eq!(rt; sink.bytes(), b"hello world".as_slice());
    assert_eq!(rt; sink.faults(), 0);
    let mut sink = MemorySink::new(alloc, 7, &[1])?;
    assert_eq!(rt; write_all(&mut sink, b"hello world"), Err(Failed));
    assert_eq!(rt; sink.bytes(), b"hello w".as_slice());
    assert_eq!(rt; sink.faults(), 1);
    assert_eq!(rt; write_all(&mut Quiet, b"hello world"), Ok(()));
    assert_eq!(rt; Quiet.faults(), 0);
    Ok(())
}

/// A reader and a writer whose calls are interrupted, each second one; the writer takes nothing.
#[derive(Drop)]
struct Full {
    interrupted: bool,
}

impl Full {
    fn call(&mut self, count: usize) -> io::Result<usize>
        ensures { IfOk result (λ n. n ≡ count) }
    {
        self.interrupted = !self.interrupted;
        if self.interrupted {
            return Err(io::Error::from(ErrorKind::Interrupted));
        }
        Ok(count)
    }
}

impl Read for Full {
    fn read(&mut self, _buf: &mut [u8]) -> io::Result<usize> {
        self.call(0)
    }
}

impl Write for Full {
    fn write(&mut self, _buf: &[u8]) -> io::Result<usize> {
        self.call(0)
    }

    fn flush(&mut self) -> io::Result<()> {
        Ok(())
    }
}

/// The real streams are behind these adapters. A reader in memory stands for standard input.
#[test]
fn adapters_pass_bytes_on_and_count_faults(rt: HostRuntime) -> Result<(), Fail> {
    let mut source = Stdin::new(b"abc".as_slice());
    let mut piece = [0; 2];
    assert_eq!(rt; source.read(&mut piece), Ok(2));
    assert_eq!(rt; piece, *b"ab");
    assert_eq!(rt; source.read(&mut piece), Ok(1));
    assert_eq!(rt; source.read(&mut piece), Ok(0));
    let mut sink = Stdout::new(rt.stdout());
    assert_eq!(rt; write_all(&mut sink, b"to standard output\n"), Ok(()));
    assert_eq!(rt; sink.faults(), 0);
    let mut end = Stdin::new(Full { interrupted: false });
    assert_eq!(rt; end.read(&mut piece), Ok(0));
    assert!(rt; end.cause().is_none());
    let mut full = Stdout::new(Full { interrupted: false });
    assert_eq!(rt; full.write(b""), Ok(0));
    assert_eq!(rt; full.write(b"x"), Err(Failed));
    assert_eq!(rt; full.faults(), 1);
    if let Some(cause) = full.cause() {
        let words = cause.line(rt.alloc())?;
        assert_eq!(rt; words.as_str(), "standard output: write: no byte was taken");
    }
    Ok(())
}
