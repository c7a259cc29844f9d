// Reading and writing at a place of an open file, in one call each where the system does all of it. A call that a signal
// interrupted is made again.
ghost use Rattle.std.specs.Prelude.{◌≤◌, length, IfOk};

use std::fs::OpenFile;
use std::io::{self, ErrorKind};
use std::os::unix::fs::FileExt;

/// Reads on until the buffer is full or the file ends, and says how many bytes came.
pub(crate) fn read_from<F: FileExt>(file: &F, offset: u64, buf: &mut [u8]) -> io::Result<usize>
    ensures { IfOk result (λ count. count ≤ length buf.old) }
{
    let mut filled = 0;
    for _ in 0..u64::MAX {
        if filled == buf.len() {
            return Ok(filled);
        }
        let at = offset.saturating_add(filled as u64);
        match file.read_at(&mut buf[filled..], at) {
            Ok(0) => return Ok(filled),
            Ok(count) => filled += count,
            Err(error) if error.kind() == ErrorKind::Interrupted => {}
            Err(error) => return Err(error),
        }
    }
    Err(io::Error::from(ErrorKind::Interrupted))
}

/// Writes all the bytes. Without bytes it only makes the file as long as the offset, as a write past the end does.
pub(crate) fn write_to<F: OpenFile + FileExt>(
    file: &F,
    offset: u64,
    bytes: &[u8],
) -> io::Result<()> {
    if !bytes.is_empty() {
        return file.write_all_at(bytes, offset);
    }
    if file.metadata()?.len() < offset {
        file.set_len(offset)?;
    }
    Ok(())
}
