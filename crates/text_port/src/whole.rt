// Reading to the end, and writing all.
ghost use Rattle.std.specs.Prelude.{◌≡◌, ◌≤◌, length, IfOk, IsErrOf, OnErr, OnOk};
ghost use Rattle.std.specs.Io.KnownBytes.{Appends, IsAtEnd};
ghost use Rattle.seg_words.specs.Types.{Rose, HasCause};
ghost use Rattle.text_port.specs.Whole.{AppendsPrefix, WereAll, WasLonger};

use crate::{Sink, Source};
use seg_base::Failed;
use std::alloc::Global;
use thiserror::Error;

/// Why reading to the end gave nothing.
#[derive(Clone, Copy, Debug, PartialEq, Eq, Error)]
pub enum ReadEnd {
    #[error("the source has failed")]
    ReadFault,
    #[error("more bytes than are allowed")]
    TooLong,
    #[error("no memory")]
    NoMemory,
}

const PIECE: usize = 4096;

/// All that is left, where that is at most this many bytes. No more than one byte further is taken.
#[tactic(auto, using(crate::proofs::Pieces::consumes_more, crate::proofs::Pieces::consumes_none, crate::proofs::Pieces::were_all, crate::proofs::Pieces::was_longer))]
pub fn read_all<S: Source>(alloc: Global, source: &mut S, most: usize) -> Result<Vec<u8>, ReadEnd>
    ensures all { IfOk result (λ bytes. WereAll (S.left source.old) bytes.items) }
    ensures within { IfOk result (λ bytes. length bytes.items ≤ most) }
    ensures end { OnOk result (IsAtEnd (S.left source.new)) }
    ensures too_long { IsErrOf result ReadEnd.TooLong → WasLonger (S.left source.old) most }
    ensures read_fault { IsErrOf result ReadEnd.ReadFault → Rose (S.fault_count source.old) (S.fault_count source.new) }
    ensures later { S.fault_count source.old ≤ S.fault_count source.new }
{
    let mut bytes = Vec::new(alloc);
    let mut piece = [0; PIECE];
    while bytes.len() <= most {
        let room = (most - bytes.len()).min(PIECE - 1) + 1;
        let Ok(count) = source.read(&mut piece[..room]) else {
            return Err(ReadEnd::ReadFault);
        };
        if count == 0 {
            return Ok(bytes);
        }
        if bytes.extend_from_slice(&piece[..count]).is_err() {
            return Err(ReadEnd::NoMemory);
        }
    }
    Err(ReadEnd::TooLong)
}

/// Writes all the bytes. At an error some first of them were taken.
#[tactic(auto, using(crate::proofs::Pieces::taken_more, crate::proofs::Pieces::appends_none, crate::proofs::Pieces::prefix_at))]
pub fn write_all<K: Sink>(sink: &mut K, bytes: &[u8]) -> Result<(), Failed>
    ensures all { OnOk result (Appends (K.written sink.old) (K.written sink.new) bytes.now) }
    ensures part { OnErr result (AppendsPrefix (K.written sink.old) (K.written sink.new) bytes.now) }
    ensures cause { HasCause (K.fault_count sink.old) (K.fault_count sink.new) result }
{
    let mut done = 0;
    while done < bytes.len() {
        done += sink.write(&bytes[done..])?;
    }
    Ok(())
}
