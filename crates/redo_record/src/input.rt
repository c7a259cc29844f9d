// Bytes that are read from left to right, and the plain fields.
ghost use Rattle.std.specs.Prelude.{◌≡◌};
ghost use Rattle.seg_words.specs.Types.{w16, w32, w64};
ghost use Rattle.redo_record.specs.Forms.{Reads, ReadsBytes, byte, number, text};
ghost use Rattle.redo_record.specs.Reading.{obj_at, code_at, flag_at, entry_at, block_at};

use crate::fault::ReadFault;
use seg_base::{Dba, MOST_TABLES, Obj, Text};
use std::alloc::Global;
use std::marker::Model;

/// The bytes that are still to be read.
#[derive(Drop)]
pub struct Input<'a> {
    rest: &'a [u8],
}

impl<'a> Model for Input<'a> {
    ghost use Rattle.std.specs.Prelude.{List, ℕ};

    ghost Value = { List ℕ };

    ghost view = { λ i. i.rest.now };
}

impl<'a> Input<'a> {
    pub fn new(bytes: &'a [u8]) -> Input<'a>
        ensures { result ≡ bytes.now }
    {
        Input { rest: bytes }
    }

    pub fn rest(&self) -> &[u8]
        ensures { result.now ≡ self.now }
    {
        self.rest
    }

    pub fn byte(&mut self) -> Result<u8, ReadFault>
        ensures { Reads result self.new (byte self.old) }
    {
        match self.rest {
            [] => Err(ReadFault::NotARecord),
            [first, rest @ ..] => {
                self.rest = rest;
                Ok(*first)
            }
        }
    }

    pub fn u16(&mut self) -> Result<u16, ReadFault>
        ensures { Reads result self.new (number w16 self.old) }
    {
        if self.rest.len() < 2 {
            return Err(ReadFault::NotARecord);
        }
        let (front, rest) = self.rest.split_at(2);
        self.rest = rest;
        Ok(u16::from_be_bytes([front[0], front[1]]))
    }

    pub fn u32(&mut self) -> Result<u32, ReadFault>
        ensures { Reads result self.new (number w32 self.old) }
    {
        if self.rest.len() < 4 {
            return Err(ReadFault::NotARecord);
        }
        let (front, rest) = self.rest.split_at(4);
        self.rest = rest;
        Ok(u32::from_be_bytes([front[0], front[1], front[2], front[3]]))
    }

    pub fn u64(&mut self) -> Result<u64, ReadFault>
        ensures { Reads result self.new (number w64 self.old) }
    {
        if self.rest.len() < 8 {
            return Err(ReadFault::NotARecord);
        }
        let (front, rest) = self.rest.split_at(8);
        self.rest = rest;
        Ok(u64::from_be_bytes([
            front[0], front[1], front[2], front[3], front[4], front[5], front[6], front[7],
        ]))
    }

    /// So many bytes.
    pub fn take(&mut self, len: usize) -> Result<&'a [u8], ReadFault>
        ensures { ReadsBytes result self.new (text len self.old) }
    {
        if self.rest.len() < len {
            return Err(ReadFault::NotARecord);
        }
        let (front, rest) = self.rest.split_at(len);
        self.rest = rest;
        Ok(front)
    }

    pub fn dba(&mut self) -> Result<Dba, ReadFault>
        ensures { Reads result self.new (number w32 self.old) }
    {
        Ok(Dba(self.u32()?))
    }

    #[tactic(auto, unfolding(crate::specs::Reading::obj_at))]
    pub fn obj(&mut self) -> Result<Obj, ReadFault>
        ensures { Reads result self.new (obj_at self.old) }
    {
        let number = self.byte()?;
        if number == 0 || number > MOST_TABLES {
            return Err(ReadFault::NotARecord);
        }
        Ok(Obj(number))
    }

    /// A class code.
    #[tactic(auto, unfolding(crate::specs::Reading::code_at))]
    pub fn code(&mut self) -> Result<u8, ReadFault>
        ensures { Reads result self.new (code_at self.old) }
    {
        let code = self.byte()?;
        if code > 5 {
            return Err(ReadFault::NotARecord);
        }
        Ok(code)
    }

    #[tactic(auto, unfolding(crate::specs::Reading::flag_at))]
    pub fn flag(&mut self) -> Result<bool, ReadFault>
        ensures { Reads result self.new (flag_at self.old) }
    {
        match self.byte()? {
            0 => Ok(false),
            1 => Ok(true),
            _ => Err(ReadFault::NotARecord),
        }
    }

    /// A list entry, or 255 for none.
    #[tactic(auto, unfolding(crate::specs::Reading::entry_at))]
    pub fn entry(&mut self) -> Result<Option<u8>, ReadFault>
        ensures { Reads result self.new (entry_at self.old) }
    {
        match self.byte()? {
            255 => Ok(None),
            entry => Ok(Some(entry)),
        }
    }

    /// A block, or 0 for none.
    #[tactic(auto, unfolding(crate::specs::Reading::block_at))]
    pub fn block(&mut self) -> Result<Option<Dba>, ReadFault>
        ensures { Reads result self.new (block_at self.old) }
    {
        match self.u32()? {
            0 => Ok(None),
            block => Ok(Some(Dba(block))),
        }
    }
}

/// A text of so many bytes.
pub fn text_of(alloc: Global, len: u16, input: &mut Input) -> Result<Text, ReadFault>
    ensures { Reads result input.new (text len input.old) }
{
    let bytes = input.take(usize::from(len))?;
    Ok(Text::copy(alloc, bytes)?)
}
