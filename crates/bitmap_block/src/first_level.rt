// The bitmap of an extent.
ghost use Rattle.std.specs.Prelude.{◌≡◌, ◌<◌, ◌≤◌, replicate, slice_index, slice_set};
ghost use Rattle.bitmap_block.specs.Codes.{CODES_OF_L1, GREATEST_CODE, best_of};
ghost use Rattle.bitmap_block.specs.Pages.{spelling_of_map, IsMap};

use crate::best::best_of;
use crate::code::read_codes;
use crate::limit::{CODES_OF_L1, MAP_HEAD_SIZE};
use page_bytes::{PageForm, add, begin, head_bytes, in_range, number_u32, number_u64};
use seg_base::{BLOCK_SIZE, Dba, Lsn, NoMemory, PAGE_HEAD_SIZE};
use std::alloc::Global;
use std::marker::Model;

const KIND: u8 = 7;

/// The bitmap block of an extent: the LSN of the record by which a table got the extent, and the class code of each of
/// its blocks, 0 for those that hold no data or aren't formatted.
#[derive(Debug, Drop)]
pub struct L1 {
    dba: Dba,
    lsn: Lsn,
    incarnation: Lsn,
    codes: [u8; CODES_OF_L1],
}

impl Model for L1 {
    ghost use Rattle.bitmap_block.specs.Codes.{CODES_OF_L1, HasCodes};
    ghost use Rattle.bitmap_block.specs.Pages.{ExtentMap};

    ghost Value = { ExtentMap };

    ghost view = { λ m. record { dba = m.dba; lsn = m.lsn; incarnation = m.incarnation; codes = m.codes } };

    ghost invariant = { λ m. HasCodes CODES_OF_L1 m.codes };
}

impl L1 {
    pub fn new(dba: Dba, incarnation: Lsn) -> L1
        ensures { result ≡ record { dba = dba; lsn = 0; incarnation = incarnation; codes = replicate CODES_OF_L1 0 } }
    {
        let codes = [0; CODES_OF_L1];
        L1 {
            dba,
            lsn: Lsn(0),
            incarnation,
            codes,
        }
    }

    pub fn duplicate(&self) -> L1
        ensures { result ≡ self.now }
    {
        let codes = self.codes;
        L1 {
            dba: self.dba,
            lsn: self.lsn,
            incarnation: self.incarnation,
            codes,
        }
    }

    pub fn set_lsn(&mut self, lsn: Lsn)
        ensures { self.new ≡ record self.old { lsn = lsn } }
    {
        let _codes = &self.codes;
        self.lsn = lsn;
    }

    pub fn dba(&self) -> Dba
        ensures { result ≡ self.now.dba }
    {
        self.dba
    }

    pub fn lsn(&self) -> Lsn
        ensures { result ≡ self.now.lsn }
    {
        self.lsn
    }

    pub fn incarnation(&self) -> Lsn
        ensures { result ≡ self.now.incarnation }
    {
        self.incarnation
    }

    /// The code of the extent's ith block.
    pub fn get(&self, i: u16) -> u8
        requires { i < CODES_OF_L1 }
        ensures code { result ≡ slice_index self.now.codes i }
        ensures range { result ≤ GREATEST_CODE }
    {
        self.codes[usize::from(i)]
    }

    /// Keeps a code of the extent's ith block.
    pub fn set(&mut self, i: u16, code: u8)
        requires place { i < CODES_OF_L1 }
        requires code { code ≤ GREATEST_CODE }
        ensures { self.new ≡ record self.old { codes = slice_set self.old.codes i code } }
    {
        self.codes[usize::from(i)] = code;
    }

    /// The greatest code from 2 on, else 0.
    pub fn best(&self) -> u8
        ensures { result ≡ best_of self.now.codes }
    {
        best_of(&self.codes)
    }

    /// Each of these blocks has a spelling: what is written of it is read back.
    pub fn has_spelling(&self)
        ensures { IsMap self.now }
    {
        let _codes = &self.codes;
        let dba = self.dba;
        let lsn = self.lsn;
        let incarnation = self.incarnation;
        in_range(dba.0, lsn.0);
        in_range(dba.0, incarnation.0);
    }
}

impl PageForm for L1 {
    ghost use Rattle.bitmap_block.specs.Pages.{spelling_of_map, map_in, IsMap};
    ghost use Rattle.bitmap_block.specs.Again.{map_again};

    ghost spelling = { spelling_of_map };

    ghost meaning = { map_in };

    ghost HasSpelling = { IsMap };

    fn read(_alloc: Global, bytes: &[u8; BLOCK_SIZE]) -> Result<L1, NoMemory> {
        let mut codes = [0; CODES_OF_L1];
        let (_, rest) = bytes.split_at(MAP_HEAD_SIZE);
        read_codes(rest, &mut codes);
        Ok(L1 {
            dba: Dba(number_u32(bytes, 4)),
            lsn: Lsn(number_u64(bytes, 8)),
            incarnation: Lsn(number_u64(bytes, PAGE_HEAD_SIZE)),
            codes,
        })
    }

    fn write(&self, out: &mut [u8; BLOCK_SIZE]) {
        write_map(self.dba, self.lsn, self.incarnation.0, &self.codes, out);
    }

    ghost reads_again = { map_again };
}

fn write_map(
    dba: Dba,
    lsn: Lsn,
    incarnation: u64,
    codes: &[u8; CODES_OF_L1],
    out: &mut [u8; BLOCK_SIZE],
)
    ensures { out.new ≡ spelling_of_map (record { dba = dba; lsn = lsn; incarnation = incarnation; codes = codes.now }) }
{
    let start = begin(out);
    let head = add(out, start, &head_bytes(KIND, 0, 0, dba, lsn));
    let front = add(out, head, &incarnation.to_be_bytes());
    add(out, front, codes);
}
