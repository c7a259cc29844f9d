// The levels of the bitmap above the first.
ghost use Rattle.std.specs.Prelude.{◌≡◌, ◌+◌, ◌<◌, ◌≤◌, replicate, slice_index, slice_set};
ghost use Rattle.seg_words.specs.Types.{PAGE_HEAD_SIZE, BLOCK_SIZE};
ghost use Rattle.bitmap_block.specs.Codes.{GREATEST_CODE, best_of, cleared_from};
ghost use Rattle.bitmap_block.specs.Pages.{IsSummary, spelling_of_summary, summary_in};

use crate::best::best_of;
use crate::code::read_codes;
use page_bytes::{add, begin, head_bytes, in_range, number_u32, number_u64};
use seg_base::{BLOCK_SIZE, Dba, Lsn, PAGE_HEAD_SIZE};
use std::marker::Model;

/// A level above the first: the best code of each of so many blocks of the level below.
#[derive(Debug, Drop)]
pub struct UpperLevel<const CODES: usize> {
    dba: Dba,
    lsn: Lsn,
    codes: [u8; CODES],
}

impl<const CODES: usize> Model for UpperLevel<CODES> {
    ghost use Rattle.bitmap_block.specs.Codes.{HasCodes};
    ghost use Rattle.bitmap_block.specs.Pages.{Summary};

    ghost Value = { Summary };

    ghost view = { λ m. record { dba = m.dba; lsn = m.lsn; codes = m.codes } };

    ghost invariant = { λ m. HasCodes CODES m.codes };
}

/// The first so many codes, and none behind them.
fn front_of<const CODES: usize>(codes: &[u8; CODES], count: u16) -> [u8; CODES]
    requires { count ≤ CODES }
    ensures { result ≡ cleared_from CODES count codes.now }
{
    let count = usize::from(count);
    let mut front = [0; CODES];
    front[..count].copy_from_slice(&codes[..count]);
    front
}

impl<const CODES: usize> UpperLevel<CODES> {
    pub fn new(dba: Dba) -> UpperLevel<CODES>
        ensures { result ≡ record { dba = dba; lsn = 0; codes = replicate CODES 0 } }
    {
        let codes = [0; CODES];
        UpperLevel {
            dba,
            lsn: Lsn(0),
            codes,
        }
    }

    pub fn duplicate(&self) -> UpperLevel<CODES>
        ensures { result ≡ self.now }
    {
        let codes = self.codes;
        UpperLevel {
            dba: self.dba,
            lsn: self.lsn,
            codes,
        }
    }

    pub fn set_lsn(&mut self, lsn: Lsn)
        ensures { self.new ≡ record self.old { lsn = lsn } }
    {
        let _codes = &self.codes;
        self.lsn = lsn;
    }

    pub fn dba(&self) -> Dba
        ensures { result ≡ self.now.dba }
    {
        self.dba
    }

    pub fn lsn(&self) -> Lsn
        ensures { result ≡ self.now.lsn }
    {
        self.lsn
    }

    /// The best code of the ith block below.
    pub fn get(&self, i: u16) -> u8
        requires { i < CODES }
        ensures code { result ≡ slice_index self.now.codes i }
        ensures range { result ≤ GREATEST_CODE }
    {
        self.codes[usize::from(i)]
    }

    /// Keeps the best code of the ith block below.
    pub fn set(&mut self, i: u16, code: u8)
        requires place { i < CODES }
        requires code { code ≤ GREATEST_CODE }
        ensures { self.new ≡ record self.old { codes = slice_set self.old.codes i code } }
    {
        self.codes[usize::from(i)] = code;
    }

    /// Takes away the codes from the ith block below on.
    pub fn clear_from(&mut self, first: u16)
        requires { first ≤ CODES }
        ensures { self.new ≡ record self.old { codes = cleared_from CODES first self.old.codes } }
    {
        let codes = front_of(&self.codes, first);
        self.codes = codes;
    }

    /// The greatest code from 2 on, else 0.
    pub fn best(&self) -> u8
        ensures { result ≡ best_of self.now.codes }
    {
        best_of(&self.codes)
    }

    /// Each of these blocks has a spelling: what is written of it is read back.
    pub fn has_spelling(&self)
        ensures { IsSummary CODES self.now }
    {
        let _codes = &self.codes;
        let dba = self.dba;
        let lsn = self.lsn;
        in_range(dba.0, lsn.0);
    }

    /// What the page of such a level reads as.
    pub(crate) fn read_from(bytes: &[u8; BLOCK_SIZE]) -> UpperLevel<CODES>
        requires { PAGE_HEAD_SIZE + CODES ≤ BLOCK_SIZE }
        ensures { result ≡ summary_in CODES bytes.now }
    {
        let mut codes = [0; CODES];
        let (_, rest) = bytes.split_at(PAGE_HEAD_SIZE);
        read_codes(rest, &mut codes);
        UpperLevel {
            dba: Dba(number_u32(bytes, 4)),
            lsn: Lsn(number_u64(bytes, 8)),
            codes,
        }
    }

    /// Writes the level as a page of this kind.
    pub(crate) fn write_as(&self, kind: u8, out: &mut [u8; BLOCK_SIZE])
        requires { PAGE_HEAD_SIZE + CODES ≤ BLOCK_SIZE }
        ensures { out.new ≡ spelling_of_summary kind self.now }
    {
        let start = begin(out);
        let head = add(out, start, &head_bytes(kind, 0, 0, self.dba, self.lsn));
        add(out, head, &self.codes);
    }
}
