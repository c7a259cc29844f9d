// The space bitmap, block 3.
ghost use Rattle.std.specs.Prelude.{◌≡◌, ◌<◌, ◌≤◌, ◌^◌, ◌-◌, length, not, replicate, IfOk};
ghost use Rattle.segment_blocks.specs.Spaces.{is_used, Finds, spelling_of_space, bits_in, HasBits, IsSpace, with_bit, with_extent};

use page_bytes::{PageForm, add, begin, head_bytes, in_range, number_u32, number_u64};
use seg_base::{BLOCK_SIZE, Dba, Lsn, NoMemory};
use std::alloc::Global;
use std::marker::Model;

const KIND: u8 = 4;

/// Which of the store's extents, at most 2,043, are in use, and how often marks were lowered.
#[derive(Debug, Drop)]
pub struct SpaceBitmap {
    dba: Dba,
    lsn: Lsn,
    lowerings: u64,
    bits: [u8; 256],
}

impl Model for SpaceBitmap {
    ghost use Rattle.segment_blocks.specs.Spaces.{Space, HasBits};

    ghost Value = { Space };

    ghost view = { λ s. record { dba = s.dba; lsn = s.lsn; lowerings = s.lowerings; bits = s.bits } };

    ghost invariant = { λ s. HasBits s.bits };
}

/// What the bit of an extent counts in its byte.
fn weight(bit: u32) -> u8
    requires { bit < 8 }
    ensures value { result ≡ 2 ^ (7 - bit) }
    ensures least { 1 ≤ result }
{
    match bit {
        0 => 128,
        1 => 64,
        2 => 32,
        3 => 16,
        4 => 8,
        5 => 4,
        6 => 2,
        _ => 1,
    }
}

fn is_used(bits: &[u8; 256], extent: u32) -> bool
    requires { extent < 2043 }
    ensures { result ≡ is_used bits.now extent }
{
    let byte = bits[(extent / 8) as usize];
    byte / weight(extent % 8) % 2 == 1
}

/// A byte with one of its bits written anew, the lowest being bit 0.
fn with_bit(byte: u8, bit: u32, on: bool) -> u8
    requires { bit < 8 }
    ensures value { result ≡ with_bit byte bit on }
    ensures range { byte < 256 }
{
    if on {
        byte | 1 << bit
    } else {
        byte & !(1 << bit)
    }
}

impl SpaceBitmap {
    /// The bitmap of a store without a table.
    pub fn new(dba: Dba) -> SpaceBitmap
        ensures { result ≡ record { dba = dba; lsn = 0; lowerings = 0; bits = replicate 256 0 } }
    {
        let bits = [0; 256];
        SpaceBitmap {
            dba,
            lsn: Lsn(0),
            lowerings: 0,
            bits,
        }
    }

    pub fn duplicate(&self) -> SpaceBitmap
        ensures { result ≡ self.now }
    {
        let bits = self.bits;
        SpaceBitmap {
            dba: self.dba,
            lsn: self.lsn,
            lowerings: self.lowerings,
            bits,
        }
    }

    pub fn set_lsn(&mut self, lsn: Lsn)
        ensures { self.new ≡ record self.old { lsn = lsn } }
    {
        let _bits = &self.bits;
        self.lsn = lsn;
    }

    pub fn set_lowerings(&mut self, lowerings: u64)
        ensures { self.new ≡ record self.old { lowerings = lowerings } }
    {
        let _bits = &self.bits;
        self.lowerings = lowerings;
    }

    /// Keeps whether an extent is in use.
    pub fn mark(&mut self, extent: u32, used: bool)
        requires { extent < 2043 }
        ensures { self.new ≡ record self.old { bits = with_extent self.old.bits extent used } }
    {
        let at = (extent / 8) as usize;
        let byte = self.bits[at];
        self.bits[at] = with_bit(byte, 7 - extent % 8, used);
    }

    pub fn dba(&self) -> Dba
        ensures { result ≡ self.now.dba }
    {
        self.dba
    }

    pub fn lsn(&self) -> Lsn
        ensures { result ≡ self.now.lsn }
    {
        self.lsn
    }

    /// How often a table's marks were lowered.
    pub fn lowerings(&self) -> u64
        ensures { result ≡ self.now.lowerings }
    {
        self.lowerings
    }

    pub fn is_free(&self, extent: u32) -> bool
        requires { extent < 2043 }
        ensures { result ≡ not (is_used self.now.bits extent) }
    {
        !is_used(&self.bits, extent)
    }

    /// The least of the first so many extents that is free, None exactly where each is in use.
    #[tactic(auto, using(crate::proofs::Searching::none_free, crate::proofs::Searching::next_used, crate::proofs::Searching::found_free))]
    pub fn least_free(&self, extents: u32) -> Option<u32>
        requires { extents ≤ 2043 }
        ensures { Finds self.now.bits extents result }
    {
        for extent in 0..extents {
            if self.is_free(extent) {
                return Some(extent);
            }
        }
        None
    }

    /// Each of these pages has a spelling: what is written of it is read back.
    pub fn has_spelling(&self)
        ensures { IsSpace self.now }
    {
        let _bits = &self.bits;
        let dba = self.dba;
        let lsn = self.lsn;
        in_range(dba.0, lsn.0);
        in_range(dba.0, self.lowerings);
    }
}

#[tactic(auto, using(crate::proofs::Searching::cleared, crate::proofs::Searching::bits_read))]
fn read_bits(bytes: &[u8]) -> [u8; 256]
    requires { 256 ≤ length bytes.now }
    ensures value { result ≡ bits_in bytes.now }
    ensures bits { HasBits result }
{
    let mut bits = [0; 256];
    let (front, _) = bytes.split_at(256);
    bits.copy_from_slice(front);
    bits[255] = bits[255] / 32 * 32;
    bits
}

impl PageForm for SpaceBitmap {
    ghost use Rattle.segment_blocks.specs.Spaces.{spelling_of_space, space_in, IsSpace};
    ghost use Rattle.segment_blocks.specs.SpaceAgain.{space_again};

    ghost spelling = { spelling_of_space };

    ghost meaning = { space_in };

    ghost HasSpelling = { IsSpace };

    #[tactic(auto, unfolding(crate::specs::Spaces::space_in))]
    fn read(_alloc: Global, bytes: &[u8; BLOCK_SIZE]) -> Result<SpaceBitmap, NoMemory> {
        let (_, rest) = bytes.split_at(24);
        let bits = read_bits(rest);
        Ok(SpaceBitmap {
            dba: Dba(number_u32(bytes, 4)),
            lsn: Lsn(number_u64(bytes, 8)),
            lowerings: number_u64(bytes, 16),
            bits,
        })
    }

    fn write(&self, out: &mut [u8; BLOCK_SIZE]) {
        write_page(self.dba, self.lsn, self.lowerings, &self.bits, out);
    }

    ghost reads_again = { space_again };
}

fn write_page(dba: Dba, lsn: Lsn, lowerings: u64, bits: &[u8; 256], out: &mut [u8; BLOCK_SIZE])
    ensures { out.new ≡ spelling_of_space (record { dba = dba; lsn = lsn; lowerings = lowerings; bits = bits.now }) }
{
    let start = begin(out);
    let lowerings_at = add(out, start, &head_bytes(KIND, 0, 0, dba, lsn));
    let bits_at = add(out, lowerings_at, &lowerings.to_be_bytes());
    add(out, bits_at, bits);
}
