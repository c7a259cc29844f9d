// A segment's header.
ghost use Rattle.std.specs.Prelude.{◌≡◌, ◌≤◌, ◌^◌, ◌<◌, [], false, List, ℕ, length, IfOk, ◌++◌, ◌∷◌, take, OnOk, OnErr};
ghost use Rattle.seg_words.specs.Types.{AllByRecursion};
ghost use Rattle.segment_blocks.specs.Headers.{Header, IsHeader, flag, fields_of, is_on, obj_in, extent_at, header_with, spelling_of_header};

use crate::extent::ExtentNumber;
use page_bytes::{
    PageForm, add, add_all, begin, head_bytes, in_range, number_u16, number_u32, number_u64,
    read_all,
};
use seg_base::{
    BLOCK_SIZE, Dba, Lsn, MOST_EXTENTS, MOST_PCTFREE, MOST_TABLES, NoMemory, Obj, put_at,
};
use std::alloc::Global;
use std::marker::Model;

const KIND: u8 = 10;

/// The header of a table's segment.
#[derive(Debug, Drop)]
pub struct SegmentHeader {
    dba: Dba,
    lsn: Lsn,
    obj: Obj,
    pctfree: u8,
    movement: bool,
    low: u32,
    high: u32,
    extents: Vec<ExtentNumber>,
}

impl Model for SegmentHeader {
    ghost use Rattle.std.specs.Prelude.{◌≤◌, length};
    ghost use Rattle.segment_blocks.specs.Headers.{Header, HasLimits};

    ghost Value = { Header };

    ghost view = { λ h. record { dba = h.dba; lsn = h.lsn; obj = h.obj; pctfree = h.pctfree; movement = h.movement; low = h.low; high = h.high; extents = h.extents.items } };

    ghost invariant = { λ h. HasLimits h.obj h.pctfree (length h.extents.items) };
}

impl SegmentHeader {
    /// The header of a table without an extent, whose marks are 0 and whose rows may not be moved.
    pub fn new(alloc: Global, dba: Dba, obj: Obj, pctfree: u8) -> SegmentHeader
        requires least { 1 ≤ obj }
        requires most { obj ≤ MOST_TABLES }
        requires pctfree { pctfree ≤ MOST_PCTFREE }
        ensures { result ≡ record { dba = dba; lsn = 0; obj = obj; pctfree = pctfree; movement = false; low = 0; high = 0; extents = [] } }
    {
        SegmentHeader {
            dba,
            lsn: Lsn(0),
            obj,
            pctfree,
            movement: false,
            low: 0,
            high: 0,
            extents: Vec::new(alloc),
        }
    }

    pub fn duplicate(&self, alloc: Global) -> Result<SegmentHeader, NoMemory>
        ensures { IfOk result (λ header. header ≡ self.now) }
    {
        Ok(SegmentHeader {
            dba: self.dba,
            lsn: self.lsn,
            obj: self.obj,
            pctfree: self.pctfree,
            movement: self.movement,
            low: self.low,
            high: self.high,
            extents: Vec::from_slice(alloc, &self.extents)?,
        })
    }

    pub fn set_lsn(&mut self, lsn: Lsn)
        ensures { self.new ≡ record self.old { lsn = lsn } }
    {
        let _extents = &self.extents;
        self.lsn = lsn;
    }

    pub fn set_movement(&mut self, on: bool)
        ensures { self.new ≡ record self.old { movement = on } }
    {
        let _extents = &self.extents;
        self.movement = on;
    }

    /// Moves the low and the high water mark, in data blocks.
    pub fn set_marks(&mut self, low: u32, high: u32)
        ensures { self.new ≡ record self.old { low = low; high = high } }
    {
        let _extents = &self.extents;
        self.low = low;
        self.high = high;
    }

    /// Adds an extent behind the others. Without memory nothing is added.
    pub fn add_extent(&mut self, extent: u32) -> Result<(), NoMemory>
        requires { length self.old.extents < MOST_EXTENTS }
        ensures ok { OnOk result (self.new ≡ record self.old { extents = self.old.extents ++ extent ∷ [] }) }
        ensures err { OnErr result (self.new ≡ self.old) }
    {
        let _obj = self.obj;
        self.extents.push(ExtentNumber(extent))?;
        Ok(())
    }

    /// Gives the extents from this index on away.
    pub fn keep_extents(&mut self, kept: u16)
        ensures { self.new ≡ record self.old { extents = take kept self.old.extents } }
    {
        let _obj = self.obj;
        self.extents.truncate(usize::from(kept));
    }

    pub fn dba(&self) -> Dba
        ensures { result ≡ self.now.dba }
    {
        self.dba
    }

    pub fn lsn(&self) -> Lsn
        ensures { result ≡ self.now.lsn }
    {
        self.lsn
    }

    pub fn obj(&self) -> Obj
        ensures { result ≡ self.now.obj }
    {
        self.obj
    }

    pub fn pctfree(&self) -> u8
        ensures value { result ≡ self.now.pctfree }
        ensures range { result ≤ MOST_PCTFREE }
    {
        self.pctfree
    }

    /// Whether the table's rows may be moved.
    pub fn movement(&self) -> bool
        ensures { result ≡ self.now.movement }
    {
        self.movement
    }

    /// The low and the high water mark, in data blocks.
    pub fn marks(&self) -> (u32, u32)
        ensures low { result.0 ≡ self.now.low }
        ensures high { result.1 ≡ self.now.high }
    {
        (self.low, self.high)
    }

    /// How many extents the table has.
    pub fn extents(&self) -> u16
        ensures count { result ≡ length self.now.extents }
        ensures range { result ≤ MOST_EXTENTS }
    {
        self.extents.len() as u16
    }

    /// The number of the extent at an index, None exactly from `extents()` on.
    #[tactic(auto, using(crate::proofs::Extents::extent_at_none, crate::proofs::Extents::extent_at_some))]
    pub fn extent_at(&self, index: u16) -> Option<u32>
        ensures { result ≡ extent_at self.now.extents index }
    {
        let at = usize::from(index);
        if at >= self.extents.len() {
            return None;
        }
        let number = self.extents[at];
        Some(number.0)
    }

    /// Each of these pages has a spelling: what is written of it is read back.
    pub fn has_spelling(&self)
        ensures { IsHeader self.now }
    {
        in_range(self.dba.0, self.lsn.0);
        in_range(self.low, 0);
        in_range(self.high, 0);
        extents_in_range(&self.extents);
    }
}

/// Each extent's number is in the range of its type.
fn extents_in_range(extents: &[ExtentNumber])
    ensures { AllByRecursion (λ x. x < 2 ^ 32) extents.now }
{
    match extents {
        [] => {}
        [first, rest @ ..] => {
            let number = *first;
            in_range(number.0, 0);
            extents_in_range(rest);
        }
    }
}

impl PageForm for SegmentHeader {
    ghost use Rattle.segment_blocks.specs.Headers.{spelling_of_header, header_in, IsHeader};
    ghost use Rattle.segment_blocks.specs.HeaderAgain.{header_again};

    ghost spelling = { spelling_of_header };

    ghost meaning = { header_in };

    ghost HasSpelling = { IsHeader };

    #[tactic(auto, unfolding(crate::specs::Headers::header_in))]
    fn read(alloc: Global, bytes: &[u8; BLOCK_SIZE]) -> Result<SegmentHeader, NoMemory> {
        let count = number_u16(bytes, 28).min(MOST_EXTENTS);
        read_with(alloc, count, bytes)
    }

    fn write(&self, out: &mut [u8; BLOCK_SIZE]) {
        let fields = fields_of(
            self.obj.0,
            self.pctfree,
            self.movement,
            self.low,
            self.high,
            self.extents.len() as u16,
        );
        write_page(self.dba, self.lsn, &fields, &self.extents, out);
    }

    ghost reads_again = { header_again };
}

fn obj_in(code: u8) -> Obj
    ensures value { result ≡ obj_in code }
    ensures least { 1 ≤ result }
    ensures most { result ≤ MOST_TABLES }
{
    Obj(code.min(MOST_TABLES).max(1))
}

fn is_on(code: u8) -> bool
    ensures { result ≡ is_on code }
{
    code != 0
}

fn flag(on: bool) -> u8
    ensures { result ≡ flag on }
{
    if on { 1 } else { 0 }
}

fn read_with(alloc: Global, count: u16, bytes: &[u8; BLOCK_SIZE]) -> Result<SegmentHeader, NoMemory>
    requires { count ≤ MOST_EXTENTS }
    ensures { IfOk result (λ header. header ≡ header_with count bytes.now) }
{
    let (_, rest) = bytes.split_at(64);
    let extents = read_all(alloc, count, rest)?;
    Ok(SegmentHeader {
        dba: Dba(number_u32(bytes, 4)),
        lsn: Lsn(number_u64(bytes, 8)),
        obj: obj_in(bytes[16]),
        pctfree: bytes[17].min(MOST_PCTFREE),
        movement: is_on(bytes[18]),
        low: number_u32(bytes, 20),
        high: number_u32(bytes, 24),
        extents,
    })
}

/// The 48 bytes between the head and the extents.
fn fields_of(obj: u8, pctfree: u8, movement: bool, low: u32, high: u32, count: u16) -> [u8; 48]
    ensures { result ≡ fields_of obj pctfree movement low high count }
{
    let mut bytes = [0; 48];
    bytes[0] = obj;
    bytes[1] = pctfree;
    bytes[2] = flag(movement);
    put_at(&mut bytes, 4, &low.to_be_bytes());
    put_at(&mut bytes, 8, &high.to_be_bytes());
    put_at(&mut bytes, 12, &count.to_be_bytes());
    bytes
}

fn write_page(
    dba: Dba,
    lsn: Lsn,
    fields: &[u8; 48],
    extents: &[ExtentNumber],
    out: &mut [u8; BLOCK_SIZE],
)
    requires { length extents.now ≤ MOST_EXTENTS }
    ensures { (h : Header) → h.dba ≡ dba → h.lsn ≡ lsn → h.extents ≡ extents.now → fields.now ≡ fields_of h.obj h.pctfree h.movement h.low h.high (length h.extents) → out.new ≡ spelling_of_header h }
{
    let start = begin(out);
    let fields_at = add(out, start, &head_bytes(KIND, 0, 0, dba, lsn));
    let extents_at = add(out, fields_at, fields);
    add_all(out, extents_at, extents);
}
