// An undo block.
ghost use Rattle.std.specs.Prelude.{◌≡◌, ◌≤◌, ◌<◌, [], length, slice_get, Some, IfOk, IfSome, option_map};
ghost use Rattle.seg_words.specs.Types.{AllByRecursion};
ghost use Rattle.undo_block.specs.Parts.{used_by, HasPartForm, holder_of, is_held, lesser, with_part};
ghost use Rattle.undo_block.specs.Held.{AppendsAt};
ghost use Rattle.undo_block.specs.UndoPage.{UndoPage, Decodes, IsReadAs, IsUndoPage, spelling};

use crate::fault::UndoFault;
use crate::form::parts_in_range;
use crate::part::Part;
use crate::parts::Parts;
use page_bytes::{PageForm, in_range};
use seg_base::{BLOCK_ROOM, BLOCK_SIZE, Dba, Ended, Lsn, MOST_UNDO_PARTS, NoMemory, TxnId};
use std::alloc::Global;
use std::marker::Model;

/// A block of the undo ring: the parts of undo by place, since it was last taken into use.
#[derive(Debug, Drop)]
pub struct UndoBlock {
    dba: Dba,
    lsn: Lsn,
    sequence: u64,
    parts: Parts,
}

impl Model for UndoBlock {
    ghost use Rattle.undo_block.specs.UndoPage.{UndoPage};

    ghost Value = { UndoPage };

    ghost view = { λ u. record { dba = u.dba; lsn = u.lsn; sequence = u.sequence; parts = u.parts } };
}

fn is_held<E: Ended>(ended: &E, part: &Part) -> bool
    ensures { result ≡ is_held (E.has_ended ended.now) part.now }
{
    let txn = part.txn;
    txn.0 != 0 && !ended.ended(txn)
}

fn lesser(txn: TxnId, found: Option<TxnId>) -> Option<TxnId>
    ensures { result ≡ lesser txn found }
{
    match found {
        None => Some(txn),
        Some(other) => Some(TxnId(txn.0.min(other.0))),
    }
}

fn with_part<E: Ended>(ended: &E, part: &Part, found: Option<TxnId>) -> Option<TxnId>
    ensures { result ≡ with_part (E.has_ended ended.now) part.now found }
{
    if is_held(ended, part) {
        lesser(part.txn, found)
    } else {
        found
    }
}

/// The least active transaction of a part, from the last part on.
#[tactic(auto, using(crate::proofs::Holding::none_held, crate::proofs::Holding::held_next))]
fn holder_of<E: Ended>(ended: &E, parts: &[Part]) -> Option<TxnId>
    ensures { result ≡ holder_of (E.has_ended ended.now) parts.now }
{
    let mut holder = None;
    let mut at = parts.len();
    while at > 0 {
        at -= 1;
        holder = with_part(ended, &parts[at], holder);
    }
    holder
}

impl UndoBlock {
    /// A block that was never taken into use.
    pub fn new(alloc: Global, dba: Dba) -> UndoBlock
        ensures { result ≡ record { dba = dba; lsn = 0; sequence = 0; parts = [] } }
    {
        UndoBlock {
            dba,
            lsn: Lsn(0),
            sequence: 0,
            parts: Parts::new(alloc),
        }
    }

    /// A block that is taken into use.
    pub fn renewed(alloc: Global, dba: Dba, sequence: u64) -> UndoBlock
        ensures { result ≡ record { dba = dba; lsn = 0; sequence = sequence; parts = [] } }
    {
        UndoBlock {
            dba,
            lsn: Lsn(0),
            sequence,
            parts: Parts::new(alloc),
        }
    }

    /// The LSN of the last record that changed the block.
    pub fn set_lsn(&mut self, lsn: Lsn)
        ensures { self.new ≡ record self.old { lsn = lsn } }
    {
        self.lsn = lsn;
    }

    pub fn duplicate(&self, alloc: Global) -> Result<UndoBlock, NoMemory>
        ensures { IfOk result (λ block. block ≡ self.now) }
    {
        let parts = self.parts.duplicate(alloc)?;
        Ok(UndoBlock {
            dba: self.dba,
            lsn: self.lsn,
            sequence: self.sequence,
            parts,
        })
    }

    pub(crate) fn from_parts(dba: Dba, lsn: Lsn, sequence: u64, parts: Parts) -> UndoBlock
        ensures { result ≡ record { dba = dba; lsn = lsn; sequence = sequence; parts = parts } }
    {
        UndoBlock {
            dba,
            lsn,
            sequence,
            parts,
        }
    }

    pub fn dba(&self) -> Dba
        ensures { result ≡ self.now.dba }
    {
        self.dba
    }

    pub fn lsn(&self) -> Lsn
        ensures { result ≡ self.now.lsn }
    {
        self.lsn
    }

    /// How often the block was taken into use.
    pub fn sequence(&self) -> u64
        ensures { result ≡ self.now.sequence }
    {
        self.sequence
    }

    /// The bytes that the parts use, of 4,032.
    pub fn used(&self) -> u16
        ensures used { result ≡ used_by self.now.parts }
        ensures range { result ≤ BLOCK_ROOM }
    {
        self.parts.used()
    }

    /// How many parts there are, at most 63.
    pub fn count(&self) -> u8
        ensures count { result ≡ length self.now.parts }
        ensures range { result ≤ MOST_UNDO_PARTS }
    {
        self.parts.count()
    }

    /// The part at a place, None exactly from `count()` on.
    pub fn nth(&self, place: u8) -> Option<&Part>
        ensures { option_map (λ part. part.now) result ≡ slice_get self.now.parts place }
    {
        self.parts.as_slice().get(usize::from(place))
    }

    pub(crate) fn all_parts(&self) -> &[Part]
        ensures same { result.now ≡ self.now.parts }
        ensures used { used_by self.now.parts ≤ BLOCK_ROOM }
        ensures forms { AllByRecursion HasPartForm self.now.parts }
    {
        self.parts.as_slice()
    }

    /// The least active transaction of a part: the block may not be used again while there is one.
    pub fn holder<E: Ended>(&self, ended: &E) -> Option<TxnId>
        ensures { result ≡ holder_of (E.has_ended ended.now) self.now.parts }
    {
        holder_of(ended, self.parts.as_slice())
    }

    /// Adds the parts of one record behind the others, all or none, and answers the place of the first. NoRoom exactly
    /// where they don't fit.
    pub fn append(&mut self, parts: &[Part]) -> Result<u8, UndoFault>
        requires { AllByRecursion HasPartForm parts.now }
        ensures parts { AppendsAt self.old.parts self.new.parts parts.now result }
        ensures others { self.new ≡ record self.old { parts = self.new.parts } }
    {
        let first = self.parts.count();
        self.parts.append(parts)?;
        Ok(first)
    }

    /// The same with parts that are handed over, so that none is copied.
    pub fn append_owned(&mut self, parts: Vec<Part>) -> Result<u8, UndoFault>
        requires { AllByRecursion HasPartForm parts.items }
        ensures parts { AppendsAt self.old.parts self.new.parts parts.items result }
        ensures others { self.new ≡ record self.old { parts = self.new.parts } }
    {
        let first = self.parts.count();
        self.parts.append_owned(parts)?;
        Ok(first)
    }

    /// Each block has a spelling: what is written of it is read back.
    pub fn has_spelling(&self)
        ensures { IsUndoPage self.now }
    {
        in_range(self.dba.0, self.lsn.0);
        in_range(self.dba.0, self.sequence);
        parts_in_range(self.all_parts());
    }

    /// The block that a page spells, or the first byte that is not of the spelling of what its fields read as.
    pub fn decode(alloc: Global, bytes: &[u8; BLOCK_SIZE]) -> Result<UndoBlock, UndoFault>
        ensures exact { Decodes bytes.now result }
        // What is spelled is read.
        ensures only { (u : UndoPage) → IsUndoPage u → bytes.now ≡ spelling u → IsReadAs u result }
    {
        let page: UndoBlock = page_bytes::decode(alloc, bytes)?;
        Ok(page)
    }

    /// Writes the one page that spells the block.
    pub fn encode(&self, out: &mut [u8; BLOCK_SIZE])
        ensures { out.new ≡ spelling self.now }
    {
        self.write(out);
    }
}
