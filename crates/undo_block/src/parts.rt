// A list of parts, and the bytes that they use.
ghost use Rattle.std.specs.Prelude.{◌≡◌, ◌≤◌, ◌+◌, ◌++◌, ◌∷◌, [], min, length, OnErr, OnOk, IfOk};
ghost use Rattle.seg_words.specs.Types.{AllByRecursion};
ghost use Rattle.undo_block.specs.Parts.{part_size, used_by, HasPartForm};
ghost use Rattle.undo_block.specs.Held.{Appends};

use crate::fault::UndoFault;
use crate::part::Part;
use seg_base::{BLOCK_ROOM, MOST_UNDO_PARTS, NoMemory, UNDO_PART_SIZE};
use std::alloc::Global;
use std::marker::Model;

/// Parts that fit in a block.
#[derive(Debug, Drop)]
pub struct Parts {
    parts: Vec<Part>,
    used: u16,
}

impl Model for Parts {
    ghost use Rattle.std.specs.Prelude.{List};
    ghost use Rattle.undo_block.specs.declared.part.Part.{Part};

    ghost Value = { List Part };

    ghost use Rattle.undo_block.specs.Held.{IsHeld};

    ghost view = { λ p. p.parts.items };

    ghost invariant = { λ p. IsHeld p.parts.items p.used };
}

impl Parts {
    pub fn new(alloc: Global) -> Parts
        ensures { result ≡ [] }
    {
        Parts {
            parts: Vec::new(alloc),
            used: 0,
        }
    }

    pub fn used(&self) -> u16
        ensures used { result ≡ used_by self.now }
        ensures range { result ≤ BLOCK_ROOM }
    {
        self.used
    }

    #[tactic(auto, using(crate::proofs::Sizes::few))]
    pub fn count(&self) -> u8
        ensures count { result ≡ length self.now }
        ensures range { result ≤ MOST_UNDO_PARTS }
    {
        self.parts.len() as u8
    }

    pub fn duplicate(&self, alloc: Global) -> Result<Parts, NoMemory>
        ensures { IfOk result (λ parts. parts ≡ self.now) }
    {
        let parts = copies(alloc, &self.parts)?;
        Ok(Parts {
            parts,
            used: self.used,
        })
    }

    pub fn as_slice(&self) -> &[Part]
        ensures same { result.now ≡ self.now }
        ensures used { used_by self.now ≤ BLOCK_ROOM }
        ensures forms { AllByRecursion HasPartForm self.now }
    {
        let _used = self.used;
        self.parts.as_slice()
    }

    /// Adds a part that fits. Without memory nothing is added.
    #[tactic(auto, using(crate::proofs::Sizes::used_push, crate::proofs::Forms::forms_push))]
    pub fn push(&mut self, part: Part) -> Result<(), NoMemory>
        requires room { used_by self.old + part_size part ≤ BLOCK_ROOM }
        requires form { HasPartForm part }
        ensures ok { OnOk result (self.new ≡ self.old ++ part ∷ []) }
        ensures err { OnErr result (self.new ≡ self.old) }
    {
        let used = self.used + size_of(&part);
        self.parts.push(part)?;
        self.used = used;
        Ok(())
    }

    /// Adds copies of these parts behind the others, all or none.
    #[tactic(auto, using(crate::proofs::Sizes::used_append, crate::proofs::Forms::forms_append))]
    pub fn append(&mut self, parts: &[Part]) -> Result<(), UndoFault>
        requires { AllByRecursion HasPartForm parts.now }
        ensures { Appends self.old self.new parts.now result }
    {
        let need = need_of(parts);
        let free = BLOCK_ROOM as u16 - self.used;
        if need > free {
            return Err(UndoFault::NoRoom { need, free });
        }
        let mut more = copies(*self.parts.allocator(), parts)?;
        self.parts.append(&mut more)?;
        self.used += need;
        Ok(())
    }

    /// Adds these parts behind the others, all or none, without a copy.
    #[tactic(auto, using(crate::proofs::Sizes::used_append, crate::proofs::Forms::forms_append))]
    pub fn append_owned(&mut self, parts: Vec<Part>) -> Result<(), UndoFault>
        requires { AllByRecursion HasPartForm parts.items }
        ensures { Appends self.old self.new parts.items result }
    {
        let need = need_of(&parts);
        let free = BLOCK_ROOM as u16 - self.used;
        if free < need {
            return Err(UndoFault::NoRoom { need, free });
        }
        let mut more = parts;
        self.parts.append(&mut more)?;
        self.used += need;
        Ok(())
    }
}

/// How many bytes parts need, or the greatest number of 16 bits where that is less.
#[tactic(auto, using(crate::proofs::Sizes::need_next, crate::proofs::Sizes::need_all))]
fn need_of(parts: &[Part]) -> u16
    ensures { result ≡ min (used_by parts.now) 65535 }
{
    let mut need: u32 = 0;
    for part in parts {
        let len = part.old.bytes.len().min(65535) as u32;
        need = (need + UNDO_PART_SIZE as u32 + len).min(65535);
    }
    need as u16
}

fn copies(alloc: Global, parts: &[Part]) -> Result<Vec<Part>, NoMemory>
    ensures { IfOk result (λ copies. copies.items ≡ parts.now) }
{
    let mut copies = Vec::new(alloc);
    for part in parts {
        copies.push(part.duplicate(alloc)?)?;
    }
    Ok(copies)
}

/// The bytes of a part, of those that fit in a block.
fn size_of(part: &Part) -> u16
    requires { part_size part.now ≤ BLOCK_ROOM }
    ensures { result ≡ part_size part.now }
{
    UNDO_PART_SIZE as u16 + part.old.bytes.len() as u16
}
