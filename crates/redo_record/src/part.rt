// The parts of a record that changes rows: one for each slot that it changes.
ghost use Rattle.std.specs.Prelude.{◌≡◌, ◌<◌, ◌≤◌, ◌++◌, ◌∷◌, [], length, IfOk, OnErr, OnOk};

use seg_base::{Dba, NoMemory, Slot};
use std::alloc::Global;
use std::marker::Model;

/// The change of one slot: its image from now on, and the one before.
#[derive(Debug, Drop)]
pub struct RowPart {
    pub dba: Dba,
    pub slot: u8,
    /// The entry of the block's transaction list that the change uses; a move of shrink needs none.
    pub entry: Option<u8>,
    pub new: Slot,
    pub old: Slot,
}

/// What a slot gets back when its last change is taken back. The image before is left out: it is the new one of the
/// record that is taken back.
#[derive(Debug, Drop)]
pub struct BackPart {
    pub dba: Dba,
    pub slot: u8,
    pub entry: Option<u8>,
    pub new: Slot,
}

/// One to three parts, in the order head, old body, target.
#[derive(Debug, Drop)]
pub struct Parts<T> {
    parts: Vec<T>,
}

impl<T> Model for Parts<T> {
    ghost use Rattle.std.specs.Prelude.{List, ◌≤◌, length};

    ghost Value = { List T };

    ghost view = { λ p. p.parts.items };

    ghost invariant = { λ p. (1 ≤ length p.parts.items) × (length p.parts.items ≤ 3) };
}

impl<T: Drop> Parts<T> {
    /// The parts of a record with one part.
    pub fn one(alloc: Global, part: T) -> Result<Parts<T>, NoMemory>
        ensures { IfOk result (λ parts. parts ≡ part ∷ []) }
    {
        let mut parts = Vec::new(alloc);
        parts.push(part)?;
        Ok(Parts { parts })
    }

    /// Takes the parts as they are, without a copy.
    pub fn from_vec(parts: Vec<T>) -> Parts<T>
        requires least { 1 ≤ length parts.items }
        requires most { length parts.items ≤ 3 }
        ensures { result ≡ parts.items }
    {
        Parts { parts }
    }

    /// Adds a part at the end. Without memory nothing is added.
    pub fn push(&mut self, part: T) -> Result<(), NoMemory>
        requires { length self.old < 3 }
        ensures ok { OnOk result (self.new ≡ self.old ++ part ∷ []) }
        ensures err { OnErr result (self.new ≡ self.old) }
    {
        self.parts.push(part)?;
        Ok(())
    }

    pub fn as_slice(&self) -> &[T]
        ensures same { result.now ≡ self.now }
        ensures least { 1 ≤ length self.now }
        ensures most { length self.now ≤ 3 }
    {
        self.parts.as_slice()
    }
}
