// The row blocks that a session is to settle.
ghost use Rattle.std.specs.Prelude.{◌≡◌, [], OnOk, OnErr};
ghost use Rattle.std.specs.BTreeMap.{insert_entry};
ghost use Rattle.std.specs.Ordering.{nat_cmp};
ghost use Rattle.session_core.specs.Owing.{AreKept, first_owed, is_none_owed, rest_owed, table_in, with_all};

use seg_base::{Dba, NoMemory, Obj};
use std::alloc::Global;
use std::collections::BTreeMap;
use std::marker::Model;

/// A row block that is owed, and its table.
#[derive(Clone, Copy, Debug, PartialEq, Eq, Drop)]
pub struct OwedBlock {
    pub dba: Dba,
    pub obj: Obj,
}

/// The row blocks that are owed, each once, with their tables, in rising order of block number.
#[derive(Drop)]
pub struct Owed {
    blocks: BTreeMap<u32, Obj>,
}

impl Model for Owed {
    ghost use Rattle.std.specs.Prelude.{List, ℕ};

    ghost Value = { List (ℕ × ℕ) };

    ghost view = { λ o. o.blocks.entries };
}

impl Owed {
    pub fn new(alloc: Global) -> Owed
        ensures { result ≡ [] }
    {
        Owed {
            blocks: BTreeMap::new(alloc),
        }
    }

    /// A row block is owed, as one of this table. Without memory nothing changes.
    pub fn push(&mut self, obj: Obj, dba: Dba) -> Result<(), NoMemory>
        ensures ok { OnOk result (self.new ≡ insert_entry nat_cmp self.old dba obj) }
        ensures err { OnErr result (self.new ≡ self.old) }
    {
        self.blocks.insert(dba.0, obj)?;
        Ok(())
    }

    /// The least block that is owed.
    pub fn next(&self) -> Option<OwedBlock>
        ensures { result ≡ first_owed self.now }
    {
        match self.blocks.first_key_value() {
            Some((number, obj)) => Some(OwedBlock {
                dba: Dba(*number),
                obj: *obj,
            }),
            None => None,
        }
    }

    /// The table with which a block is owed.
    pub fn table_of(&self, dba: Dba) -> Option<Obj>
        ensures { result ≡ table_in self.now dba }
    {
        self.blocks.get(&dba.0).copied()
    }

    /// The least block is no longer owed.
    pub fn drop_next(&mut self)
        ensures { self.new ≡ rest_owed self.old }
    {
        self.blocks.pop_first();
    }

    pub fn is_empty(&self) -> bool
        ensures { result ≡ is_none_owed self.now }
    {
        self.blocks.is_empty()
    }
}

/// What is in the first goes over to the other one, block by block. Without memory each block stays in one of them.
pub fn move_all(from: &mut Owed, to: &mut Owed) -> Result<(), NoMemory>
    ensures ok { OnOk result (to.new ≡ with_all to.old from.old) }
    ensures none_left { OnOk result (from.new ≡ []) }
    ensures err { OnErr result (AreKept to.old from.old to.new from.new) }
{
    while let Some(block) = from.next() {
        match to.push(block.obj, block.dba) {
            Ok(()) => from.drop_next(),
            Err(fault) => return Err(fault),
        }
    }
    Ok(())
}
