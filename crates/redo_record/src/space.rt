// Records that change tables, and their extents, marks and bitmap blocks.
ghost use Rattle.std.specs.Prelude.{◌≡◌, ◌<◌, ◌^◌, ◌++◌, ◌∷◌, [], length, OnErr, OnOk};

use seg_base::{Class, Dba, Name, NoMemory, Obj};
use std::alloc::Global;
use std::marker::Model;

/// A new table.
#[derive(Debug, Drop)]
pub struct TableRecord {
    pub obj: Obj,
    pub header: Dba,
    /// Per cent of a block, at most 50.
    pub pctfree: u8,
    pub name: Name,
}

/// Row movement of a table turned on or off.
#[derive(Clone, Copy, Debug, Drop)]
pub struct MovementRecord {
    pub obj: Obj,
    pub header: Dba,
    pub on: bool,
}

/// An extent that a table gets.
#[derive(Clone, Copy, Debug, Drop)]
pub struct ExtendRecord {
    pub obj: Obj,
    pub header: Dba,
    /// The extent's place among those of its table.
    pub index: u16,
    pub extent: u32,
    pub l2: Dba,
    pub l3: Dba,
}

/// A data block that is formatted.
#[derive(Clone, Copy, Debug, Drop)]
pub struct FormatBlockRecord {
    pub obj: Obj,
    pub dba: Dba,
    pub l2: Dba,
    pub l3: Dba,
    /// The place of the block's extent among those of its table.
    pub index: u16,
    /// The best class code of the block's L1 after the record: 2 to 5, or 0 for none.
    pub best_of_l1: u8,
    /// The same of the block's L2.
    pub best_of_l2: u8,
}

/// The class that a bitmap keeps of a block.
#[derive(Clone, Copy, Debug, Drop)]
pub struct ClassRecord {
    pub obj: Obj,
    pub dba: Dba,
    pub class: Class,
    pub l2: Dba,
    pub l3: Dba,
    pub index: u16,
    pub best_of_l1: u8,
    pub best_of_l2: u8,
}

/// A table's marks moved up. A mark counts data blocks.
#[derive(Clone, Copy, Debug, Drop)]
pub struct AdvanceRecord {
    pub obj: Obj,
    pub header: Dba,
    pub low: u32,
    pub high: u32,
}

/// A table's last extents released, and its marks lowered.
#[derive(Debug, Drop)]
pub struct LowerRecord {
    pub obj: Obj,
    pub header: Dba,
    /// The ordinal of this record among those of its kind.
    pub lowering: u64,
    /// How many extents the table keeps.
    pub kept: u16,
    pub low: u32,
    pub high: u32,
    /// The L2 blocks that cover the kept extents, in order.
    pub l2: [Option<Dba>; 3],
    pub l3: Dba,
    /// The best class code of each of these L2 after the record.
    pub bests: [u8; 3],
    pub released: Extents,
}

/// Extent numbers, fewer than 2^16.
#[derive(Debug, Drop)]
pub struct Extents {
    extents: Vec<u32>,
}

impl Model for Extents {
    ghost use Rattle.std.specs.Prelude.{List, ℕ, ◌<◌, ◌^◌, length};

    ghost Value = { List ℕ };

    ghost view = { λ e. e.extents.items };

    ghost invariant = { λ e. length e.extents.items < 2 ^ 16 };
}

impl Extents {
    pub fn new(alloc: Global) -> Extents
        ensures { result ≡ [] }
    {
        Extents {
            extents: Vec::new(alloc),
        }
    }

    /// Takes the numbers as they are, without a copy.
    pub fn from_vec(extents: Vec<u32>) -> Extents
        requires { length extents.items < 2 ^ 16 }
        ensures { result ≡ extents.items }
    {
        Extents { extents }
    }

    /// Adds an extent at the end. Without memory nothing is added.
    pub fn push(&mut self, extent: u32) -> Result<(), NoMemory>
        requires { length self.old < 65535 }
        ensures ok { OnOk result (self.new ≡ self.old ++ extent ∷ []) }
        ensures err { OnErr result (self.new ≡ self.old) }
    {
        self.extents.push(extent)?;
        Ok(())
    }

    pub fn as_slice(&self) -> &[u32]
        ensures same { result.now ≡ self.now }
        ensures most { length self.now < 2 ^ 16 }
    {
        self.extents.as_slice()
    }
}
