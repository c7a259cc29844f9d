// The two lines of a table's usage.
ghost use Rattle.std.specs.Prelude.{◌≡◌, ◌++◌, ◌*◌, OnOk, codes, decimal};
ghost use Rattle.history_text.specs.Lines.{usage_text, count_text, unformatted_text, usage_quarters, usage_counts, usage_marks, usage_bytes};

use crate::outcome::Usage;
use seg_base::{BLOCK_SIZE, Name, NoMemory};
use text_port::{put, put_number};

/// Adds how many blocks are kept as one class.
#[tactic(auto, unfolding(crate::specs::Lines::count_text))]
fn put_count(out: &mut Vec<u8>, class: &[u8], blocks: u32) -> Result<(), NoMemory>
    ensures { OnOk result (out.new.items ≡ out.old.items ++ count_text class.now blocks) }
{
    put(out, class)?;
    put_number(out, u64::from(blocks))
}

#[tactic(auto, unfolding(crate::specs::Lines::usage_quarters))]
fn put_usage_quarters(out: &mut Vec<u8>, usage: &Usage) -> Result<(), NoMemory>
    ensures { OnOk result (out.new.items ≡ out.old.items ++ usage_quarters usage.now) }
{
    put_count(out, b" fs1 ", usage.fs1)?;
    put_count(out, b" fs2 ", usage.fs2)?;
    put_count(out, b" fs3 ", usage.fs3)?;
    put_count(out, b" fs4 ", usage.fs4)
}

#[tactic(auto, unfolding(crate::specs::Lines::unformatted_text))]
fn put_unformatted(out: &mut Vec<u8>, blocks: u32) -> Result<(), NoMemory>
    ensures { OnOk result (out.new.items ≡ out.old.items ++ unformatted_text blocks) }
{
    put_count(out, b" unformatted ", blocks)
}

#[tactic(auto, unfolding(crate::specs::Lines::usage_counts))]
fn put_usage_counts(out: &mut Vec<u8>, usage: &Usage) -> Result<(), NoMemory>
    ensures { OnOk result (out.new.items ≡ out.old.items ++ usage_counts usage.now) }
{
    put_unformatted(out, usage.unformatted)?;
    put_usage_quarters(out, usage)?;
    put_count(out, b" full ", usage.full)
}

#[tactic(auto, unfolding(crate::specs::Lines::usage_marks))]
fn put_usage_marks(out: &mut Vec<u8>, usage: &Usage) -> Result<(), NoMemory>
    ensures { OnOk result (out.new.items ≡ out.old.items ++ usage_marks usage.now) }
{
    put(out, b" low ")?;
    put_number(out, u64::from(usage.low))?;
    put(out, b" high ")?;
    put_number(out, u64::from(usage.high))?;
    put(out, b" extents ")?;
    put_number(out, u64::from(usage.extents))?;
    put(out, b"\n")
}

/// Adds a space and the bytes of so many blocks.
fn put_bytes_of(out: &mut Vec<u8>, blocks: u32) -> Result<(), NoMemory>
    ensures { OnOk result (out.new.items ≡ out.old.items ++ (codes " " ++ decimal (blocks * BLOCK_SIZE))) }
{
    put(out, b" ")?;
    put_number(out, u64::from(blocks) * BLOCK_SIZE as u64)
}

#[tactic(auto, unfolding(crate::specs::Lines::usage_bytes))]
fn put_usage_bytes(out: &mut Vec<u8>, usage: &Usage) -> Result<(), NoMemory>
    ensures { OnOk result (out.new.items ≡ out.old.items ++ usage_bytes usage.now) }
{
    put(out, b"  bytes")?;
    put_bytes_of(out, usage.unformatted)?;
    put_bytes_of(out, usage.fs1)?;
    put_bytes_of(out, usage.fs2)?;
    put_bytes_of(out, usage.fs3)?;
    put_bytes_of(out, usage.fs4)?;
    put_bytes_of(out, usage.full)?;
    put(out, b"\n")
}

/// Adds both lines.
#[tactic(auto, unfolding(crate::specs::Lines::usage_text))]
pub fn put_usage(out: &mut Vec<u8>, table: &Name, usage: &Usage) -> Result<(), NoMemory>
    ensures { OnOk result (out.new.items ≡ out.old.items ++ usage_text table.now usage.now) }
{
    put(out, b"usage ")?;
    put(out, table.as_slice())?;
    put_usage_counts(out, usage)?;
    put_usage_marks(out, usage)?;
    put_usage_bytes(out, usage)
}
