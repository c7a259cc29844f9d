// The double-write area as an opening finds it.
ghost use Rattle.std.specs.Prelude.{◌≡◌, ◌≤◌, ◌<◌, ◌+◌, ◌*◌, ℕ, length, slice_index, take, drop, true, false, IfOk, IfErr, IsErr, IsErrOf, MatchBool, MatchOption};
ghost use Rattle.seg_words.specs.Types.{w32, list_all, number_in};
ghost use Rattle.disk_model.specs.Types.{Causes, Untouched};
ghost use Rattle.page_store.specs.Pages.{part, is_place as place_test, is_batch as batch_test, are_apart as apart_test, head_blocks};
ghost use Rattle.page_store.specs.Batches.{IsPartRead, IsHeadRead, IsAreaFound};

use crate::PageFault;
use crate::page::is_place;
use disk_model::{Disk, File};
use page_bytes::number_u32;
use seg_base::{BLOCK_SIZE, DOUBLE_WRITE_BLOCK, DOUBLE_WRITE_PAGES, Dba, Failed, Shape};
use std::marker::Model;

/// Where the area's head begins, with its gate.
pub const AREA_AT: u64 = DOUBLE_WRITE_BLOCK as u64 * BLOCK_SIZE as u64;

/// Where its copies begin.
pub const COPIES_AT: u64 = FIRST_COPY as u64 * BLOCK_SIZE as u64;

/// Where the area ends.
pub const AREA_END: u64 = COPIES_AT + DOUBLE_WRITE_PAGES as u64 * BLOCK_SIZE as u64;

/// The blocks of the first copy and of the last one.
pub const FIRST_COPY: u32 = DOUBLE_WRITE_BLOCK + 1;

pub const LAST_COPY: u32 = DOUBLE_WRITE_BLOCK + DOUBLE_WRITE_PAGES as u32;

/// Where the numbers of the copies' blocks begin in the area's head, behind its gate and their count.
pub const NUMBERS_AT: usize = 2;

/// The page of the double-write area that a fault of it names.
pub(crate) const AREA_HEAD: Dba = Dba(DOUBLE_WRITE_BLOCK);

/// The blocks that an area has copies of.
#[derive(Drop)]
pub(crate) struct Listed {
    blocks: [u32; DOUBLE_WRITE_PAGES as usize],
    count: usize,
}

impl Model for Listed {
    ghost use Rattle.std.specs.Prelude.{ℕ, List, take, ◌≤◌};
    ghost use Rattle.seg_words.specs.Types.{DOUBLE_WRITE_PAGES};

    ghost Value = { List ℕ };

    ghost view = { λ listed. take listed.count listed.blocks };

    ghost invariant = { λ listed. listed.count ≤ DOUBLE_WRITE_PAGES };
}

impl Listed {
    pub(crate) fn as_slice(&self) -> &[u32]
        ensures { result.now ≡ self.now }
    {
        &self.blocks[..self.count]
    }
}

/// Reads a page, and answers whether the data file has as many there.
#[tactic(auto, using(disk_model::proofs::Going::untouched_call))]
pub(crate) fn read_page<D: Disk>(
    disk: &mut D,
    at: u64,
    into: &mut [u8; BLOCK_SIZE],
) -> Result<bool, Failed>
    ensures found { D.meaning.told disk.old → IfOk result (IsPartRead at (D.meaning.files disk.old).data_bytes into.new) }
    ensures cause { Causes D.meaning disk.old disk.new (IsErr result) }
    ensures untouched { Untouched D.meaning disk.old disk.new }
    ensures reads { D.meaning.told disk.old → D.meaning.log_reads disk.new ≡ D.meaning.log_reads disk.old }
{
    let count = disk.read(File::Data, at, into)?;
    Ok(count == BLOCK_SIZE)
}

// The numbers in an area's head.
fn numbers(head: &[u8; BLOCK_SIZE]) -> [u32; DOUBLE_WRITE_PAGES as usize]
    ensures long { length result ≡ DOUBLE_WRITE_PAGES }
    ensures each { (i : ℕ) → i < DOUBLE_WRITE_PAGES → slice_index result i ≡ number_in w32 head.now (NUMBERS_AT + 4 * i) }
{
    let mut blocks = [0; 32];
    for (i, block) in blocks.iter_mut().enumerate() {
        *block = number_u32(head, NUMBERS_AT + 4 * i);
    }
    blocks
}

// Whether no number stands there twice.
fn are_apart(blocks: &[u32]) -> bool
    ensures { result ≡ apart_test blocks.now }
{
    match blocks {
        [] => true,
        [first, rest @ ..] => !rest.contains(first) && are_apart(rest),
    }
}

// Whether a page may stand in each of these blocks.
fn are_places(shape: &Shape, blocks: &[u32]) -> bool
    ensures { result ≡ list_all (place_test shape.now) blocks.now }
{
    blocks.iter().all(|block| is_place(shape, Dba(*block)))
}

// Whether these are the blocks of a batch.
fn is_batch(shape: &Shape, blocks: &[u32]) -> bool
    ensures { result ≡ batch_test shape.now blocks.now }
{
    if blocks.is_empty() || blocks.len() > DOUBLE_WRITE_PAGES as usize {
        return false;
    }
    if !are_places(shape, blocks) {
        return false;
    }
    are_apart(blocks)
}

// The blocks that a head names, where they are those of a batch.
fn blocks_in(shape: &Shape, head: &[u8; BLOCK_SIZE]) -> Option<Listed>
    ensures { MatchOption result (batch_test shape.now (head_blocks head.now) ≡ false) (λ blocks. (blocks ≡ head_blocks head.now) × (batch_test shape.now blocks ≡ true)) }
{
    let count = head[1] as usize;
    if count > DOUBLE_WRITE_PAGES as usize {
        return None;
    }
    let blocks = numbers(head);
    if !is_batch(shape, &blocks[..count]) {
        return None;
    }
    Some(Listed { blocks, count })
}

// Reads the head of the area, and answers whether the data file has the whole area.
#[tactic(auto, using(disk_model::proofs::Going::untouched_then, disk_model::proofs::Going::untouched_call))]
fn read_head<D: Disk>(disk: &mut D, head: &mut [u8; BLOCK_SIZE]) -> Result<bool, Failed>
    ensures found { D.meaning.told disk.old → IfOk result (IsHeadRead (D.meaning.files disk.old).data_bytes head.new) }
    ensures cause { Causes D.meaning disk.old disk.new (IsErr result) }
    ensures untouched { Untouched D.meaning disk.old disk.new }
    ensures reads { D.meaning.told disk.old → D.meaning.log_reads disk.new ≡ D.meaning.log_reads disk.old }
{
    let len = disk.len(File::Data)?;
    if len < AREA_END {
        return Ok(false);
    }
    read_page(disk, AREA_AT, head)
}

/// The blocks that the area has copies of, and none where its gate is closed. `BadPage` comes exactly where the file
/// ends before the area does, or the gate is open and the head doesn't name the blocks of a batch.
pub(crate) fn find_area<D: Disk>(disk: &mut D, shape: &Shape) -> Result<Option<Listed>, PageFault>
    ensures found { D.meaning.told disk.old → IsAreaFound shape.now (D.meaning.files disk.old).data_bytes result }
    ensures cause { Causes D.meaning disk.old disk.new (IsErrOf result PageFault.DeviceFault) }
    ensures untouched { Untouched D.meaning disk.old disk.new }
    ensures reads { D.meaning.told disk.old → D.meaning.log_reads disk.new ≡ D.meaning.log_reads disk.old }
{
    let mut head = [0; BLOCK_SIZE];
    let whole = read_head(disk, &mut head)?;
    if !whole {
        return Err(PageFault::BadPage { dba: AREA_HEAD });
    }
    if head[0] != 1 {
        return Ok(None);
    }
    match blocks_in(shape, &head) {
        Some(blocks) => Ok(Some(blocks)),
        None => Err(PageFault::BadPage { dba: AREA_HEAD }),
    }
}
