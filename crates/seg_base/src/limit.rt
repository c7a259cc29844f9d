// The sizes and limits of a store. Each stands here alone: code, contracts and specifications read it from here.

/// Bytes of a block.
pub const BLOCK_SIZE: usize = 4096;

/// Bytes of a row block that its slots, its rows and its list entries past the second share, and of an undo block
/// that parts share.
pub const BLOCK_ROOM: u32 = 4032;

/// Bytes of the longest row.
pub const LONGEST_ROW: usize = 1800;

/// Bytes that each page begins with: its kind, two small numbers, its block number, its LSN.
pub const PAGE_HEAD_SIZE: usize = 16;

/// Bytes of a slot.
pub const SLOT_SIZE: usize = 40;

/// How many slots a row block has at most.
pub const MOST_SLOTS: u8 = 100;

/// Bytes of an entry of a row block's transaction list.
pub const LIST_ENTRY_SIZE: usize = 24;

/// How many list entries a row block has from the first on (INITRANS).
pub const LEAST_LIST_ENTRIES: u8 = 2;

/// How many list entries a row block has at most (MAXTRANS).
pub const MOST_LIST_ENTRIES: u8 = 8;

/// The greatest PCTFREE, in per cent.
pub const MOST_PCTFREE: u8 = 50;

/// Bytes of an undo part before its row.
pub const UNDO_PART_SIZE: usize = 64;

/// How many parts an undo block has at most.
pub const MOST_UNDO_PARTS: u8 = 63;

/// Entries of the transaction table.
pub const TXN_ENTRIES: u8 = 96;

/// How many tables a store has at most.
pub const MOST_TABLES: u8 = 32;

/// How many extents a table has at most.
pub const MOST_EXTENTS: u16 = 900;

/// How many extents a second bitmap level covers.
pub const EXTENTS_OF_L2: usize = 300;

/// How many second levels a third one covers: they serve all extents of a table.
pub const MOST_L2: usize = 3;

/// How many blocks the high water mark goes up at most at a time.
pub const ADVANCE_BLOCKS: u32 = 16;

/// Bytes of the longest name.
pub const LONGEST_NAME: usize = 30;

/// How many sessions a script has at most.
pub const MOST_SESSIONS: u8 = 64;

/// The blocks from 0 on that are the store's own; behind them stand the undo blocks, then the extents.
pub const OWN_BLOCKS: u32 = 37;

/// The store's own blocks.
pub const CHECKPOINT_BLOCK: u32 = 0;

pub const TXN_TABLE_BLOCK: u32 = 1;

pub const CATALOGUE_BLOCK: u32 = 2;

pub const SPACE_BLOCK: u32 = 3;

pub const DOUBLE_WRITE_BLOCK: u32 = 4;

/// How many pages the double-write area holds.
pub const DOUBLE_WRITE_PAGES: u8 = 32;

/// Bytes of the log's head, whose last byte is the gate of the first group.
pub const LOG_HEAD_SIZE: usize = 64;

/// The place in the log of the first group's gate.
pub const FIRST_GATE: u64 = 63;

/// Limits of a store's shape.
pub const LEAST_BLOCKS: u32 = 64;

pub const MOST_BLOCKS: u32 = 16_384;

pub const LEAST_EXTENT_BLOCKS: u32 = 8;

pub const MOST_EXTENT_BLOCKS: u32 = 64;

pub const LEAST_UNDO_BLOCKS: u32 = 2;

pub const MOST_UNDO_BLOCKS: u32 = 1024;
