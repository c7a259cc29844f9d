// The limits of the three levels and of their pages.
use seg_base::{MOST_EXTENT_BLOCKS, PAGE_HEAD_SIZE};

/// The greatest class code, that of the emptiest blocks.
pub const GREATEST_CODE: u8 = 5;

/// The least class code of a block that is of use to an insert: a full block and one that isn't formatted have less.
pub const LEAST_GOOD_CODE: u8 = 2;

/// How many codes a first level has: one for each block of the largest extent.
pub const CODES_OF_L1: usize = MOST_EXTENT_BLOCKS as usize;

/// Bytes of a first level before its codes: the head of the page and the incarnation of the extent.
pub const MAP_HEAD_SIZE: usize = PAGE_HEAD_SIZE + 8;
