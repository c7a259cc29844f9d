// The bytes of the records by which a table comes and its first row is inserted, committed and cleaned, written out by hand from
// the table of fields.

pub const TABLE: [u8; 9] = [1, 1, 0, 0, 0, 42, 10, 1, 116];

pub const EXTEND: [u8; 20] = [
    3, 1, 0, 0, 0, 42, 0, 0, 0, 0, 0, 0, 0, 0, 0, 40, 0, 0, 0, 41,
];

pub const ADVANCE: [u8; 14] = [6, 1, 0, 0, 0, 42, 0, 0, 0, 0, 0, 0, 0, 4];

pub const FORMAT_BLOCK: [u8; 18] = [4, 1, 0, 0, 0, 43, 0, 0, 0, 40, 0, 0, 0, 41, 0, 0, 5, 5];

pub const BEGIN: [u8; 19] = [8, 0, 0, 0, 0, 0, 0, 0, 1, 1, 0, 0, 0, 0, 0, 0, 0, 0, 0];

pub const REUSE: [u8; 13] = [9, 0, 0, 0, 37, 0, 0, 0, 0, 0, 0, 0, 1];

// Row 1, five bytes, in slot 0 of block 43, which was never used.
pub const INSERT: [u8; 129] = [
    10, 0, 0, 0, 0, 0, 0, 0, 1, 0, 1, 0, 0, 0, 0, 0, 0, 0, 1, 0, 0, 0, 37, 0, 0, 0, 0, 0, 0, 0, 1,
    0, 0, 0, 0, 0, 0, 1, 0, 0, 0, 43, 0, 0, 1, 1, 0, 0, 0, 0, 0, 0, 0, 1, 0, 0, 0, 37, 0, 0, 0, 0,
    0, 0, 0, 1, 0, 0, 0, 0, 0, 0, 0, 0, 1, 0, 0, 0, 0, 0, 0, 5, 0, 5, 104, 101, 108, 108, 111, 0,
    0, 0, 0, 0, 0, 0, 0, 0, 0, 0, 0, 0, 0, 0, 0, 0, 0, 0, 0, 0, 0, 0, 0, 0, 0, 0, 0, 0, 0, 0, 0, 0,
    0, 0, 0, 0, 0, 0, 0,
];

pub const COMMIT: [u8; 18] = [15, 0, 0, 0, 0, 0, 0, 0, 1, 0, 0, 0, 0, 0, 0, 0, 1, 0];

pub const CLEAN: [u8; 22] = [
    19, 0, 0, 0, 43, 1, 0, 0, 0, 0, 0, 0, 0, 1, 0, 0, 0, 0, 0, 0, 0, 1,
];
