// The bytes of Moves of rows of 1,800 bytes, written out by hand from the table of fields: what stands before the row in the slot that
// it leaves, between that and the row in the slot that it goes to, and behind it.

// Row 2, with its undo in the places 3 and 4 of block 37, leaves slot 0 of block 44, where transaction 1 wrote it.
pub const ROW_2_LEAVES: [u8; 124] = [
    18, 0, 0, 0, 0, 0, 0, 0, 0, 255, 1, 0, 0, 0, 0, 0, 0, 0, 2, 0, 0, 0, 37, 0, 0, 0, 0, 0, 0, 0,
    1, 3, 0, 0, 0, 0, 0, 2, 0, 0, 0, 44, 0, 255, 0, 0, 0, 0, 0, 0, 0, 0, 0, 3, 0, 0, 0, 37, 0, 0,
    0, 0, 0, 0, 0, 1, 3, 0, 0, 0, 0, 0, 0, 0, 0, 0, 0, 0, 0, 0, 0, 0, 0, 0, 1, 1, 0, 0, 0, 0, 0, 0,
    0, 1, 0, 0, 0, 37, 0, 0, 0, 0, 0, 0, 0, 1, 1, 0, 0, 0, 0, 0, 0, 0, 2, 0, 0, 0, 0, 0, 7, 8, 7,
    8,
];

// It comes to slot 0 of block 43, at commit 3.
pub const ROW_2_COMES: [u8; 46] = [
    0, 0, 0, 43, 0, 255, 1, 0, 0, 0, 0, 0, 0, 0, 0, 3, 0, 0, 0, 37, 0, 0, 0, 0, 0, 0, 0, 1, 4, 0,
    0, 0, 0, 0, 0, 0, 2, 0, 0, 0, 0, 0, 7, 8, 7, 8,
];

// There transaction 2 had deleted a row as long. The gate behind the record is closed.
pub const ROW_2_STANDS: [u8; 49] = [
    0, 1, 0, 0, 0, 0, 0, 0, 0, 2, 0, 0, 0, 37, 0, 0, 0, 0, 0, 0, 0, 1, 2, 0, 0, 0, 0, 0, 0, 0, 0,
    0, 0, 0, 0, 0, 0, 0, 7, 8, 0, 0, 0, 0, 0, 0, 0, 3, 0,
];

// Block 38 is taken into use for the first time. Row 3, with its undo in the places 0 and 1 there, leaves slot 0 of block 45.
pub const ROW_3_LEAVES: [u8; 137] = [
    9, 0, 0, 0, 38, 0, 0, 0, 0, 0, 0, 0, 1, 18, 0, 0, 0, 0, 0, 0, 0, 0, 255, 1, 0, 0, 0, 0, 0, 0,
    0, 3, 0, 0, 0, 38, 0, 0, 0, 0, 0, 0, 0, 1, 0, 0, 0, 0, 0, 0, 2, 0, 0, 0, 45, 0, 255, 0, 0, 0,
    0, 0, 0, 0, 0, 0, 3, 0, 0, 0, 38, 0, 0, 0, 0, 0, 0, 0, 1, 0, 0, 0, 0, 0, 0, 0, 0, 0, 0, 0, 0,
    0, 0, 0, 0, 0, 0, 1, 1, 0, 0, 0, 0, 0, 0, 0, 1, 0, 0, 0, 37, 0, 0, 0, 0, 0, 0, 0, 1, 2, 0, 0,
    0, 0, 0, 0, 0, 3, 0, 0, 0, 0, 0, 7, 8, 7, 8,
];

// It comes to slot 0 of block 44, at commit 3.
pub const ROW_3_COMES: [u8; 46] = [
    0, 0, 0, 44, 0, 255, 1, 0, 0, 0, 0, 0, 0, 0, 0, 3, 0, 0, 0, 38, 0, 0, 0, 0, 0, 0, 0, 1, 1, 0,
    0, 0, 0, 0, 0, 0, 3, 0, 0, 0, 0, 0, 7, 8, 7, 8,
];

// There transaction 2 had deleted a row as long. The gate behind the record is closed.
pub const ROW_3_STANDS: [u8; 49] = [
    0, 1, 0, 0, 0, 0, 0, 0, 0, 2, 0, 0, 0, 37, 0, 0, 0, 0, 0, 0, 0, 1, 3, 0, 0, 0, 0, 0, 0, 0, 0,
    0, 0, 0, 0, 0, 0, 0, 7, 8, 0, 0, 0, 0, 0, 0, 0, 3, 0,
];
