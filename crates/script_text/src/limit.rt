// The limits of numbers in a script.

/// The greatest row number.
pub const MOST_ROW_NUMBER: u64 = 281_474_976_710_656;

/// The most events that one item of the schedule asks for.
pub const MOST_TURNS: u64 = 1_000_000;

/// The greatest number of a block, and of a value for its class, that a line may have.
pub const MOST_NUMBER: u64 = 4_294_967_295;
