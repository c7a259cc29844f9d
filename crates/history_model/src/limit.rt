// The limits of statements.

/// An update or a delete begins so often before it is refused.
pub const MOST_STARTS: usize = 16;

/// With so many redo records new work is refused: 2^48.
pub const NEW_WORK_RECORDS: u64 = 281_474_976_710_656;
