// The entry of a statement, or of a session's end.
use crate::outcome::Outcome;
use seg_base::Lsn;

/// A statement's last event has ended. The records before its first event and after its last one are counted, and
/// the moment is the disk's clock then. The ordinal is the statement's in its session, from 1; without one it is the
/// rollback at the session's end.
#[derive(Debug, Drop)]
pub struct Entry {
    pub session: u8,
    pub ordinal: Option<u32>,
    pub begins: Lsn,
    pub ends: Lsn,
    pub moment: u64,
    pub outcome: Outcome,
}
