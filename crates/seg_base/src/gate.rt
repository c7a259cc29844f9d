// What may look on between two events.

/// Is called between events, outside the lock, with the worker's session (0 for the flusher) and the ordinal
/// of the worker's last hold of the lock, from 1.
pub trait Gate: Sync {
    fn pass(&self, session: u8, event: u64);
}

/// The gate that lets everybody pass.
#[derive(Clone, Copy, Debug)]
pub struct Open;

impl Gate for Open {
    fn pass(&self, _session: u8, _event: u64) {}
}
