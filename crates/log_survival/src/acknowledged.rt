// An acknowledgement.

/// At this moment the first so many groups were acknowledged.
#[derive(Clone, Copy, Debug, PartialEq, Eq)]
pub struct Acknowledged {
    pub moment: u64,
    pub groups: u64,
}
