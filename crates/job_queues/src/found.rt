use super::pick::Pick;
use super::queue_index::QueueIndex;

/// What was found in the queues, and where it stands until they change.
#[derive(Clone, Copy, Debug, PartialEq, Eq)]
pub struct Found {
    pub pick: Pick,
    pub place: QueueIndex,
}
