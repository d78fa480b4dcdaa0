use job_core::names::Priority;

/// Where an entry of the queues stands: its priority, and how many of its kind stand before it there.
#[derive(Clone, Copy, Debug, PartialEq, Eq)]
pub struct QueueIndex {
    pub priority: Priority,
    pub index: usize,
}
