use super::held::Held;
use job_core::names::JobName;
use job_queues::{Fiber, QueueIndex};

/// What an idle worker does next, and where it stands in the queues until they change.
#[derive(Clone, Copy, Debug, PartialEq, Eq)]
pub enum Next {
    Start(JobName, QueueIndex),
    /// Goes on with the job that this fiber holds.
    Resume(Fiber, Held, QueueIndex),
}
