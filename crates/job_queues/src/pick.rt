use super::fiber::Fiber;
use job_core::names::JobName;

/// What a worker is to do next: go on with a fiber whose job waited, or start a new job.
#[derive(Clone, Copy, Debug, PartialEq, Eq)]
pub enum Pick {
    Ready(Fiber),
    New(JobName),
}
