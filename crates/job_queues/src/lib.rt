//! The queues of jobs that may start and of fibers that may go on, and the pool of fibers.
#![tactic(auto)]

mod fiber;
mod fifo;
mod found;
mod free;
mod pick;
mod pool;
mod priority;
mod priority_queue;
mod queue_index;
mod queues;

pub use fiber::Fiber;
pub use found::Found;
pub use free::size_of;
pub use job_core::names::{JobName, Priority, Size};
pub use pick::Pick;
pub use pool::{FiberPool, NoFiber, NotTaken};
pub use priority::{is_same, job_priority};
pub use queue_index::QueueIndex;
pub use queues::{QueueFault, Queues};
