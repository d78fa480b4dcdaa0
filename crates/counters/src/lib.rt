//! Counters that jobs lower as they end, and the fibers that wait for a counter to reach 0.
#![tactic(auto)]

mod board_counters;
mod counter;
mod counters;
mod key;
mod waiters;

pub use board_counters::BoardCounters;
pub use counters::{CounterFault, Counters, Lowered, Waits};
pub use job_queues::Fiber;
pub use key::CounterKey;
pub use waiters::Waiters;
