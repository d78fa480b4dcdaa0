//! The jobs of a game of one's own: a board that hands out the names of jobs and is told what comes of them. It keeps no values.
//! How many questions a Think asks is known only as it asks them.
#![tactic(auto)]

mod board;
mod drawn;
mod given;
pub mod laws;
mod telling;

pub use board::FrameJobs;
pub use job_core::names::{Event, JobName, Priority};
pub use job_queues::Fiber;
pub use job_scheduler::{BoardFault, Held, OutOfMemory, SettingsFault, WideSettings};

#[cfg(test)]
mod tests;
