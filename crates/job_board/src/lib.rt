//! A board that can do the work of its jobs itself: events that are given, and which one comes next.
#![tactic(auto)]

mod apply;
mod board;
mod enabled;
pub mod laws;
mod work;
mod works;

pub use board::Board;
pub use job_core::names::{Event, JobName};
pub use job_scheduler::{BoardFault, OutOfMemory, Settings, SettingsFault};
pub use task_board::{Done, Refused, Shown};
