//! The task board: the jobs of a run over a session, handed out as tasks, with what their work came to, kept by name.
#![tactic(auto)]

mod asking;
mod board;
mod done;
mod fitting;
mod frame_store;
mod hand_in;
mod moves;
mod next;
mod refused;
mod results;
mod retired;
mod shown;
mod thoughts;

pub use board::TaskBoard;
pub use done::Done;
pub use job_core::names::{Event, JobName};
pub use job_scheduler::{BoardFault, OutOfMemory, Settings, SettingsFault};
pub use refused::Refused;
pub use retired::Retired;
pub use shown::Shown;
