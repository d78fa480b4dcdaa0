//! The jobs of a run without its game: the scheduler, which keeps them event by event, its settings, and the list of the events
//! that brought it where it is, by which may be said what comes next.
#![tactic(auto)]

mod board_fault;
mod counting;
mod held;
mod job_table;
mod jobs;
mod looks;
mod next;
mod out_of_memory;
mod readers;
mod scheduler;
mod settings;
mod slot_table;
mod steps;
mod waking;
mod wide_settings;
mod worker_table;

pub use board_fault::BoardFault;
pub use counters::CounterKey;
pub use held::Held;
pub use job_core::names::{Event, JobName};
pub use job_queues::{Fiber, Pick, QueueIndex};
pub use jobs::JobLog;
pub use next::Next;
pub use out_of_memory::OutOfMemory;
pub use scheduler::Scheduler;
pub use settings::{Settings, SettingsFault};
pub use wide_settings::WideSettings;
