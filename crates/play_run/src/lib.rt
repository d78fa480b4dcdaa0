//! Plays a session's frames on worker threads, and writes them in order.
#![tactic(auto)]

mod bytes;
mod counted;
mod log_journal;
mod opening;
mod play_fault;
mod report;
mod whole_run;
mod workers;

pub use band_mail::{BandMail, Putter, Taker};
pub use bytes::{run_bytes, run_bytes_journalled};
pub use log_journal::LogJournal;
pub use play_fault::PlayFault;
pub use report::RunReport;
pub use run_printer::{Journal, JournalFault, NoJournal};
pub use run_shared::{Cause, RunFault};
pub use run_worker::{EveryJob, Gate};
pub use task_board::{Event, JobName, Settings};
pub use whole_run::{run, run_journalled};
