//! What the threads of a run share: the locked board with its books, the mail of bands, and who sleeps.
#![tactic(auto)]

mod board;
mod fault;
mod given;
mod handed_in;
mod joining;
mod ledger;
mod locked_board;
mod run_band;
mod run_task;
mod shared;
mod shown_frame;
mod worked;

pub use board::{SharedBoard, draws_in};
pub use fault::{Cause, RunFault};
pub use given::Given;
pub use handed_in::HandedIn;
pub use joining::joined;
pub use ledger::RunLedger;
pub use locked_board::LockedBoard;
pub use run_band::RunBand;
pub use run_task::RunTask;
pub use shared::Shared;
pub use shown_frame::ShownFrame;
pub use worked::Worked;
