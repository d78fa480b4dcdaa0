//! The printer of a run: it takes the bands out of the mail, keeps them by frame and number, and writes the frames in order.
#![tactic(auto)]

mod band_table;
mod frame_bands;
mod inbox;
mod journal;
mod journal_fault;
mod noting;
mod printer;

pub use inbox::Inbox;
pub use journal::{Journal, NoJournal};
pub use journal_fault::JournalFault;
pub use noting::note_rest;
pub use printer::{Printer, print};
