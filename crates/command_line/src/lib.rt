//! What a program reads of its words and of the files that they name, and what it says of what went wrong; and what other
//! programs need to read theirs in the same way.
#![tactic(auto)]

mod arguments;
mod ending;
mod entries;
mod file_faults;
mod files;
mod negative;
mod program_fault;
mod request;
mod same_file;
mod session;
mod table;
mod unread;
mod whole_file;
mod words_fault;
mod words_reading;

pub use arguments::{new_program, with_subcommands};
pub use ending::{end_with, refuse_words};
pub use entries::{missing, number_entry, optional_entry, text_entry};
pub use files::{create_file, put, read_file, read_optional_file};
pub use program_fault::Fault;
pub use request::Words;
pub use same_file::{refuse_optional_overwriting, refuse_overwriting, refuse_overwriting_log};
pub use session::session_of;
pub use table::{Argument, Form, Subcommand};
pub use unread::{refuse_unread_words, words_given};
pub use whole_file::write_file;
pub use words_fault::WordsFault;
pub use words_reading::{fault_of, read_words};
