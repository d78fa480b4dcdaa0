//! Whole texts in and out of readers and writers that take a few bytes a call, and numbers in a text.
#![tactic(auto)]

mod numbers;
mod whole_reading;
mod writing;

pub use numbers::{push_hex, push_number};
pub use whole_reading::{ReadFault, read_whole};
pub use writing::{WriteFault, write_whole};
