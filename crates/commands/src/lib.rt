//! What the program's commands do, over any reader and writers.
#![tactic(auto)]

mod checking;
mod completing;
mod digests;
mod explaining;
mod few_frames;
mod finding;
mod hint;
mod journals;
mod laws;
mod named_line;
mod opening;
mod playing;
mod program;
mod record_fault;
mod recording;
mod replaying;
mod run_fault;
mod states;
mod why;

pub use checking::check_bytes;
pub use command_line::{Fault, Words, WordsFault, read_words, refuse_unread_words, words_given};
pub use completing::complete_bytes;
pub use digests::digest_bytes;
pub use explaining::explain_bytes;
pub use finding::NamedBytes;
pub use hint::point_to_explain;
pub use laws::cut_journals_complete;
pub use play_run::LogJournal;
pub use program::command;
pub use record_fault::RecordFault;
pub use recording::record_session;
pub use replaying::replay_bytes;
pub use states::state_bytes;
pub use why::why_bytes;
