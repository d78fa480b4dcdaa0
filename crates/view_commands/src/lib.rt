//! What the viewer's commands do, over any writers.
#![tactic(auto)]

mod arguments;
pub mod laws;
mod page_sources;
mod paging;
mod program;
mod request;
mod tracing;
mod view_words_reading;

pub use command_line::{refuse_unread_words, words_given};
pub use page_sources::PageSources;
pub use paging::page_bytes;
pub use program::view_command;
pub use request::ViewWords;
pub use tracing::trace_bytes;
pub use view_words_reading::read_view_words;
