//! Why a file is refused: where in it the fault lies that its reader answers, and what is wrong there, in words for who writes the
//! file: of a level or a script its place, of a log the rule of legality that an event breaks after the events before it, or what
//! is still to come. No fault is decided here.
#![tactic(auto)]

mod breaking;
mod event_reason;
mod first;
mod forms;
mod history;
mod json_text;
mod keys;
mod level;
mod limits;
mod log_line_reason;
mod map_flaws;
mod names;
mod nesting;
mod place;
mod pointer;
mod reason;
mod reason_text;
mod rule;
mod run;
mod script;
mod search;
mod shape;
mod tokens;

pub use event_reason::{EventReason, illegal_reason, incomplete_reason};
pub use first::first_reason;
pub use level::level_reason;
pub use log_line_reason::reading_reason;
pub use log_text::{Event, JobName, Settings};
pub use reason::Reason;
pub use reason_text::push_reason;
pub use run::Run;
pub use script::script_reason;
