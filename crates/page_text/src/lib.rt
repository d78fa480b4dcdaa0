//! The text of a page that shows a run: fixed parts, and between them what the page holds, the frames that a log shows among
//! it, kept as changes. No byte of what it holds is a `<`, so each part of it ends where the next fixed part begins.
#![tactic(auto)]

mod body;
mod byte_change;
pub mod change_laws;
mod drawn;
mod emits;
mod escaped;
mod film;
pub mod film_laws;
mod filmed;
mod filming;
mod jobs;
pub mod laws;
mod numbers;
mod reel;
mod run;
mod script_agents;
mod script_data;
mod script_hands;
mod script_jobs;
mod script_map;
mod slices;
mod sources;
mod style;
mod writing;

pub use filmed::Filmed;
pub use filming::film_log;
pub use jobs::push_jobs;
pub use run::push_run;
pub use sources::push_sources;
pub use trace_text::FrameSpan;
