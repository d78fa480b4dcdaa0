//! Levels and scripts as text: reading, writing, and what they stand for.
#![tactic(auto)]

mod argument;
mod draft;
mod inner;
mod leaves;
mod level_fault;
mod named;
mod nodes;
mod parts;
mod read;
mod script_file;
mod session_fault;
mod sessions;
mod write;
mod write_nodes;

pub use argument::{Argument, mark_in};
pub use game_session::{Level, Script, Session};
pub use level_fault::LevelFault;
pub use read::{level_of, read_level};
pub use script_file::{ScriptFault, read_script};
pub use session_fault::SessionFault;
pub use sessions::read_session;
pub use write::write_level;
pub use write_nodes::{argument_of, head_of};
