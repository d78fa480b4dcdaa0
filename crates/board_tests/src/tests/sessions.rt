//! The sessions that the tests play.
use game_session::Session;
use level_text::{read_level, read_script};
use std::alloc::Global;

/// The session of a level and a script.
pub fn session_of(alloc: Global, level: &str, script: &str) -> Option<Session> {
    let level = read_level(alloc, level.as_bytes()).ok()?;
    let script = read_script(alloc, script.as_bytes()).ok()?;
    Some(Session::new(level, script))
}
