ghost use Rattle.std.specs.Prelude.{◌≡◌, Some, IfOk, IfErr};
ghost use Rattle.command_line.specs.Sessions.{IsSessionFault};
ghost use Rattle.level_text.specs.Games.{spelled_game};

use crate::program_fault::Fault;
use game_session::Session;
use level_text::{SessionFault, read_session};
use std::alloc::Global;

/// The game that a level's and a script's bytes spell; the level is read before the script.
pub fn session_of(alloc: Global, level: &[u8], script: &[u8]) -> Result<Session, Fault>
    ensures game { IfOk result (λ session. spelled_game level.now script.now ≡ Some session) }
    ensures fault { IfErr result (IsSessionFault level.now script.now) }
{
    match read_session(alloc, level, script) {
        Ok(session) => Ok(session),
        Err(SessionFault::Level(fault)) => Err(Fault::from(fault)),
        Err(SessionFault::Script(fault)) => Err(Fault::from(fault)),
    }
}
