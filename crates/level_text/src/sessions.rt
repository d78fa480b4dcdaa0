ghost use Rattle.std.specs.Prelude.{◌≡◌, Some, IfOk, IfErr};
ghost use Rattle.level_text.specs.Games.{spelled_game};
ghost use Rattle.level_text.specs.Sessions.{IsFaultOfBoth};

use crate::read::read_level;
use crate::script_file::read_script;
use crate::session_fault::SessionFault;
use game_session::Session;
use std::alloc::Global;

/// The game that a level's and a script's bytes spell. The level is read before the script, and the first fault is answered.
pub fn read_session(alloc: Global, level: &[u8], script: &[u8]) -> Result<Session, SessionFault>
    ensures game { IfOk result (λ session. spelled_game level.now script.now ≡ Some session) }
    ensures fault { IfErr result (IsFaultOfBoth level.now script.now) }
{
    let level = match read_level(alloc, level) {
        Ok(level) => level,
        Err(fault) => return Err(SessionFault::Level(fault)),
    };
    match read_script(alloc, script) {
        Ok(script) => Ok(Session::new(level, script)),
        Err(fault) => Err(SessionFault::Script(fault)),
    }
}
