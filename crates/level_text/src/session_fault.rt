use crate::level_fault::LevelFault;
use crate::script_file::ScriptFault;

/// Why a level's and a script's bytes spell no game.
#[derive(Debug, Drop)]
pub enum SessionFault {
    Level(LevelFault),
    /// The level has no fault.
    Script(ScriptFault),
}
