use level_text::{LevelFault, ScriptFault};
use run_shared::RunFault;

/// Why the game that a level and a script spell wasn't played to its end. The level is read before the script, and both
/// before anything is written.
#[derive(Debug, Drop)]
pub enum PlayFault {
    Level(LevelFault),
    Script(ScriptFault),
    Run(RunFault),
}
