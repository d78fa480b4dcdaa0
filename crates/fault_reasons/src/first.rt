ghost use Rattle.std.specs.Prelude.{Some, None, Ok, ◌≡◌, IfOk, IfSome, IsSome};
ghost use Rattle.fault_reasons.specs.Reasons.{IsFirstReason};
ghost use Rattle.level_text.specs.Games.{spelled_game};

use crate::level::level_reason;
use crate::reason::Reason;
use crate::script::script_reason;
use level_text::{read_level, read_script};
use std::alloc::{AllocError, Global};

/// Where the first fault of a level's and a script's bytes lies, the level's before the script's, and why it is one; none where they
/// spell a game.
pub fn first_reason(
    alloc: Global,
    level: &[u8],
    script: &[u8],
) -> Result<Option<Reason>, AllocError>
    ensures reason { IfOk result (λ found. IfSome found (IsFirstReason level.now script.now)) }
    ensures none { result ≡ Ok None → IsSome (spelled_game level.now script.now) }
{
    match read_level(alloc, level) {
        Ok(_) => {}
        Err(fault) => return Ok(Some(level_reason(alloc, level, &fault)?)),
    }
    match read_script(alloc, script) {
        Ok(_) => Ok(None),
        Err(fault) => Ok(Some(script_reason(alloc, script, fault)?)),
    }
}
