// The game that a level's and a script's bytes spell, stepped by the script.
ghost use Rattle.std.specs.Prelude.{◌≡◌, ◌+◌, ◌^◌, ◌<◌, Some, IfOk, IfErr, IsSomeAnd, OnOk, OnErr};
ghost use Rattle.commands.specs.Opening.{IsSteppedTo};
ghost use Rattle.game_rules.specs.Game.{Game};
ghost use Rattle.level_text.specs.Games.{spelled_game};
ghost use Rattle.stepping.specs.LevelDigest.{level_digest_of, script_digest_of};
ghost use Rattle.command_line.specs.Sessions.{IsSessionFault};

use command_line::Fault;
use level_text::{read_level, read_script};
use std::alloc::Global;
use stepping::{Stepping, level_digest, script_digest, step_by_script};

/// A game before its first frame, and the digests of its level and its script.
#[derive(Drop)]
pub(crate) struct Opened {
    pub(crate) game: Stepping,
    pub(crate) level_digest: u64,
    pub(crate) script_digest: u64,
}

#[tactic(auto, using(crate::proofs::Stepped::opened_game, crate::proofs::Stepped::opened_level, crate::proofs::Stepped::opened_script))]
/// The level is read before the script.
pub(crate) fn open(alloc: Global, level: &[u8], script: &[u8]) -> Result<Opened, Fault>
    ensures game { IfOk result (λ o. IsSomeAnd (spelled_game level.now script.now) (λ g. IsSteppedTo g 0 o.game)) }
    ensures begun { IfOk result (λ o. o.game.frame ≡ 0) }
    ensures level { IfOk result (λ o. IsSomeAnd (spelled_game level.now script.now) (λ g. o.level_digest ≡ level_digest_of g)) }
    ensures script { IfOk result (λ o. IsSomeAnd (spelled_game level.now script.now) (λ g. o.script_digest ≡ script_digest_of g.changes)) }
    ensures fault { IfErr result (IsSessionFault level.now script.now) }
{
    let level = read_level(alloc, level)?;
    let script = read_script(alloc, script)?;
    let level_digest = level_digest(&level);
    let script_digest = script_digest(&script);
    match Stepping::open(alloc, level, script) {
        Ok(game) => Ok(Opened {
            game,
            level_digest,
            script_digest,
        }),
        Err(_) => Err(Fault::OutOfMemory),
    }
}

/// The next frame.
pub(crate) fn step(alloc: Global, game: &mut Stepping) -> Result<(), Fault>
    requires { game.old.frame + 1 < 2 ^ 32 }
    ensures ok { OnOk result ((g : Game) → IsSteppedTo g game.old.frame game.old → IsSteppedTo g (game.old.frame + 1) game.new) }
    ensures frame { OnOk result (game.new.frame ≡ game.old.frame + 1) }
    ensures trees { OnOk result (game.new.game.trees ≡ game.old.game.trees) }
    ensures fault { IfErr result (λ fault. fault ≡ Fault.OutOfMemory) }
{
    match step_by_script(game, alloc) {
        Ok(()) => Ok(()),
        Err(_) => Err(Fault::OutOfMemory),
    }
}

/// So many frames on.
pub(crate) fn step_all(alloc: Global, game: &mut Stepping, frames: u32) -> Result<(), Fault>
    requires { game.old.frame ≡ 0 }
    ensures ok { OnOk result ((g : Game) → IsSteppedTo g 0 game.old → IsSteppedTo g frames game.new) }
    ensures frame { OnOk result (game.new.frame ≡ frames) }
    ensures trees { OnOk result (game.new.game.trees ≡ game.old.game.trees) }
    ensures fault { IfErr result (λ fault. fault ≡ Fault.OutOfMemory) }
{
    'frames: while game.frame() < frames {
        step(alloc, game)?;
    }
    Ok(())
}
