// A game is opened in a state that was written as text.
ghost use Rattle.std.specs.Prelude.{◌≡◌, ◌≢◌, ◌⊎◌, [], IfOk, IfErr};
ghost use Rattle.game_session.specs.Levels.{value_of};
ghost use Rattle.game_session.specs.Sessions.{game_of};
ghost use Rattle.stepping.specs.StateText.{state_text, IsNoText, IsState};
ghost use Rattle.btworld_c.specs.Statuses.{done, no_memory, IsStateFault};
ghost use Rattle.btworld_c.specs.Games.{IsLoaded, IsLoadStatus, IsLoadedBeside, IsLoadBesideStatus};

use crate::game::{Game, put};
use crate::status::{NO_MEMORY, OK, OPEN, level_status, load_status, script_status};
use game_session::{Level, Script};
use level_text::{read_level, read_script};
use std::alloc::Global;
use stepping::Stepping;

#[tactic(auto, using(crate::proofs::Told::fault_told))]
fn loaded(alloc: Global, level: Level, script: Script, state: &[u8]) -> Result<Box<Stepping>, u32>
    ensures text { IfOk result (λ b. state_text b.value ≡ state.now) }
    ensures game { IfOk result (λ b. b.value.game ≡ game_of (value_of level) b.value.game.changes) }
    ensures script { IfOk result (λ b. b.value.script ≡ script) }
    ensures stands { IfOk result (λ b. IsState b.value) }
    ensures status { IfErr result (λ status. (status ≡ no_memory) ⊎ (IsStateFault status × IsNoText (game_of (value_of level) []) state.now)) }
{
    let game = match Stepping::load(alloc, level, script, state) {
        Ok(game) => game,
        Err(fault) => return Err(load_status(fault)),
    };
    // Whatever game there is stands in a state.
    let _ = game.world();
    match Box::new(alloc, game) {
        Ok(held) => Ok(held),
        Err(_) => Err(NO_MEMORY),
    }
}

/// Opens the game of the level that bytes spell in a closed handle, in the state whose text this is, as `btworld_state` writes
/// it, with an empty script beside it. It goes on as a game that was in this state, whether play leads there or not. A handle
/// that holds a game answers 3, and the fault of the level comes before that of the text: 65 is a text of another level, 66 one
/// that tells agents or items in walls or off the map, two agents on one cell, or a memory that doesn't fit its tree, and 64 one
/// that is no state's in any other way. Where the status is not 0 the handle is as it was.
#[tactic(auto, using(crate::proofs::Told::level_told, crate::proofs::Told::load_told, crate::proofs::Told::load_taken_told, crate::proofs::Told::load_refused, crate::proofs::Told::load_done))]
#[unsafe(no_mangle)]
pub extern "C" fn btworld_load(alloc: Global, game: &mut Game, level: &[u8], state: &[u8]) -> u32
    ensures ok { result ≡ done → IsLoaded level.now state.now game.new.handle.value }
    ensures status { IsLoadStatus level.now state.now game.old.handle.value result }
    ensures refused { result ≢ done → game.new.handle.value ≡ game.old.handle.value }
{
    if game.is_open {
        return OPEN;
    }
    match read_level(alloc, level) {
        Ok(read) => match loaded(alloc, read, Script::empty(alloc), state) {
            Ok(held) => {
                put(game, held);
                OK
            }
            Err(status) => status,
        },
        Err(fault) => level_status(&fault),
    }
}

/// As `btworld_load`, with a script beside the game, whose signals `btworld_step_script` takes: in the next frame those that the script
/// has in the frame of that number. The fault of a level comes before that of a script, and that before the text's.
#[tactic(auto, using(crate::proofs::Told::level_first_told, crate::proofs::Told::script_told, crate::proofs::Told::load_beside_told, crate::proofs::Told::load_beside_taken_told, crate::proofs::Told::load_beside_refused, crate::proofs::Told::load_beside_done, crate::proofs::Told::session_refused))]
#[unsafe(no_mangle)]
pub extern "C" fn btworld_load_script(
    alloc: Global,
    game: &mut Game,
    level: &[u8],
    script: &[u8],
    state: &[u8],
) -> u32
    ensures ok { result ≡ done → IsLoadedBeside level.now script.now state.now game.new.handle.value }
    ensures status { IsLoadBesideStatus level.now script.now state.now game.old.handle.value result }
    ensures refused { result ≢ done → game.new.handle.value ≡ game.old.handle.value }
{
    if game.is_open {
        return OPEN;
    }
    let read = match read_level(alloc, level) {
        Ok(read) => read,
        Err(fault) => return level_status(&fault),
    };
    let changes = match read_script(alloc, script) {
        Ok(changes) => changes,
        Err(fault) => return script_status(fault),
    };
    match loaded(alloc, read, changes, state) {
        Ok(held) => {
            put(game, held);
            OK
        }
        Err(status) => status,
    }
}
