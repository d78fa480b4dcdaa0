// A game in the state that a text tells.
ghost use Rattle.std.specs.Prelude.{◌≡◌, ◌≢◌, ◌+◌, ◌^◌, [], true, false, IfErr, IfOk, OnOk};
ghost use Rattle.grid_world.specs.Ground.{no_signals};
ghost use Rattle.game_rules.specs.Game.{signals};
ghost use Rattle.game_session.specs.Levels.{value_of, agent_trees};
ghost use Rattle.game_session.specs.Sessions.{game_of};
ghost use Rattle.frame_parts.specs.Memories.{AllFit};
ghost use Rattle.stepping.specs.Played.{Played, IsTurnedBy};
ghost use Rattle.stepping.specs.StateReading.{IsOfNone, told_in, told_of};
ghost use Rattle.stepping.specs.StateText.{AreAlike, AreOfOneLevel, IsNoText, IsState, state_text};
ghost use Rattle.stepping.specs.declared.load_fault.LoadFault.TheVariants.{OutOfMemory};

use super::Stepping;
use crate::digest_of_level::level_digest;
use crate::load_fault::LoadFault;
use crate::same::are_same_signals;
use crate::state_lines::{Crew, Told, read_state};
use crate::state_words::Head;
use crate::turns::turn_all;
use bt_tick::Memory;
use frame_parts::DistanceCache;
use game_rules::Change;
use game_session::{Level, Script};
use grid_world::Signals;
use std::alloc::Global;
use std::sync::Arc;

fn are_same_bytes(bytes: &[u8], others: &[u8]) -> bool
    ensures same { result ≡ true → bytes.now ≡ others.now }
    ensures differs { result ≡ false → bytes.now ≢ others.now }
{
    bytes == others
}

// Whether each agent's memory fits its tree.
fn all_fit(level: &Level, memories: &[Memory]) -> bool
    ensures fit { result ≡ true → AllFit (agent_trees (value_of level.now)) memories.now }
    ensures other { result ≡ false → AllFit (agent_trees (value_of level.now)) memories.now → ⊥ }
{
    let count = level.world().agents().len();
    if memories.len() != count {
        return false;
    }
    'agents: for agent in 0..count as u32 {
        if !memories[agent as usize].fits(level.tree_of(agent)) {
            return false;
        }
    }
    true
}

// The changes by which a frame has these signals.
#[tactic(auto, using(crate::proofs::Playing::none_turned))]
fn changes_to(alloc: Global, frame: u32, shown: Signals) -> Result<Vec<Change>, LoadFault>
    ensures turned { IfOk result (λ changes. IsTurnedBy frame changes.items shown) }
    ensures first { IfErr result (λ e. e ≢ OutOfMemory → frame ≡ 0) }
    ensures refused { IfErr result (λ e. e ≢ OutOfMemory → shown ≢ no_signals) }
{
    let mut changes = Vec::new(alloc);
    let mut now = Signals::off();
    if frame == 0 {
        if are_same_signals(shown, now) {
            return Ok(changes);
        }
        return Err(LoadFault::Text);
    }
    turn_all(&mut changes, &mut now, frame, shown)?;
    Ok(changes)
}

// Appends those by which the next frame has these.
fn turn_next(
    changes: &mut Vec<Change>,
    frame: u32,
    shown: Signals,
    next: Signals,
) -> Result<(), LoadFault>
    requires { IsTurnedBy frame changes.old.items shown }
    ensures shown { OnOk result (shown ≡ signals changes.new.items frame) }
    ensures next { OnOk result (IsTurnedBy (frame + 1) changes.new.items next) }
    ensures still { OnOk result (frame + 1 ≡ 2 ^ 32 → next ≡ shown) }
    ensures last { IfErr result (λ e. e ≢ OutOfMemory → frame + 1 ≡ 2 ^ 32) }
    ensures refused { IfErr result (λ e. e ≢ OutOfMemory → shown ≢ next) }
{
    let Some(following) = frame.checked_add(1) else {
        if are_same_signals(shown, next) {
            return Ok(());
        }
        return Err(LoadFault::Text);
    };
    let mut now = shown;
    turn_all(changes, &mut now, following, next)?;
    Ok(())
}

// The game of a level after the frame of which this is told.
fn placed(alloc: Global, level: Level, script: Script, told: Told) -> Result<Stepping, LoadFault>
    ensures level { IfOk result (λ s. s.game ≡ game_of (value_of level) s.game.changes) }
    ensures script { IfOk result (λ s. s.script ≡ script) }
    ensures told { IfOk result (λ s. told_of s ≡ told_in told) }
    ensures refused { IfErr result (λ e. e ≢ OutOfMemory → IsOfNone (game_of (value_of level) []) (told_in told)) }
{
    let Told { head, crew, items } = told;
    let Head { frame, shown, next } = head;
    let Crew {
        agents,
        answers,
        memories,
    } = crew;
    let count = level.world().agents().len();
    if agents.len() != count {
        return Err(LoadFault::Text);
    }
    let asked = if frame == 0 { 0 } else { count };
    if answers.len() != asked {
        return Err(LoadFault::Text);
    }
    let Some(world) = level.world().furnished(alloc, items, agents)? else {
        return Err(LoadFault::World);
    };
    if !all_fit(&level, &memories) {
        return Err(LoadFault::World);
    }
    let mut changes = changes_to(alloc, frame, shown)?;
    turn_next(&mut changes, frame, shown, next)?;
    let ground = Arc::new(alloc, level.world().copy(alloc)?)?;
    Ok(Stepping {
        level: Arc::new(alloc, level)?,
        script: Arc::new(alloc, script)?,
        changes,
        frame,
        world,
        memories,
        statuses: answers,
        drawn: shown,
        signals: next,
        known: DistanceCache::none(alloc, ground, shown)?,
    })
}

impl Stepping {
    /// The game of a level in the state whose text this is, as `state_text` writes it, with a script beside it. It goes on as a
    /// game that was in this state does, whether play leads there or not. Level: the text is of another level. World: it tells
    /// agents or items in walls or off the map, two agents on one cell, or a memory that doesn't fit its tree. Text: it is no
    /// state's text in any other way, in any byte. So each state's text of the level is loaded, where memory is not refused. It
    /// takes time linear in the number of cells and nodes.
    pub fn load(
        alloc: Global,
        level: Level,
        script: Script,
        text: &[u8],
    ) -> Result<Stepping, LoadFault>
        ensures text { IfOk result (λ s. state_text s ≡ text.now) }
        ensures state { IfOk result (λ s. (p : Played) → IsState p → AreOfOneLevel s.game p.game → state_text p ≡ text.now → AreAlike s p) }
        ensures level { IfOk result (λ s. s.game ≡ game_of (value_of level) s.game.changes) }
        ensures script { IfOk result (λ s. s.script ≡ script) }
        ensures complete { IfErr result (λ e. e ≢ OutOfMemory → IsNoText (game_of (value_of level) []) text.now) }
    {
        let told = read_state(alloc, &level, level_digest(&level), text)?;
        let game = placed(alloc, level, script, told)?;
        let own = game.state_text(alloc)?;
        if !are_same_bytes(&own, text) {
            return Err(LoadFault::Text);
        }
        Ok(game)
    }
}
