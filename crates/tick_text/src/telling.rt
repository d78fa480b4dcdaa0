// What is told of an agent's tick by a game before a frame and the same game after it.
ghost use Rattle.std.specs.Prelude.{◌≡◌, ◌+◌, ◌^◌, ◌<◌, ◌++◌, length, IfOk, OnOk};
ghost use Rattle.game_rules.specs.Text.{agent_text};
ghost use Rattle.tick_text.specs.Text.{text_between, IsNextTickText};

use crate::lines::push_answer;
use crate::seen_tick::SeenTick;
use byte_streams::push_number;
use grid_world::Signals;
use std::alloc::{AllocError, Global};
use stepping::{AgentState, Stepping, step_by};

// Appends an agent's line of a frame.
fn push_agent(text: &mut Vec<u8>, number: u32, state: &AgentState) -> Result<(), AllocError>
    requires { number < 26 }
    ensures { OnOk result (text.new.items ≡ text.old.items ++ agent_text number state.now.agent state.now.status) }
{
    text.extend_from_slice(&[b'A' + number as u8, b' '])?;
    push_answer(text, Some(state.status))?;
    push_number(text, b" ", state.agent.x)?;
    push_number(text, b",", state.agent.y)?;
    text.extend_from_slice(if state.agent.carrying {
        b" *\n"
    } else {
        b" -\n"
    })
}

// What is told of an agent's tick by a game before a frame with these signals and by the same game after it.
fn told(
    alloc: Global,
    before: &Stepping,
    after: &Stepping,
    signals: Signals,
    agent: u32,
) -> Result<Vec<u8>, AllocError>
    requires stepped { 0 < after.now.frame }
    requires agent { agent < length before.now.game.trees }
    requires still { after.now.game.trees ≡ before.now.game.trees }
    requires letter { agent < 26 }
    ensures { IfOk result (λ text. text.items ≡ text_between signals before.now after.now agent) }
{
    let tick = SeenTick {
        game: before,
        signals,
        agent,
        answers: before.node_answers(alloc, signals, agent)?,
        before: before.memory_of(alloc, agent)?,
        after: after.memory_of(alloc, agent)?,
    };
    let Some(state) = after.agent(agent) else {
        unreachable!()
    };
    let mut text = Vec::new(alloc);
    push_number(&mut text, b"frame ", after.frame())?;
    text.extend_from_slice(b"\n")?;
    push_agent(&mut text, agent, &state)?;
    tick.push_tree(alloc, &mut text, before.level().tree_of(agent).root(), 0, 0)?;
    Ok(text)
}

/// What is told of an agent's tick in the next frame, if that has these signals: the frame's number, the agent's line of the frame,
/// and a line for each node of its tree. The game stays as it is. It takes as long as a step of its fork, two ticks, and a search for
/// each `Move` that is ticked.
pub fn next_tick_text(
    alloc: Global,
    game: &Stepping,
    signals: Signals,
    agent: u32,
) -> Result<Vec<u8>, AllocError>
    requires frame { game.now.frame + 1 < 2 ^ 32 }
    requires agent { agent < length game.now.game.trees }
    ensures { IfOk result (λ text. IsNextTickText game.now signals agent text.items) }
{
    // no world has more agents than there are letters
    let _ = game.world().agents();
    let mut after = game.fork(alloc)?;
    step_by(&mut after, alloc, signals)?;
    told(alloc, game, &after, signals, agent)
}
