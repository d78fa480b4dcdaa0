// Ticks of a frame, over what the frame starts from.
ghost use Rattle.std.specs.Prelude.{◌+◌, ◌<◌, ℕ, IfOk, length};
ghost use Rattle.frame_state.specs.Thoughts.{IsWayOf};
ghost use Rattle.frame_params.specs.Thinks.{ThinksTo, StandsAt};

use bt_tick::{Outcome, Pending, View};
use frame_state::FrameStart;
use grid_world::Answer;
use std::alloc::{AllocError, Allocator, Global};

// Begins an agent's tick, with a copy of its memory. The nodes that it has open lie in `scratch`.
pub(crate) fn begun<'t, A: Allocator + Clone>(
    alloc: Global,
    scratch: A,
    start: &FrameStart<'t>,
    agent: u32,
) -> Result<Outcome<'t, Global, A>, AllocError>
    requires { agent < length start.now.game.trees }
    ensures { IfOk result (λ o. ThinksTo start.now.game start.now.frame agent 0 o) }
{
    let view = View {
        world: start.world(),
        signals: start.signals(),
        agent,
    };
    let tree = start.session().tree_of(agent);
    Ok(frame_parts::begun(alloc, scratch, tree, &view, start.memory_of(agent))?)
}

// Goes on with a copy in `scratch` of an agent's tick that stands, by the way to the place for which it asks.
pub(crate) fn copy_gone_on<'t, A: Allocator + Clone, B: Allocator + Clone>(
    scratch: A,
    start: &FrameStart<'t>,
    agent: u32,
    pending: &Pending<'t, Global, B>,
    answer: Answer,
) -> Result<Outcome<'t, Global, A>, AllocError>
    requires { agent < length start.now.game.trees }
    ensures { IfOk result (λ o. (i : ℕ)
        → StandsAt start.now.game start.now.frame agent i pending.now
        → IsWayOf start.now.game start.now.frame agent i answer
        → ThinksTo start.now.game start.now.frame agent (i + 1) o) }
{
    let view = View {
        world: start.world(),
        signals: start.signals(),
        agent,
    };
    let copy = pending.copy_in(scratch.clone()?)?;
    Ok(frame_parts::gone_on(scratch, &view, copy, answer)?)
}
