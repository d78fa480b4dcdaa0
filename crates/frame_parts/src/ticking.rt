// An agent's tick, from question to question.
ghost use Rattle.std.specs.Prelude.{◌≡◌, ◌+◌, ◌<◌, ℕ, List, IfOk, length, true};
ghost use Rattle.grid_world.specs.Grid.{agent_of, is_on_map, point_of};
ghost use Rattle.grid_world.specs.Way.{way};
ghost use Rattle.grid_world.specs.World.{point};
ghost use Rattle.bt_nodes.specs.Bounds.{Fits};
ghost use Rattle.bt_nodes.specs.Plain.{Plain};
ghost use Rattle.bt_nodes.specs.Trees.{plain_of};
ghost use Rattle.bt_tick.specs.Thinking.{Thinking};
ghost use Rattle.bt_tick.specs.Views.{view_of, IsInWorld};
ghost use Rattle.bt_tick.specs.Outcome.{place_of};
ghost use Rattle.bt_tick.specs.declared.tick.Outcome.TheVariants.{Asks};
ghost use Rattle.game_rules.specs.View.{cell_of};

use bt_nodes::Tree;
use bt_tick::{Memory, Outcome, Pending, View, begin, resume};
use grid_world::{Answer, World};
use std::alloc::{AllocError, Allocator, Global};

/// The cell of an agent.
pub fn cell_on(world: &World, agent: u32) -> (u32, u32)
    requires { agent < length world.now.agents }
    ensures cell { point result.0 result.1 ≡ point_of (agent_of world.now agent) }
    ensures there { is_on_map world.now (point result.0 result.1) ≡ true }
{
    let here = world.agents()[agent as usize];
    (here.x, here.y)
}

/// Begins an agent's tick, with a copy of its memory. The nodes that it has open lie in `scratch`.
pub fn begun<'t, A: Allocator + Clone>(
    alloc: Global,
    scratch: A,
    tree: &'t Tree<Global>,
    view: &View,
    memory: &Memory,
) -> Result<Outcome<'t, Global, A>, AllocError>
    requires fits { Fits (plain_of tree.now) memory.now }
    requires agent { IsInWorld view.now }
    ensures { IfOk result (λ o. Thinking (view_of view.now) (plain_of tree.now) memory.now 0 o) }
{
    match begin(scratch, tree, view, memory.copy(alloc)?) {
        Ok(outcome) => Ok(outcome),
        Err(_) => Err(AllocError),
    }
}

/// Goes on with an agent's tick that stands at a question, by the way to the place for which it asks.
pub fn gone_on<'t, A: Allocator + Clone>(
    scratch: A,
    view: &View,
    pending: Pending<'t, Global, A>,
    answer: Answer,
) -> Result<Outcome<'t, Global, A>, AllocError>
    requires { IsInWorld view.now }
    ensures { IfOk result (λ o. (p : Plain) (m : List ℕ) (i : ℕ)
        → Thinking (view_of view.now) p m i (Asks (place_of pending.entry) pending.entry)
        → answer ≡ way view.now.world.now view.now.signals (cell_of (view_of view.now)) (place_of pending.entry)
        → Thinking (view_of view.now) p m (i + 1) o) }
{
    match resume(scratch, pending, view, answer) {
        Ok(outcome) => Ok(outcome),
        Err(_) => Err(AllocError),
    }
}
