ghost use Rattle.std.specs.Prelude.{◌≡◌, IfOk, map};
ghost use Rattle.bt_nodes.specs.Bounds.{zero_memory};
ghost use Rattle.game_session.specs.Levels.{value_of, agent_trees};
ghost use Rattle.frame_parts.specs.Memories.{AllFit};

use bt_tick::Memory;
use game_session::Level;
use std::alloc::{AllocError, Global};

/// A memory of zeros for each agent: those before the first frame.
pub fn zero_memories(alloc: Global, level: &Level) -> Result<Vec<Memory>, AllocError>
    ensures zeros { IfOk result (λ memories. memories.items ≡ map zero_memory (agent_trees (value_of level.now))) }
    ensures fit { IfOk result (λ memories. AllFit (agent_trees (value_of level.now)) memories.items) }
{
    let count = level.world().agents().len();
    let mut memories = Vec::with_capacity(alloc, count)?;
    'agents: for agent in 0..count as u32 {
        memories.push(Memory::zero(alloc, level.tree_of(agent))?)?;
    }
    Ok(memories)
}
