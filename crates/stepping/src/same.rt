// Whether the signals, the trees and the memories of two games are the same.
ghost use Rattle.std.specs.Prelude.{◌≡◌, ◌≢◌, true, false, length};
ghost use Rattle.bt_nodes.specs.Bounds.{Fits};
ghost use Rattle.game_session.specs.Levels.{value_of, agent_trees};
ghost use Rattle.frame_parts.specs.Memories.{AllFit};

use bt_tick::Memory;
use game_session::Level;
use grid_world::Signals;

pub(crate) fn are_same_signals(signals: Signals, others: Signals) -> bool
    ensures same { result ≡ true → signals ≡ others }
    ensures differs { result ≡ false → signals ≢ others }
{
    signals == others
}

// Whether each agent has the same tree in both.
pub(crate) fn have_same_trees(level: &Level, other: &Level) -> bool
    requires { length (agent_trees (value_of level.now)) ≡ length (agent_trees (value_of other.now)) }
    ensures same { result ≡ true → agent_trees (value_of level.now) ≡ agent_trees (value_of other.now) }
    ensures differs { result ≡ false → agent_trees (value_of level.now) ≢ agent_trees (value_of other.now) }
{
    'agents: for agent in 0..level.world().agents().len() as u32 {
        if !level.tree_of(agent).is_same(other.tree_of(agent)) {
            return false;
        }
    }
    true
}

// Whether two memories of one tree are the same.
fn are_same(memory: &Memory, other: &Memory, size: u64) -> bool
    requires one { length memory.now ≡ size }
    requires other { length other.now ≡ size }
    ensures same { result ≡ true → memory.now ≡ other.now }
    ensures differs { result ≡ false → memory.now ≢ other.now }
{
    'nodes: for node in 0..size {
        if memory.at(node) != other.at(node) {
            return false;
        }
    }
    true
}

// Whether each agent has the same memory in both.
pub(crate) fn are_same_memories(level: &Level, memories: &[Memory], others: &[Memory]) -> bool
    requires one { AllFit (agent_trees (value_of level.now)) memories.now }
    requires other { AllFit (agent_trees (value_of level.now)) others.now }
    ensures same { result ≡ true → memories.now ≡ others.now }
    ensures differs { result ≡ false → memories.now ≢ others.now }
{
    let count = level.world().agents().len();
    'agents: for agent in 0..count as u32 {
        let size = level.tree_of(agent).size();
        if !are_same(&memories[agent as usize], &others[agent as usize], size) {
            return false;
        }
    }
    true
}
