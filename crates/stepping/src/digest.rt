// FNV-1a of 64 bits over the bytes of a state.
ghost use Rattle.std.specs.Prelude.{◌≡◌, ◌<◌, ◌+◌, ◌*◌, [], if◌then◌else◌, length, map, drop};
ghost use Rattle.std.specs.List.{flat_map};
ghost use Rattle.game_session.specs.Levels.{value_of, agent_trees};
ghost use Rattle.stepping.specs.Digest.{fnv, fnv_all, bytes, bit, agent_bytes, memory_bytes, item_bytes, digest_of};
ghost use Rattle.frame_parts.specs.Memories.{AllFit};

use bt_tick::Memory;
use game_session::Level;
use grid_world::{Agent, Signal, Signals, World};

pub(crate) const OFFSET: u64 = 14_695_981_039_346_656_037;

const PRIME: u64 = 1_099_511_628_211;

pub(crate) fn with_byte(hash: u64, byte: u8) -> u64
    ensures { result ≡ fnv hash byte }
{
    (hash ^ u64::from(byte)).wrapping_mul(PRIME)
}

// With the lowest two bytes of a number.
pub(crate) fn with_two(hash: u64, number: u64) -> u64
    ensures { result ≡ fnv_all hash (bytes 2 number) }
{
    let low = with_byte(hash, (number % 256) as u8);
    with_byte(low, (number / 256 % 256) as u8)
}

pub(crate) fn with_four(hash: u64, number: u32) -> u64
    ensures { result ≡ fnv_all hash (bytes 4 number) }
{
    let first = with_byte(hash, (number % 256) as u8);
    let second = with_byte(first, (number / 256 % 256) as u8);
    let third = with_byte(second, (number / 256 / 256 % 256) as u8);
    with_byte(third, (number / 256 / 256 / 256 % 256) as u8)
}

fn with_signals(hash: u64, signals: Signals) -> u64
    ensures { result ≡ fnv_all hash (map bit signals) }
{
    let mut so_far = hash;
    'signals: for number in 0..26u32 {
        let Some(signal) = Signal::new(number) else {
            unreachable!()
        };
        so_far = with_byte(so_far, u8::from(signals.is_on(signal)));
    }
    so_far
}

fn with_agent(hash: u64, agent: &Agent) -> u64
    ensures { result ≡ fnv_all hash (agent_bytes agent.now) }
{
    let column = with_four(hash, agent.x);
    let row = with_four(column, agent.y);
    with_byte(row, u8::from(agent.carrying))
}

pub(crate) fn with_agents(hash: u64, agents: &[Agent]) -> u64
    ensures { result ≡ fnv_all hash (flat_map agent_bytes agents.now) }
{
    let mut so_far = hash;
    'agents: for agent in agents {
        so_far = with_agent(so_far, agent);
    }
    so_far
}

fn with_memory(hash: u64, memory: &Memory, size: u64) -> u64
    requires { length memory.now ≡ size }
    ensures { result ≡ fnv_all hash (memory_bytes memory.now) }
{
    let mut so_far = hash;
    'nodes: for node in 0..size {
        let Some(number) = memory.at(node) else {
            unreachable!()
        };
        so_far = with_two(so_far, number);
    }
    so_far
}

fn with_memories(hash: u64, level: &Level, memories: &[Memory]) -> u64
    requires { AllFit (agent_trees (value_of level.now)) memories.now }
    ensures { result ≡ fnv_all hash (flat_map memory_bytes memories.now) }
{
    let mut so_far = hash;
    let count = level.world().agents().len();
    'agents: for agent in 0..count as u32 {
        let size = level.tree_of(agent).size();
        so_far = with_memory(so_far, &memories[agent as usize], size);
    }
    so_far
}

// With the number of a cell, where an item lies there.
fn with_cell(hash: u64, cell: u32, is_here: bool) -> u64
    ensures { result ≡ fnv_all hash (if is_here then bytes 4 cell else []) }
{
    if is_here { with_four(hash, cell) } else { hash }
}

// With the items of a row, before those of the rows below.
fn with_row(hash: u64, world: &World, y: u32) -> u64
    requires { y < world.now.height }
    ensures { fnv_all result (item_bytes (y * world.now.width + world.now.width) (drop (y * world.now.width + world.now.width) world.now.items))
        ≡ fnv_all hash (item_bytes (y * world.now.width) (drop (y * world.now.width) world.now.items)) }
{
    let width = world.width();
    let first = y * width;
    let mut so_far = hash;
    'cells: for x in 0..width {
        so_far = with_cell(so_far, first + x, world.has_item(x, y));
    }
    so_far
}

pub(crate) fn with_items(hash: u64, world: &World) -> u64
    ensures { result ≡ fnv_all hash (item_bytes 0 world.now.items) }
{
    let mut so_far = hash;
    'rows: for y in 0..world.height() {
        so_far = with_row(so_far, world, y);
    }
    so_far
}

// The digest of a game's state.
pub(crate) fn digest(
    frame: u32,
    world: &World,
    signals: Signals,
    level: &Level,
    memories: &[Memory],
) -> u64
    requires { AllFit (agent_trees (value_of level.now)) memories.now }
    ensures { result ≡ digest_of (record { frame = frame; world = world.now; trees = agent_trees (value_of level.now); memories = memories.now; signals = signals }) }
{
    let begun = with_four(OFFSET, frame);
    let signals_in = with_signals(begun, signals);
    let agents_in = with_agents(signals_in, world.agents());
    let memories_in = with_memories(agents_in, level, memories);
    with_items(memories_in, world)
}
