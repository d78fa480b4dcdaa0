// FNV-1a of 64 bits over the bytes of a level: its map, agents, items and trees.
ghost use Rattle.std.specs.Prelude.{◌≡◌, [], length};
ghost use Rattle.std.specs.List.{flat_map};
ghost use Rattle.bt_nodes.specs.Plain.{plain, plains};
ghost use Rattle.game_session.specs.Levels.{value_of, agent_trees};
ghost use Rattle.game_session.specs.Sessions.{game_of};
ghost use Rattle.stepping.specs.Digest.{fnv_all};
ghost use Rattle.stepping.specs.LevelDigest.{cell_bytes, node_bytes, tree_bytes, forest_bytes, level_digest_of};

use crate::digest::{OFFSET, with_agents, with_byte, with_items, with_two};
use crate::played::Stepping;
use bt_nodes::Node;
use game_session::Level;
use grid_world::Cell;
use std::alloc::Global;

// With the ground of a cell.
fn with_ground(hash: u64, cell: Cell) -> u64
    ensures { result ≡ fnv_all hash (cell_bytes cell) }
{
    let (kind, number) = match cell {
        Cell::Wall => (0, 0),
        Cell::Floor => (1, 0),
        Cell::Door(signal) => (2, signal.number()),
        Cell::Spot(place) => (3, place.number()),
    };
    with_byte(with_byte(hash, kind), number as u8)
}

fn with_grounds(hash: u64, cells: &[Cell]) -> u64
    ensures { result ≡ fnv_all hash (flat_map cell_bytes cells.now) }
{
    let mut so_far = hash;
    'cells: for cell in cells {
        so_far = with_ground(so_far, *cell);
    }
    so_far
}

// With a node alone.
fn with_node(hash: u64, node: &Node<Global>, children: u64) -> u64
    ensures { result ≡ fnv_all hash (node_bytes (plain node.now) children) }
{
    let number = node.number().unwrap_or(0);
    let own = with_two(with_byte(hash, node.code()), number);
    with_byte(own, (children % 256) as u8)
}

// With a node and those below it, in preorder.
#[cycle(nodes)]
fn with_tree(hash: u64, node: &Node<Global>) -> u64
    ensures { result ≡ fnv_all hash (tree_bytes (plain node.now)) }
{
    match node.decorated() {
        Some(child) => with_tree(with_node(hash, node, 1), child),
        None => {
            let children = node.listed();
            with_trees(with_node(hash, node, children.len() as u64), children)
        }
    }
}

#[cycle(nodes)]
fn with_trees(hash: u64, nodes: &[Node<Global>]) -> u64
    ensures { result ≡ fnv_all hash (forest_bytes (plains nodes.now)) }
{
    let mut so_far = hash;
    'nodes: for node in nodes {
        so_far = with_tree(so_far, node);
    }
    so_far
}

// With the tree of each agent.
fn with_agent_trees(hash: u64, level: &Level) -> u64
    ensures { result ≡ fnv_all hash (flat_map tree_bytes (agent_trees (value_of level.now))) }
{
    let mut so_far = hash;
    let count = level.world().agents().len();
    'agents: for agent in 0..count as u32 {
        so_far = with_tree(so_far, level.tree_of(agent).root());
    }
    so_far
}

/// FNV-1a of 64 bits over the bytes of a level's game, each number with its lowest byte first: width and height in 2 bytes
/// each; of each cell, row after row, 2 bytes: 0 0 a wall, 1 0 floor, 2 and the signal's number a door, 3 and the digit a
/// place; the number of agents in 2 bytes, and agents and items as in the digest of a state; the tree of each agent in
/// preorder, 4 bytes for each node: its kind, the number or the number of the letter or digit in it (2 bytes, or 0), and how
/// many children it has. The number of a kind is its `Node::code`. Names, how the file is laid out, and trees that no agent has
/// don't count. It takes time linear in the number of cells and nodes, and no memory.
pub fn level_digest(level: &Level) -> u64
    ensures { result ≡ level_digest_of (game_of (value_of level.now) []) }
{
    let world = level.world();
    let width = with_two(OFFSET, u64::from(world.width()));
    let height = with_two(width, u64::from(world.height()));
    let cells = with_grounds(height, world.cells());
    let count = with_two(cells, world.agents().len() as u64);
    let agents = with_agents(count, world.agents());
    let items = with_items(agents, world);
    with_agent_trees(items, level)
}

impl Stepping {
    /// The digest of its level, as `level_digest`.
    pub fn level_digest(&self) -> u64
        ensures { result ≡ level_digest_of self.now.game }
    {
        level_digest(self.level())
    }
}
