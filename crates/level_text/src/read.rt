// Levels from bytes and from JSON values.
ghost use Rattle.std.specs.Prelude.{◌≡◌, ◌<◌, ◌≤◌, ◌==◌, Some, None, Ok, IfOk, IfErr, IfSome, IfNone, IsTrue, map, length, position, slice_index_or, string_bytes};
ghost use Rattle.serde_json.specs.View.{view};
ghost use Rattle.grid_world.specs.Map.{grid_of};
ghost use Rattle.std.specs.Str.{chars, bytes_eq};
ghost use Rattle.level_text.specs.Drafts.{parts_view, node_view};
ghost use Rattle.game_session.specs.Names.{is_in_order, names_of};
ghost use Rattle.game_session.specs.Faults.{row_fault, limit_fault, agent_fault, place_fault, crew_fault, no_place, no_agent};
ghost use Rattle.level_text.specs.TreeFaults.{own_fault};
ghost use Rattle.game_session.specs.Kept.{tree_view, trees_view, texts_view, index_of as spelled_index};
ghost use Rattle.game_session.specs.Levels.{value_of};
ghost use Rattle.level_text.specs.Levels.{of_parts, spelled, level_of as spelled_level, IsFaultOf, IsFirstOf};
ghost use Rattle.game_session.specs.declared.named_tree.NamedTree.{NamedTree};

use crate::draft::{Draft, NamedNode};
use crate::level_fault::LevelFault;
use crate::named::{Named, has_named};
use crate::parts::parts_of;
use bt_nodes::Tree;
use game_session::{Level, NamedTree};
use grid_world::{MapFault, World};
use serde_json::Value;
use std::alloc::Global;

fn world_of(alloc: Global, rows: &[String]) -> Result<World, LevelFault>
    ensures ok { IfOk result (λ w. (row_fault (texts_view rows.now) ≡ None) × (w ≡ grid_of (map chars (texts_view rows.now)))) }
    ensures err { IfErr result (IsFirstOf (row_fault (texts_view rows.now))) }
{
    match World::from_rows(alloc, rows) {
        Ok(world) => Ok(world),
        Err(MapFault::OutOfMemory) => Err(LevelFault::OutOfMemory),
        Err(MapFault::Size) => Err(LevelFault::MapSize),
        Err(MapFault::Char { x, y }) => Err(LevelFault::MapChar { x, y }),
        Err(MapFault::Letters) => Err(LevelFault::Letters),
    }
}

/// The tree of a name, or the limit that it breaks.
fn tree_within(named: NamedNode) -> Result<NamedTree, LevelFault>
    ensures ok { IfOk result (λ t. (own_fault (node_view named) ≡ None) × (tree_view t ≡ node_view named)) }
    ensures err { IfErr result (IsFirstOf (own_fault (node_view named))) }
{
    match Tree::new(named.node) {
        Ok(tree) => Ok(NamedTree {
            name: named.name,
            tree,
        }),
        Err((fault, _)) => Err(LevelFault::BadTree {
            name: named.name,
            fault,
        }),
    }
}

fn trees_within(alloc: Global, nodes: Vec<NamedNode>) -> Result<Vec<NamedTree>, LevelFault>
    ensures ok { IfOk result (λ v. (limit_fault (map node_view nodes.items) ≡ None)
        × (trees_view v.items ≡ map node_view nodes.items)) }
    ensures err { IfErr result (IsFirstOf (limit_fault (map node_view nodes.items))) }
{
    let mut trees = Vec::with_capacity(alloc, nodes.len())?;
    'nodes: for named in nodes {
        trees.push(tree_within(named)?)?;
    }
    Ok(trees)
}

fn index_of(name: &String, trees: &[NamedTree]) -> Option<usize>
    ensures { result ≡ position (λ t. bytes_eq (string_bytes t.name) (string_bytes name.now)) trees.now }
{
    trees.iter().position(|named| named.name == *name)
}

/// Where the tree of each name stands.
fn picks_of(alloc: Global, names: &[String], trees: &[NamedTree]) -> Result<Vec<usize>, LevelFault>
    requires { length names.now ≤ 26 }
    ensures ok { IfOk result (λ picks. (agent_fault 0 (texts_view names.now) (trees_view trees.now) ≡ None)
        × (picks.items ≡ map (spelled_index (trees_view trees.now)) (texts_view names.now))) }
    ensures err { IfErr result (IsFirstOf (agent_fault 0 (texts_view names.now) (trees_view trees.now))) }
{
    let mut picks = Vec::with_capacity(alloc, names.len())?;
    'names: for (agent, name) in names.iter().enumerate() {
        match index_of(name, trees) {
            Some(i) => picks.push(i)?,
            None => return Err(LevelFault::NoTree {
                agent: agent as u32,
            }),
        }
    }
    Ok(picks)
}

/// The first tree that names a place that is not on the map.
fn first_unplaced(trees: &[NamedTree], world: &World) -> Option<usize>
    ensures none { IfNone result (place_fault world.now (trees_view trees.now) ≡ None) }
    ensures some { IfSome result (λ i. (i < length trees.now) × ((t : NamedTree)
        → place_fault world.now (trees_view trees.now) ≡ Some (no_place (string_bytes (slice_index_or trees.now i t).name)))) }
{
    'trees: for (i, named) in trees.iter().enumerate() {
        if !has_named(named.tree.root(), Named::Places, world) {
            return Some(i);
        }
    }
    None
}

/// The first tree that names an agent that is not on the map.
fn first_uncrewed(trees: &[NamedTree], world: &World) -> Option<usize>
    ensures none { IfNone result (crew_fault world.now (trees_view trees.now) ≡ None) }
    ensures some { IfSome result (λ i. (i < length trees.now) × ((t : NamedTree)
        → crew_fault world.now (trees_view trees.now) ≡ Some (no_agent (string_bytes (slice_index_or trees.now i t).name)))) }
{
    'trees: for (i, named) in trees.iter().enumerate() {
        if !has_named(named.tree.root(), Named::Agents, world) {
            return Some(i);
        }
    }
    None
}

fn is_counted(names: &[String], world: &World) -> bool
    ensures { result ≡ (length (texts_view names.now) == length world.now.agents) }
{
    names.len() == world.agents().len()
}

/// The level of the parts, or their first fault.
fn level_from(alloc: Global, draft: Draft) -> Result<Level, LevelFault>
    requires { IsTrue (is_in_order (names_of (parts_view draft).trees)) }
    ensures ok { IfOk result (λ level. of_parts (Some (parts_view draft)) ≡ Ok (value_of level)) }
    ensures err { IfErr result (IsFaultOf (of_parts (Some (parts_view draft)))) }
{
    let world = world_of(alloc, &draft.rows)?;
    if !is_counted(&draft.names, &world) {
        return Err(LevelFault::AgentCount);
    }
    let mut trees = trees_within(alloc, draft.trees)?;
    let picks = picks_of(alloc, &draft.names, &trees)?;
    if let Some(i) = first_unplaced(&trees, &world) {
        return Err(LevelFault::NoPlace {
            name: trees.remove(i).name,
        });
    }
    if let Some(i) = first_uncrewed(&trees, &world) {
        return Err(LevelFault::NoAgent {
            name: trees.remove(i).name,
        });
    }
    Ok(Level::new(draft.rows, draft.names, trees, world, picks))
}

/// The level that a value spells, or the first fault of it, which is never `Json`.
pub fn level_of(alloc: Global, value: &Value) -> Result<Level, LevelFault>
    ensures ok { IfOk result (λ level. spelled_level (view value.now) ≡ Ok (value_of level)) }
    ensures err { IfErr result (IsFaultOf (spelled_level (view value.now))) }
{
    match parts_of(alloc, value)? {
        Some(draft) => level_from(alloc, draft),
        None => Err(LevelFault::Shape),
    }
}

/// The level that bytes spell, or the first fault of them.
pub fn read_level(alloc: Global, bytes: &[u8]) -> Result<Level, LevelFault>
    ensures ok { IfOk result (λ level. spelled bytes.now ≡ Ok (value_of level)) }
    ensures err { IfErr result (IsFaultOf (spelled bytes.now)) }
{
    match Value::from_slice(alloc, bytes) {
        Ok(value) => level_of(alloc, &value),
        Err(error) => if error.is_memory() {
            Err(LevelFault::OutOfMemory)
        } else {
            Err(LevelFault::Json)
        },
    }
}
