// Worlds on one ground.
ghost use Rattle.std.specs.Prelude.{ℕ, ◌≡◌, ◌≢◌, ◌↔◌, IsTrue, true, false, All, IfOk, IfSome, IfNone, length, slice_index_or};
ghost use Rattle.grid_world.specs.declared.cell.Cell.TheVariants.{Wall};
ghost use Rattle.grid_world.specs.Ground.{AreOffWalls, furnished};
ghost use Rattle.grid_world.specs.World.{AreApart, IsStanding, IsWorld};

use super::{World, agent_on};
use crate::cell::{Agent, Cell};
use crate::ground::Ground;
use crate::items::Items;
use std::alloc::{AllocError, Global};
use std::sync::Arc;

// Whether an agent stands on the map, and in no wall.
fn is_standing(ground: &Ground, agent: &Agent) -> bool
    ensures { IsTrue result ↔ IsStanding ground.now agent.now }
{
    match ground.cell(agent.x, agent.y) {
        Some(cell) => cell != Cell::Wall,
        None => false,
    }
}

fn are_standing(ground: &Ground, agents: &[Agent]) -> bool
    ensures standing { result ≡ true → All (IsStanding ground.now) agents.now }
    ensures other { result ≡ false → All (IsStanding ground.now) agents.now → ⊥ }
{
    'agents: for agent in agents {
        if !is_standing(ground, agent) {
            return false;
        }
    }
    true
}

// Whether no two agents stand on one cell.
fn are_apart(agents: &[Agent]) -> bool
    ensures apart { result ≡ true → AreApart agents.now }
    ensures other { result ≡ false → AreApart agents.now → ⊥ }
{
    'agents: for number in 0..agents.len() {
        let agent = agents[number];
        if agent_on(&agents[..number], agent.x, agent.y).is_some() {
            return false;
        }
    }
    true
}

// Whether no item lies in a wall.
fn are_off_walls(cells: &[Cell], items: &[bool]) -> bool
    requires { length items.now ≡ length cells.now }
    ensures off { result ≡ true → AreOffWalls cells.now items.now }
    ensures other { result ≡ false → AreOffWalls cells.now items.now → ⊥ }
{
    'cells: for cell in 0..cells.len() {
        if items[cell] && cells[cell] == Cell::Wall {
            return false;
        }
    }
    true
}

// Whether a ground with these items and agents is a world.
fn is_world(ground: &Ground, items: &[bool], agents: &[Agent]) -> bool
    ensures world { result ≡ true → IsWorld (furnished ground.now items.now agents.now) }
    ensures other { result ≡ false → IsWorld (furnished ground.now items.now agents.now) → ⊥ }
{
    let count = ground.width() * ground.height();
    if items.len() != count as usize || agents.len() > 26 {
        return false;
    }
    if !are_standing(ground, agents) || !are_apart(agents) {
        return false;
    }
    are_off_walls(ground.cells(), items)
}

impl World {
    /// The world of the same ground with these items, told for each cell, row after row, and these agents; none where they
    /// make no world: where the items are not one for each cell, or one lies in a wall, or where more than 26 agents are, or
    /// one stands in a wall or off the map, or two stand on one cell. The ground is shared.
    pub fn furnished(
        &self,
        alloc: Global,
        items: Vec<bool>,
        agents: Vec<Agent>,
    ) -> Result<Option<World>, AllocError>
        ensures world { IfOk result (λ made. IfSome made (λ world. world ≡ furnished self.now items.items agents.items)) }
        ensures other { IfOk result (λ made. IfNone made (IsWorld (furnished self.now items.items agents.items) → ⊥)) }
    {
        if !is_world(&self.ground, &items, &agents) {
            return Ok(None);
        }
        Ok(Some(World {
            ground: Arc::try_clone(&self.ground)?,
            has_item: Items::new(alloc, items)?,
            crew: agents,
        }))
    }
}
