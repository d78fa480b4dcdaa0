// Whether two worlds are the same.
ghost use Rattle.std.specs.Prelude.{◌≡◌, ◌≢◌, true, false};

use super::World;
use crate::cell::{Agent, Cell};

fn are_same_cells(cells: &[Cell], others: &[Cell]) -> bool
    ensures same { result ≡ true → cells.now ≡ others.now }
    ensures differs { result ≡ false → cells.now ≢ others.now }
{
    cells == others
}

fn are_same_agents(agents: &[Agent], others: &[Agent]) -> bool
    ensures same { result ≡ true → agents.now ≡ others.now }
    ensures differs { result ≡ false → agents.now ≢ others.now }
{
    agents == others
}

fn are_same_items(items: &[bool], others: &[bool]) -> bool
    ensures same { result ≡ true → items.now ≡ others.now }
    ensures differs { result ≡ false → items.now ≢ others.now }
{
    items == others
}

impl World {
    /// Whether two worlds are the same: their cells, items and agents, wherever they come from. It takes time linear
    /// in the number of cells, and no memory.
    pub fn is_same(&self, other: &World) -> bool
        ensures same { result ≡ true → self.now ≡ other.now }
        ensures differs { result ≡ false → self.now ≢ other.now }
    {
        if self.width() != other.width() || self.height() != other.height() {
            return false;
        }
        if !are_same_agents(&self.crew, &other.crew) {
            return false;
        }
        if !are_same_items(self.has_item.cells(), other.has_item.cells()) {
            return false;
        }
        are_same_cells(self.cells(), other.cells())
    }
}
