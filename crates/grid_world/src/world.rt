ghost use Rattle.std.specs.Prelude.{IfOk, IfErr, OnOk, ◌⊎◌, ◌≡◌, ◌<◌, ◌&&◌, IfSome, position, Some, None, length, map, option_map, if◌then◌else◌};
ghost use Rattle.grid_world.specs.Grid.{is_on_map, cell_at, place_of, point_of, same_point};
ghost use Rattle.grid_world.specs.Open.{is_open, is_passable};
ghost use Rattle.grid_world.specs.Glyphs.{glyph};
ghost use Rattle.grid_world.specs.World.{IsWorld, point};
ghost use Rattle.grid_world.specs.Ground.{ListsDoors, no_signals};

use crate::cell::{Agent, Cell};
use crate::fault::MapFault;
use crate::glyph::glyph_of;
use crate::ground::Ground;
use crate::items::Items;
use crate::map::{
    agents_in, cells_in, first_width, has_letters, has_size, items_in, marks_in, strange_mark,
};
use crate::place::Place;
use crate::signal::Signals;
use std::alloc::{AllocError, Global};
use std::marker::Model;
use std::sync::Arc;

mod changes;
mod draw;
mod furnish;
mod same;

pub use changes::resolve;

/// A world: its cells, the items that lie on them, and the agents.
///
/// What never changes is shared by all worlds that come from one map, and the table of the cells with an
/// item by worlds that follow one another until it changes; a world of its own holds only its agents.
pub struct World {
    ground: Arc<Ground>,
    has_item: Items,
    crew: Vec<Agent>,
}

impl Drop for World {
    fn drop(self) {
        let Self {
            ground: _,
            has_item: _,
            crew: _,
        } = self;
    }
}

// The number of the agent on a cell.
fn agent_on(agents: &[Agent], x: u32, y: u32) -> Option<usize>
    ensures value { result ≡ position (λ a. same_point (point_of a) (point x y)) agents.now }
    ensures within { IfSome result (λ a. a < length agents.now) }
{
    agents.iter().position(|agent| agent.x == x && agent.y == y)
}

impl Model for World {
    ghost use Rattle.std.specs.Arc.{arc_value};
    ghost use Rattle.grid_world.specs.Grid.{Grid};
    ghost use Rattle.grid_world.specs.Ground.{furnished};
    ghost use Rattle.grid_world.specs.World.{IsWorld};

    ghost Value = { Grid };

    ghost view = { λ w. furnished (arc_value w.ground) w.has_item w.crew.items };

    ghost invariant = { λ w. IsWorld (furnished (arc_value w.ground) w.has_item w.crew.items) };
}

impl World {
    ghost use Rattle.grid_world.specs.Map.{grid_of};
    ghost use Rattle.grid_world.specs.MapFaults.{map_fault, rows_of};
    ghost use Rattle.grid_world.specs.declared.fault.MapFault.TheVariants.{OutOfMemory};

    /// The world of the rows of a map, from the top, or their first fault.
    ///
    /// `#` is a wall, `.` floor, `*` floor with an item, `a` to `z` a door of that signal, `0` to `9` a
    /// place, `A` to `Z` an agent on floor, with empty hands. The characters of a row are Unicode scalar
    /// values. Takes time linear in the number of cells.
    pub fn from_rows(alloc: Global, rows: &[String]) -> Result<World, MapFault>
        ensures ok { IfOk result (λ w. w ≡ grid_of (rows_of rows.now)) }
        ensures faultless { OnOk result (map_fault (rows_of rows.now) ≡ None) }
        ensures err { IfErr result (λ e. (e ≡ OutOfMemory) ⊎ (map_fault (rows_of rows.now) ≡ Some e)) }
    {
        if !has_size(rows) {
            return Err(MapFault::Size);
        }
        let columns = first_width(rows) as u32;
        let marks = marks_in(alloc, rows)?;
        if let Some(i) = strange_mark(&marks) {
            let at = i as u32;
            return Err(MapFault::Char {
                x: at % columns,
                y: at / columns,
            });
        }
        if !has_letters(&marks) {
            return Err(MapFault::Letters);
        }
        let kinds = cells_in(alloc, &marks)?;
        let items = items_in(alloc, &marks)?;
        let crew = agents_in(alloc, columns, &marks)?;
        let ground = Ground::new(alloc, columns, rows.len() as u32, kinds)?;
        let has_item = Items::new(alloc, items)?;
        match Arc::new(alloc, ground) {
            Ok(ground) => Ok(World {
                ground,
                has_item,
                crew,
            }),
            Err(_) => Err(MapFault::OutOfMemory),
        }
    }
}

impl World {
    /// The same world. Its ground and its items are shared, so this costs the agents alone.
    pub fn copy(&self, alloc: Global) -> Result<World, AllocError>
        ensures { IfOk result (λ w. w ≡ self.now) }
    {
        Ok(World {
            ground: Arc::try_clone(&self.ground)?,
            has_item: self.has_item.share()?,
            crew: Vec::from_slice(alloc, &self.crew)?,
        })
    }
}

impl World {
    ghost use Rattle.grid_world.specs.Grid.{has_item};

    /// The number of columns, from 1 to 128.
    pub fn width(&self) -> u32
        ensures value { result ≡ self.now.width }
        ensures world { IsWorld self.now }
    {
        let _ = &self.crew;
        self.ground.width()
    }

    /// The number of rows, from 1 to 128.
    pub fn height(&self) -> u32
        ensures value { result ≡ self.now.height }
        ensures world { IsWorld self.now }
    {
        let _ = &self.crew;
        self.ground.height()
    }

    /// The agents by number, at most 26.
    pub fn agents(&self) -> &[Agent]
        ensures value { result.now ≡ self.now.agents }
        ensures world { IsWorld self.now }
    {
        &self.crew
    }

    /// The ground of a cell; `None` off the map.
    pub fn cell(&self, x: u32, y: u32) -> Option<Cell>
        ensures { result ≡ (if is_on_map self.now (point x y)
            then Some (cell_at self.now (point x y)) else None) }
    {
        self.ground.cell(x, y)
    }

    /// Whether an item lies on a cell; not so off the map. Takes constant time.
    pub fn has_item(&self, x: u32, y: u32) -> bool
        ensures { result ≡ (is_on_map self.now (point x y) && has_item self.now (point x y)) }
    {
        match self.ground.index_of(x, y) {
            Some(i) => self.has_item.cells()[i as usize],
            None => false,
        }
    }

    /// The cell of a place, as its column and its row, if the map has it. Takes constant time.
    pub fn place(&self, place: Place) -> Option<(u32, u32)>
        ensures { option_map (λ cell. point cell.0 cell.1) result ≡ place_of self.now place }
    {
        self.ground.place(place)
    }

    /// Whether a cell can be stepped on under these signals, whoever stands there; not so off the map.
    pub fn is_open(&self, signals: Signals, x: u32, y: u32) -> bool
        ensures { result ≡ is_open self.now signals (point x y) }
    {
        self.ground.is_open(signals, x, y)
    }

    /// The cells, row after row.
    pub fn cells(&self) -> &[Cell]
        ensures { result.now ≡ self.now.cells }
    {
        self.ground.cells()
    }

    /// For each cell, row after row, whether it can be stepped on while all signals are off.
    pub fn floor(&self) -> &[bool]
        ensures { result.now ≡ map (is_passable no_signals) self.now.cells }
    {
        self.ground.floor()
    }

    /// The numbers of the cells with a door, where cells are counted row after row.
    pub fn doors(&self) -> &[u32]
        ensures { ListsDoors result.now self.now.cells }
    {
        self.ground.doors()
    }

    /// The character that a cell is drawn as; `None` off the map.
    pub fn glyph_at(&self, signals: Signals, x: u32, y: u32) -> Option<u8>
        ensures { result ≡ (if is_on_map self.now (point x y)
            then Some (glyph self.now signals (point x y)) else None) }
    {
        match self.cell(x, y) {
            Some(cell) => Some(glyph_of(
                cell,
                agent_on(self.agents(), x, y),
                self.has_item(x, y),
                &signals,
            )),
            None => None,
        }
    }
}
