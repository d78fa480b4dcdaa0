//! The distances to a place, which are found once and then answer each question for it.
ghost use Rattle.grid_path.specs.Distances.{AreDistances};
ghost use Rattle.grid_world.specs.Grid.{is_on_map, place_of};
ghost use Rattle.grid_world.specs.Way.{way};
ghost use Rattle.grid_world.specs.World.{point};
ghost use Rattle.std.specs.Prelude.{◌≡◌, ◌+◌, ◌*◌, ◌↔◌, Bool, List, true, IfOk, None, length};

use crate::marks::{measure, nearest};
use crate::path_fault::PathFault;
use crate::question::number_of;
use crate::table::open_cells;
use grid_world::{Answer, Place, Signals, World};
use std::alloc::{Allocator, Global};
use std::marker::Model;

/// For each cell of a map, and of a border around it, one more than the least number of steps from there to a place, or 0
/// where the cell is not open or no walk leads there. They are seen as these numbers, row after row.
pub struct Distances {
    marks: Vec<u16>,
}

impl Drop for Distances {
    fn drop(self) {
        let Self { marks: _ } = self;
    }
}

impl Model for Distances {
    ghost use Rattle.std.specs.Prelude.{List, ℕ};

    ghost Value = { List ℕ };

    ghost view = { λ d. d.marks.items };
}

impl Distances {
    /// The distances to a place of the map while the doors of these signals are open; `OffMap` where it has no such place.
    ///
    /// One search over all cells from which a walk leads there. It takes one block of memory from `alloc`, two bytes for
    /// each cell, and two from `scratch`, which it gives back.
    pub fn to<A: Allocator + Clone>(
        alloc: Global,
        scratch: A,
        world: &World,
        signals: Signals,
        place: Place,
    ) -> Result<Distances, PathFault>
        ensures distances { IfOk result (λ d. AreDistances world.now signals place d) }
        ensures off_map { (result ≡ Err PathFault.OffMap) ↔ (place_of world.now place ≡ None) }
    {
        let Some(goal) = world.place(place) else {
            return Err(PathFault::OffMap);
        };
        let mut unmet = open_cells(scratch.clone()?, world, signals)?;
        let mut queue = Vec::from_elem(scratch, 0, unmet.len() + 1)?;
        let mut marks = Vec::from_elem(alloc, 0, unmet.len())?;
        measure(
            &mut unmet,
            &mut queue,
            &mut marks,
            world.width() as usize + 2,
            number_of(world, goal),
        );
        Ok(Distances { marks })
    }

    /// The way from a cell of the map to the place, by the marks of the four cells around it. Under all signals for which
    /// these are the distances of the map to that place it is the same.
    pub fn way(&self, world: &World, place: Place, from: (u32, u32)) -> Answer
        requires long { length self.now ≡ (world.now.height + 2) * (world.now.width + 2) }
        requires from { is_on_map world.now (point from.0 from.1) ≡ true }
        ensures { (on : List Bool) → AreDistances world.now on place self.now
            → result ≡ way world.now on (point from.0 from.1) place }
    {
        let Some(goal) = world.place(place) else {
            return Answer::NoWay;
        };
        if goal == from {
            return Answer::Here;
        }
        nearest(
            &self.marks,
            world.width() as usize + 2,
            number_of(world, from),
        )
    }
}
