ghost use Rattle.grid_path.specs.Bordered.{number_of};
ghost use Rattle.grid_world.specs.Grid.{is_on_map, place_of};
ghost use Rattle.grid_world.specs.Way.{way};
ghost use Rattle.grid_world.specs.World.{point};
ghost use Rattle.std.specs.Prelude.{◌≡◌, ◌<◌, ◌↔◌, ◌⊎◌, true, false, IfOk, Some, None};

use crate::path_fault::PathFault;
use crate::search::search;
use crate::table::open_cells;
use grid_world::{Answer, Place, Signals, World};
use std::alloc::Allocator;

/// The way from a cell to a place: whether it is there, and else the first direction on a shortest walk and the number of
/// its steps. The cell itself need not be open, and agents are no hindrance.
///
/// `OffMap` is looked at first; the answer `Here` takes no memory. Else the search takes two blocks of memory, for a table
/// and a queue with an entry for each cell of the map and of a border, and a time that grows with the size of the map.
pub fn ask<A: Allocator + Clone>(
    alloc: A,
    world: &World,
    signals: Signals,
    from: (u32, u32),
    place: Place,
) -> Result<Answer, PathFault>
    ensures way { IfOk result (λ answer. answer ≡ way world.now signals (point from.0 from.1) place) }
    ensures off_map { (result ≡ Err PathFault.OffMap)
        ↔ ((is_on_map world.now (point from.0 from.1) ≡ false) ⊎ (place_of world.now place ≡ None)) }
    ensures here { is_on_map world.now (point from.0 from.1) ≡ true
        → place_of world.now place ≡ Some (point from.0 from.1) → result ≡ Ok Answer.Here }
{
    if from.0 >= world.width() || from.1 >= world.height() {
        return Err(PathFault::OffMap);
    }
    let Some(goal) = world.place(place) else {
        return Err(PathFault::OffMap);
    };
    if goal == from {
        return Ok(Answer::Here);
    }
    let mut unmet = open_cells(alloc.clone()?, world, signals)?;
    let mut queue = Vec::from_elem(alloc, 0, unmet.len() + 1)?;
    Ok(search(
        &mut unmet,
        &mut queue,
        world.width() as usize + 2,
        number_of(world, from),
        number_of(world, goal),
    ))
}

// The number of a cell in the table.
pub(crate) fn number_of(world: &World, cell: (u32, u32)) -> usize
    requires { (cell.0 < world.now.width) × (cell.1 < world.now.height) }
    ensures { result ≡ number_of world.now (point cell.0 cell.1) }
{
    (cell.1 as usize + 1) * (world.width() as usize + 2) + cell.0 as usize + 1
}
