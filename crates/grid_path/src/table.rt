//! The table that a search begins with.
ghost use Rattle.grid_path.specs.Bordered.{IsTable, open_row};
ghost use Rattle.grid_world.specs.Ground.{no_signals};
ghost use Rattle.std.specs.Prelude.{◌≡◌, ◌++◌, ◌<◌, false, IfOk, OnOk, replicate};

use grid_world::{Signals, World};
use std::alloc::{AllocError, Allocator};

// Appends cells that are not open.
fn push_border<A: Allocator>(table: &mut Vec<bool, A>, count: usize) -> Result<(), AllocError>
    ensures { OnOk result (table.new.items ≡ table.old.items ++ replicate count false) }
{
    for _ in 0..count {
        table.push(false)?;
    }
    Ok(())
}

// Appends the cells of a row of the map, with all doors shut.
fn push_row<A: Allocator>(table: &mut Vec<bool, A>, world: &World, y: u32) -> Result<(), AllocError>
    requires { y < world.now.height }
    ensures { OnOk result (table.new.items ≡ table.old.items ++ open_row world.now no_signals y) }
{
    let width = world.width() as usize;
    let start = y as usize * width;
    let row = &world.floor()[start..start + width];
    table.extend_from_slice(row)
}

// Opens the doors whose signal is on.
fn open_doors(table: &mut [bool], world: &World, signals: Signals)
    requires { IsTable world.now no_signals table.old }
    ensures { IsTable world.now signals table.new }
{
    let width = world.width();
    for door in world.doors() {
        let x = *door % width;
        let y = *door / width;
        let number = (y as usize + 1) * (width as usize + 2) + x as usize + 1;
        table[number] = world.is_open(signals, x, y);
    }
}

/// The open cells of a map and, around it, a border of cells that are not open: one `bool` for each cell, row after row.
pub(crate) fn open_cells<A: Allocator>(
    alloc: A,
    world: &World,
    signals: Signals,
) -> Result<Vec<bool, A>, AllocError>
    ensures { IfOk result (λ table. IsTable world.now signals table.items) }
{
    let stride = world.width() as usize + 2;
    let mut table = Vec::with_capacity(alloc, (world.height() as usize + 2) * stride)?;
    push_border(&mut table, stride)?;
    for y in 0..world.height() {
        table.push(false)?;
        push_row(&mut table, world, y)?;
        table.push(false)?;
    }
    push_border(&mut table, stride)?;
    open_doors(&mut table, world, signals);
    Ok(table)
}
