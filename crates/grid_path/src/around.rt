ghost use Rattle.grid_path.specs.Bordered.{IsNext};
ghost use Rattle.grid_path.specs.Levels.{at};
ghost use Rattle.grid_world.specs.Way.{order};
ghost use Rattle.grid_world.specs.declared.cell.Dir.{Dir};
ghost use Rattle.std.specs.Prelude.{◌≡◌, ◌+◌, ◌<◌, ◌≤◌, ℕ, true, false, length, IfSome, IfNone};

use grid_world::Dir;

/// Which of the four cells around a cell are open and not met yet.
#[derive(Clone, Copy)]
pub(crate) struct Around {
    pub(crate) north: bool,
    pub(crate) east: bool,
    pub(crate) south: bool,
    pub(crate) west: bool,
}

impl Around {
    ghost use Rattle.grid_path.specs.Around.{side, is_newly_met};

    pub(crate) fn of(unmet: &[bool], stride: usize, cell: usize) -> Around
        requires above { (1 ≤ stride) × (stride ≤ cell) }
        requires below { cell + stride < length unmet.now }
        ensures { (d : Dir) (j : ℕ) → IsNext stride d cell j → side result d ≡ at unmet.now j }
    {
        Around {
            north: unmet[cell - stride],
            east: unmet[cell + 1],
            south: unmet[cell + stride],
            west: unmet[cell - 1],
        }
    }

    /// The first direction whose cell was not met before, and is met now.
    pub(crate) fn first_met(self, now: Around) -> Option<Dir>
        ensures some { IfSome result (λ d. is_newly_met self now d ≡ true) }
        ensures first { IfSome result (λ d. (e : Dir) → order e < order d → is_newly_met self now e ≡ false) }
        ensures none { IfNone result ((d : Dir) → is_newly_met self now d ≡ false) }
    {
        if self.north && !now.north {
            Some(Dir::North)
        } else if self.east && !now.east {
            Some(Dir::East)
        } else if self.south && !now.south {
            Some(Dir::South)
        } else if self.west && !now.west {
            Some(Dir::West)
        } else {
            None
        }
    }
}
