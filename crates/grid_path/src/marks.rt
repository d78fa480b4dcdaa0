ghost use Rattle.grid_path.specs.Bordered.{IsNext};
ghost use Rattle.grid_path.specs.Distances.{IsLeast, IsMeasured, mark_in};
ghost use Rattle.grid_path.specs.Levels.{at, IsFound};
ghost use Rattle.grid_world.specs.Way.{order};
ghost use Rattle.grid_world.specs.declared.cell.Dir.{Dir};
ghost use Rattle.std.specs.Prelude.{◌≡◌, ◌≢◌, ◌⊎◌, ◌+◌, ◌<◌, ◌≤◌, ◌^◌, ℕ, Bool, true, length, slice_index, replicate};

use crate::search::{expand_level, meet};
use grid_world::{Answer, Dir};

/// The marks of the four cells around a cell.
#[derive(Clone, Copy)]
pub(crate) struct Marks {
    north: u16,
    east: u16,
    south: u16,
    west: u16,
}

// The lesser of two marks, where 0 is none.
fn nearer(a: u16, b: u16) -> u16
    ensures one { (result ≡ a) ⊎ (result ≡ b) }
    ensures none { result ≡ 0 → (a ≡ 0) × (b ≡ 0) }
    ensures first { a ≢ 0 → result ≤ a }
    ensures second { b ≢ 0 → result ≤ b }
{
    if a == 0 {
        b
    } else if b == 0 || a < b {
        a
    } else {
        b
    }
}

impl Marks {
    fn of(marks: &[u16], stride: usize, cell: usize) -> Marks
        requires above { (1 ≤ stride) × (stride ≤ cell) }
        requires below { cell + stride < length marks.now }
        ensures { (d : Dir) (j : ℕ) → IsNext stride d cell j → mark_in result d ≡ slice_index marks.now j }
    {
        Marks {
            north: marks[cell - stride],
            east: marks[cell + 1],
            south: marks[cell + stride],
            west: marks[cell - 1],
        }
    }

    fn least(self) -> u16
        ensures { IsLeast (mark_in self) result }
    {
        let vertical = nearer(self.north, self.south);
        let level = nearer(self.east, self.west);
        nearer(vertical, level)
    }

    // The first direction with a mark that one of them has.
    fn first_with(self, mark: u16) -> Dir
        requires { (d : Dir) × (mark_in self d ≡ mark) }
        ensures has { mark_in self result ≡ mark }
        ensures first { (e : Dir) → order e < order result → mark_in self e ≢ mark }
    {
        if self.north == mark {
            Dir::North
        } else if self.east == mark {
            Dir::East
        } else if self.south == mark {
            Dir::South
        } else {
            Dir::West
        }
    }
}

/// The first direction on a shortest walk from a cell, by the marks of all cells.
pub(crate) fn nearest(marks: &[u16], stride: usize, from: usize) -> Answer
    requires above { (1 ≤ stride) × (stride ≤ from) }
    requires below { from + stride < length marks.now }
    ensures { (open_at : ℕ → Bool) (goal : ℕ) → IsMeasured open_at stride goal (slice_index marks.now)
        → IsFound open_at stride goal from result }
{
    let around = Marks::of(marks, stride, from);
    let least = around.least();
    if least == 0 {
        return Answer::NoWay;
    }
    Answer::Step(around.first_with(least), u32::from(least))
}

// Marks the cells that stand in the queue from `head` on, before `end`.
fn mark_level(marks: &mut [u16], queue: &[u32], head: usize, end: usize, mark: u16)
    requires order { head ≤ end }
    requires room { end ≤ length queue.now }
    requires inner { (l : ℕ) → head ≤ l → l < end → slice_index queue.now l < length marks.old }
    ensures marked { (l : ℕ) → head ≤ l → l < end → slice_index marks.new (slice_index queue.now l) ≡ mark }
    ensures kept { (i : ℕ) → ((l : ℕ) → head ≤ l → l < end → slice_index queue.now l ≢ i)
        → slice_index marks.new i ≡ slice_index marks.old i }
    ensures long { length marks.new ≡ length marks.old }
{
    'cells: for l in head..end {
        marks[queue[l] as usize] = mark;
    }
}

/// Marks each open cell from which a walk leads to the goal with one more than the least number of its steps.
pub(crate) fn measure(
    unmet: &mut [bool],
    queue: &mut [u32],
    marks: &mut [u16],
    stride: usize,
    goal: usize,
)
    requires stride { 2 ≤ stride }
    requires inner { (i : ℕ) → at unmet.old i ≡ true → (stride ≤ i) × (i + stride < length unmet.old) }
    requires goal { at unmet.old goal ≡ true }
    requires numbers { length unmet.old < 2 ^ 16 }
    requires room { length queue.old ≡ length unmet.old + 1 }
    requires unmarked { marks.old ≡ replicate (length unmet.old) 0 }
    ensures measured { IsMeasured (at unmet.old) stride goal (slice_index marks.new) }
    ensures long { length marks.new ≡ length marks.old }
{
    let mut head = 0;
    let mut met = meet(unmet, queue, 0, goal);
    let mut steps = 0u16;
    'levels: while head < met {
        let end = met;
        mark_level(marks, queue, head, end, steps + 1);
        met = expand_level(unmet, queue, stride, head, end);
        head = end;
        steps += 1;
    }
}
