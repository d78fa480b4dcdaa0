//! Breadth-first search from a goal over a table of cells, level by level.
ghost use Rattle.grid_path.specs.Bordered.{IsNext};
ghost use Rattle.grid_path.specs.Levels.{at, IsBeside, Meets, IsFound};
ghost use Rattle.grid_world.specs.declared.cell.Dir.{Dir};
ghost use Rattle.std.specs.Prelude.{◌≡◌, ◌+◌, ◌<◌, ◌≤◌, ◌^◌, ℕ, true, length, count_by, slice_index, slice_set, if◌then◌else◌};

use crate::around::Around;
use grid_world::Answer;

/// Writes a cell behind the end of the queue, where it counts only if it is new. Answers how many cells stand in the queue
/// then.
#[inline]
fn put(queue: &mut [u32], met: usize, cell: usize, is_new: bool) -> usize
    requires number { cell < 2 ^ 32 }
    requires room { met < length queue.old }
    ensures queue { queue.new ≡ slice_set queue.old met cell }
    ensures counts { result ≡ met + (if is_new then 1 else 0) }
{
    queue[met] = cell as u32;
    met + usize::from(is_new)
}

/// Queues a cell that is open and not met yet. Answers how many cells stand in the queue then.
pub(crate) fn meet(unmet: &mut [bool], queue: &mut [u32], met: usize, cell: usize) -> usize
    requires cell { cell < length unmet.old }
    requires number { cell < 2 ^ 32 }
    requires room { met < length queue.old }
    ensures meets { Meets (λ i. i ≡ cell) (at unmet.old) (at unmet.new)
        (slice_index queue.old) (slice_index queue.new) met result }
    ensures counted { count_by (λ c. c) unmet.new + result ≡ count_by (λ c. c) unmet.old + met }
{
    let is_new = unmet[cell];
    unmet[cell] = false;
    put(queue, met, cell, is_new)
}

/// Meets the four cells around a cell.
///
/// It has no branch, and reads all four cells before it writes any: nothing that it reads waits for a write then.
#[inline]
fn expand(unmet: &mut [bool], queue: &mut [u32], stride: usize, met: usize, cell: usize) -> usize
    requires above { (2 ≤ stride) × (stride ≤ cell) }
    requires below { cell + stride < length unmet.old }
    requires numbers { length unmet.old ≤ 2 ^ 32 }
    requires room { count_by (λ c. c) unmet.old + met < length queue.old }
    ensures meets { Meets (λ i. (d : Dir) × IsNext stride d i cell) (at unmet.old) (at unmet.new)
        (slice_index queue.old) (slice_index queue.new) met result }
    ensures counted { count_by (λ c. c) unmet.new + result ≡ count_by (λ c. c) unmet.old + met }
{
    let new = Around::of(unmet, stride, cell);
    unmet[cell - stride] = false;
    unmet[cell + 1] = false;
    unmet[cell + stride] = false;
    unmet[cell - 1] = false;
    let met = put(queue, met, cell - stride, new.north);
    let met = put(queue, met, cell + 1, new.east);
    let met = put(queue, met, cell + stride, new.south);
    put(queue, met, cell - 1, new.west)
}

/// Expands the cells that stand in the queue from `head` on, before `end`.
pub(crate) fn expand_level(
    unmet: &mut [bool],
    queue: &mut [u32],
    stride: usize,
    head: usize,
    end: usize,
) -> usize
    requires order { head ≤ end }
    requires stride { 2 ≤ stride }
    requires inner { (l : ℕ) → head ≤ l → l < end
        → (stride ≤ slice_index queue.old l) × (slice_index queue.old l + stride < length unmet.old) }
    requires numbers { length unmet.old ≤ 2 ^ 32 }
    requires room { count_by (λ c. c) unmet.old + end < length queue.old }
    ensures meets { Meets (IsBeside stride (slice_index queue.old) head end) (at unmet.old) (at unmet.new)
        (slice_index queue.old) (slice_index queue.new) end result }
    ensures counted { count_by (λ c. c) unmet.new + result ≡ count_by (λ c. c) unmet.old + end }
{
    let mut met = end;
    for l in head..end {
        let cell = queue[l] as usize;
        met = expand(unmet, queue, stride, met, cell);
    }
    met
}

/// The first direction on a shortest walk from a cell to the goal, over a table of the open cells.
///
/// It stops at the first level that has a cell next to `from`: all such cells are met by then, and none of them was
/// before. `queue` need not be cleared.
pub(crate) fn search(
    unmet: &mut [bool],
    queue: &mut [u32],
    stride: usize,
    from: usize,
    goal: usize,
) -> Answer
    requires stride { 2 ≤ stride }
    requires inner { (i : ℕ) → at unmet.old i ≡ true → (stride ≤ i) × (i + stride < length unmet.old) }
    requires from { (stride ≤ from) × (from + stride < length unmet.old) }
    requires goal { at unmet.old goal ≡ true }
    requires numbers { length unmet.old < 2 ^ 32 }
    requires room { length queue.old ≡ length unmet.old + 1 }
    ensures { IsFound (at unmet.old) stride goal from result }
{
    let before = Around::of(unmet, stride, from);
    let mut head = 0;
    let mut met = meet(unmet, queue, 0, goal);
    let mut steps = 0;
    while head < met {
        if let Some(dir) = before.first_met(Around::of(unmet, stride, from)) {
            return Answer::Step(dir, steps + 1);
        }
        let end = met;
        met = expand_level(unmet, queue, stride, head, end);
        head = end;
        steps += 1;
    }
    Answer::NoWay
}
