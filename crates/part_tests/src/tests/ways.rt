//! Questions with known answers, and a search compared with numbers of steps that are found another way.
use super::maps::{only, world_of};
use grid_path::{PathFault, ask};
use grid_world::{Answer, Dir, Place, Signals, World};
use linked_list_allocator::LocalHeap;
use std::alloc::Global;

// What is answered on these rows.
fn answer(
    alloc: Global,
    rows: &[&str],
    from: (u32, u32),
    number: u32,
) -> Option<Result<Answer, PathFault>> {
    let place = Place::new(number)?;
    let world = world_of(alloc, rows)?;
    Some(ask(alloc, &world, Signals::off(), from, place))
}

#[test]
fn answers(rt: HostRuntime) {
    let walled: &[&str] = &["A#0"];
    let shut: &[&str] = &["Aa0"];
    let ring: &[&str] = &["...", "A#0", "..."];
    let cases: [(&[&str], (u32, u32), u32, Result<Answer, PathFault>); 9] = [
        (&["A.", ".0"], (0, 0), 0, Ok(Answer::Step(Dir::East, 2))),
        (walled, (0, 0), 0, Ok(Answer::NoWay)),
        (walled, (2, 0), 0, Ok(Answer::Here)),
        (walled, (9, 9), 0, Err(PathFault::OffMap)),
        (walled, (0, 0), 1, Err(PathFault::OffMap)),
        (shut, (1, 0), 0, Ok(Answer::Step(Dir::East, 1))),
        (shut, (0, 0), 0, Ok(Answer::NoWay)),
        // two equal ways
        (ring, (0, 1), 0, Ok(Answer::Step(Dir::North, 4))),
        (ring, (1, 2), 0, Ok(Answer::Step(Dir::East, 2))),
    ];
    for (rows, from, number, want) in cases {
        let found = answer(rt.alloc(), rows, from, number);
        assert!(rt; found == Some(want), "{rows:?} from {from:?} to {number}");
    }
}

// What is answered in a row of three cells from the first, from the place in the last and from beside the map, over one heap of so many bytes.
fn answers_in(alloc: Global, bytes: usize) -> Option<[Result<Answer, PathFault>; 3]> {
    let place = Place::new(0)?;
    let heap = LocalHeap::new(alloc, bytes).ok()?;
    let row = world_of(alloc, &["A.0"])?;
    Some([
        ask(&heap, &row, Signals::off(), (0, 0), place),
        ask(&heap, &row, Signals::off(), (2, 0), place),
        ask(&heap, &row, Signals::off(), (3, 0), place),
    ])
}

// A heap of 48 bytes has room for the table of 15 cells, and none for the queue.
#[test]
fn refused_memory(rt: HostRuntime) {
    for (bytes, first) in [
        (16, Err(PathFault::OutOfMemory)),
        (48, Err(PathFault::OutOfMemory)),
        (4096, Ok(Answer::Step(Dir::East, 2))),
    ] {
        let want = [first, Ok(Answer::Here), Err(PathFault::OffMap)];
        assert!(rt;
            answers_in(rt.alloc(), bytes) == Some(want),
            "{bytes} bytes"
        );
    }
}

const MAZE: [&str; 7] = [
    ".#.....#....",
    ".#.###.#.##.",
    "...#A..#..#.",
    "##.#####b##.",
    "0..a.....#..",
    ".###.###.#.#",
    ".....#1#....",
];

const DIRECTIONS: [Dir; 4] = [Dir::North, Dir::East, Dir::South, Dir::West];

fn beside(direction: Dir, x: u32, y: u32) -> (u32, u32) {
    match direction {
        Dir::North => (x, y.wrapping_sub(1)),
        Dir::East => (x.wrapping_add(1), y),
        Dir::South => (x, y.wrapping_add(1)),
        Dir::West => (x.wrapping_sub(1), y),
    }
}

fn steps_at(steps: &[u32], x: u32, y: u32) -> u32 {
    if x < 12 && y < 7 {
        steps
            .get(y as usize * 12 + x as usize)
            .copied()
            .unwrap_or(u32::MAX)
    } else {
        u32::MAX
    }
}

// One more than the fewest steps of an open neighbour.
fn next_steps(maze: &World, signals: Signals, steps: &[u32], x: u32, y: u32) -> u32 {
    let mut least = u32::MAX;
    for direction in DIRECTIONS {
        let (column, row) = beside(direction, x, y);
        if maze.is_open(signals, column, row) {
            least = least.min(steps_at(steps, column, row).saturating_add(1));
        }
    }
    least
}

// The steps from each cell of the maze to a goal: each is lowered to one more than an open neighbour's, over and over.
fn relaxed(maze: &World, signals: Signals, goal: (u32, u32)) -> [u32; 84] {
    let mut steps = [u32::MAX; 84];
    for _ in 0..84 {
        for y in 0..7u32 {
            for x in 0..12u32 {
                let least = if (x, y) == goal {
                    0
                } else {
                    next_steps(maze, signals, &steps, x, y)
                };
                let cell = y as usize * 12 + x as usize;
                steps[cell] = least.min(steps[cell]);
            }
        }
    }
    steps
}

fn wanted(maze: &World, signals: Signals, steps: &[u32], x: u32, y: u32) -> Answer {
    let here = steps_at(steps, x, y);
    if here == 0 {
        return Answer::Here;
    }
    if here == u32::MAX {
        return Answer::NoWay;
    }
    for direction in DIRECTIONS {
        let (column, row) = beside(direction, x, y);
        if maze.is_open(signals, column, row)
            && steps_at(steps, column, row).saturating_add(1) == here
        {
            return Answer::Step(direction, here);
        }
    }
    Answer::NoWay
}

// From how many cells of the maze the answer is the one that the numbers of steps give.
fn right_answers(alloc: Global, signals: Signals, number: u32) -> Option<u32> {
    let place = Place::new(number)?;
    let maze = world_of(alloc, &MAZE)?;
    let steps = relaxed(&maze, signals, maze.place(place)?);
    let mut right = 0u32;
    for y in 0..7u32 {
        for x in 0..12u32 {
            let answer = ask(alloc, &maze, signals, (x, y), place);
            if answer == Ok(wanted(&maze, signals, &steps, x, y)) {
                right = right.saturating_add(1);
            }
        }
    }
    Some(right)
}

#[test]
fn each_cell_of_a_maze(rt: HostRuntime) {
    for number in 0..2 {
        for signals in [Signals::off(), only(0)] {
            let right = right_answers(rt.alloc(), signals, number);
            assert!(rt; right == Some(84), "{right:?} to {number}");
        }
    }
}
