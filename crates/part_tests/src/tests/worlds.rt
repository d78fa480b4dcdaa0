use super::maps::{only, world_after, world_of};
use grid_world::{Agent, Cell, Dir, Intent, Place, ResolveFault, Signal, Signals, World, resolve};
use std::alloc::Global;

const NORTH: Intent = Intent::Move(Dir::North);

const EAST: Intent = Intent::Move(Dir::East);

const SOUTH: Intent = Intent::Move(Dir::South);

const WEST: Intent = Intent::Move(Dir::West);

// Whether a world is drawn so, with a line feed after each row.
fn is_drawn(alloc: Global, world: &World, signals: Signals, picture: &[u8]) -> bool {
    match world.draw_rows(alloc, signals, 0, world.height()) {
        Ok(drawn) => drawn.as_slice() == picture,
        Err(_) => false,
    }
}

// Whether an item is at a place in the first row, its glyph, and whether it is open.
fn at(world: &World, x: u32) -> (bool, Option<u8>, bool) {
    let off = Signals::off();
    (
        world.has_item(x, 0),
        world.glyph_at(off, x, 0),
        world.is_open(off, x, 0),
    )
}

// Whether a world is an agent with an item beside it.
fn is_agent_and_item(world: &World) -> [bool; 5] {
    let agent = Agent {
        x: 0,
        y: 0,
        carrying: false,
    };
    [
        (world.width(), world.height()) == (2, 1),
        world.agents() == [agent].as_slice(),
        at(world, 0) == (false, Some(b'A'), true),
        at(world, 1) == (true, Some(b'*'), true),
        at(world, 2) == (false, None, false),
    ]
}

// Whether a map of an agent and an item, and a copy of that world, is read as such.
fn readings(alloc: Global) -> Option<[[bool; 5]; 2]> {
    let world = world_of(alloc, &["A*"])?;
    let copy = world.copy(alloc).ok()?;
    Some([is_agent_and_item(&world), is_agent_and_item(&copy)])
}

#[test]
fn reads_a_map(rt: HostRuntime) {
    assert!(rt; readings(rt.alloc()) == Some([[true; 5]; 2]));
}

// Whether the cells of a map, and what is below it, are of these kinds.
fn has_kinds(world: &World, door: Signal, seven: Place) -> bool {
    let kinds = [
        (0, 0, Some(Cell::Wall)),
        (1, 0, Some(Cell::Floor)),
        (2, 0, Some(Cell::Door(door))),
        (0, 1, Some(Cell::Spot(seven))),
        (1, 1, Some(Cell::Floor)),
        (2, 1, Some(Cell::Floor)),
        (0, 2, None),
    ];
    for (x, y, kind) in &kinds {
        if world.cell(*x, *y) != *kind {
            return false;
        }
    }
    true
}

// Whether the kinds of cells, the places, and the door shut and open are what they should be.
fn kinds_of_cells(alloc: Global) -> Option<[bool; 7]> {
    let (door, seven, six) = (Signal::new(2)?, Place::new(7)?, Place::new(6)?);
    let world = world_of(alloc, &["#.c", "7A*"])?;
    Some([
        has_kinds(&world, door, seven),
        world.place(seven) == Some((0, 1)),
        world.place(six).is_none(),
        !world.is_open(Signals::off(), 2, 0),
        world.is_open(only(2), 2, 0),
        is_drawn(alloc, &world, Signals::off(), b"#.c\n7A*\n"),
        is_drawn(alloc, &world, only(2), b"#./\n7A*\n"),
    ])
}

#[test]
fn tells_the_kinds_of_cells(rt: HostRuntime) {
    assert!(rt; kinds_of_cells(rt.alloc()) == Some([true; 7]));
}

// The number of a signal, and whether it is on before it is set, then, and after it is cleared.
fn switched(number: u32) -> Option<(u32, [bool; 3])> {
    let door = Signal::new(number)?;
    let mut signals = Signals::off();
    let before = signals.is_on(door);
    signals.set(door, true);
    let set = signals.is_on(door);
    signals.set(door, false);
    Some((door.number(), [before, set, signals.is_on(door)]))
}

#[test]
fn signals_are_set_and_cleared(rt: HostRuntime) {
    assert!(rt; switched(2) == Some((2, [false, true, false])));
    assert!(rt; switched(26).is_none());
    assert!(rt; Place::new(10).is_none());
}

// Whether a row comes to these rows by the intents of some frames, under one signal or none.
fn comes_to(
    alloc: Global,
    row: &str,
    signals: Signals,
    frames: &[&[Intent]],
    drawn: Signals,
    picture: &[u8],
    carrying: bool,
) -> Option<bool> {
    let world = world_after(alloc, &[row], signals, frames)?;
    match world.agents().first() {
        Some(first) => {
            Some(first.carrying == carrying && is_drawn(alloc, &world, drawn, picture))
        }
        None => None,
    }
}

// A row, whether its door is open, the intents of its agents, and the picture after them.
const APPLIED: [(&str, bool, &[Intent], &[u8]); 12] = [
    ("A.", false, &[EAST], b".A\n"),
    ("A#", false, &[EAST], b"A#\n"),
    ("A", false, &[NORTH], b"A\n"),
    ("A", false, &[SOUTH], b"A\n"),
    ("A", false, &[EAST], b"A\n"),
    ("A", false, &[WEST], b"A\n"),
    ("Aa", false, &[EAST], b"Aa\n"),
    ("Aa", true, &[EAST], b".A\n"),
    ("AB.", false, &[EAST, EAST], b"A.B\n"),
    ("BA.", false, &[EAST, EAST], b".BA\n"),
    ("A.B", false, &[EAST, WEST], b".AB\n"),
    ("A*B", false, &[Intent::Take, Intent::Drop], b"A*B\n"),
];

#[test]
fn applies_intents_in_order(rt: HostRuntime) {
    for (row, open, intents, after) in APPLIED {
        let signals = if open { only(0) } else { Signals::off() };
        let found = comes_to(rt.alloc(), row, signals, &[intents], signals, after, false);
        assert!(rt; found == Some(true), "after {row}");
    }
}

fn refusal(alloc: Global, row: &str, intents: &[Intent]) -> Option<ResolveFault> {
    let world = world_of(alloc, &[row])?;
    resolve(alloc, &world, Signals::off(), intents).err()
}

#[test]
fn wants_an_intent_for_each_agent(rt: HostRuntime) {
    let alloc = rt.alloc();
    assert!(rt; refusal(alloc, "A.", &[]) == Some(ResolveFault::Count));
    assert!(rt; refusal(alloc, "A.", &[Intent::Stay, Intent::Stay]) == Some(ResolveFault::Count));
}

// One agent carries an item onto an open door, and leaves it there.
const CARRIED: [&[Intent]; 9] = [
    &[EAST],
    &[Intent::Take],
    &[Intent::Take],
    &[EAST],
    &[Intent::Drop],
    &[EAST],
    &[Intent::Drop],
    &[Intent::Drop],
    &[WEST],
];

// How many frames, whether the door is open when they are drawn, the picture then, and whether the agent carries.
const CARRIED_TO: [(usize, bool, &[u8], bool); 10] = [
    (1, true, b".A*/\n", false),
    (2, true, b".A*/\n", true),
    (3, true, b".A*/\n", true),
    (4, true, b"..A/\n", true),
    (5, true, b"..A/\n", true),
    (6, true, b"..*A\n", true),
    (7, true, b"..*A\n", false),
    (8, true, b"..*A\n", false),
    (9, true, b"..A*\n", false),
    (9, false, b"..A*\n", false),
];

#[test]
fn carries_an_item(rt: HostRuntime) {
    for (count, open, after, carrying) in CARRIED_TO {
        assert!(rt; count <= CARRIED.len());
        let frames = &CARRIED[..count];
        let drawn = if open { only(0) } else { Signals::off() };
        let found = comes_to(rt.alloc(), "A**a", only(0), frames, drawn, after, carrying);
        assert!(rt; found == Some(true), "after {count}");
    }
}

fn is_same(alloc: Global, row: &str, other: &str) -> Option<bool> {
    let other = world_of(alloc, &[other])?;
    Some(world_of(alloc, &[row])?.is_same(&other))
}

#[test]
fn worlds_differ_in_cells_items_and_agents(rt: HostRuntime) {
    for (other, same) in [
        ("A*.a", true),
        ("A*.b", false),
        ("A.*a", false),
        ("*A.a", false),
        ("A*..", false),
        ("A*.a.", false),
    ] {
        assert!(rt; is_same(rt.alloc(), "A*.a", other) == Some(same), "{other}");
    }
}

// The loads of two agents after these intents: the first one has carried an item to the second one's side and given it.
fn loads_after(alloc: Global, intents: &[Intent]) -> Option<[bool; 2]> {
    let off = Signals::off();
    let mut world = world_of(alloc, &["A*0B"])?;
    for intent in [EAST, Intent::Take, EAST, Intent::Give(1)] {
        world = resolve(alloc, &world, off, &[intent, Intent::Stay]).ok()?;
    }
    let world = resolve(alloc, &world, off, intents).ok()?;
    match world.agents() {
        [a, b] => Some([a.carrying, b.carrying]),
        _ => None,
    }
}

#[test]
fn gives_to_who_stands_beside(rt: HostRuntime) {
    let kept = Some([false, true]);
    let given = Some([true, false]);
    for (intents, loads) in [
        ([Intent::Stay, Intent::Stay], kept),
        ([Intent::Stay, Intent::Give(0)], given),
        ([Intent::Give(1), Intent::Stay], kept),
        ([Intent::Stay, Intent::Give(9)], kept),
        ([Intent::Stay, Intent::Give(1)], kept),
        ([WEST, Intent::Give(0)], kept),
        ([Intent::Give(1), Intent::Give(0)], given),
    ] {
        assert!(rt; loads_after(rt.alloc(), &intents) == loads, "{intents:?}");
    }
}
