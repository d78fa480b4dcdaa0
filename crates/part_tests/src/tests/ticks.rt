ghost use Rattle.bt_tick.specs.Views.{IsInWorld};

use bt_nodes::{Status, Tree};
use bt_tick::{Memory, Outcome, Pending, View, begin, resume};
use game_session::Level;
use grid_world::{Answer, Dir, Intent, Signals};
use level_text::read_level;
use std::alloc::Global;

// A question for the way to place 0, or a copy of it.
fn question<'t>(
    alloc: Global,
    pending: Pending<'t, Global, Global>,
    copied: bool,
) -> Option<Pending<'t, Global, Global>> {
    if pending.place().number() != 0 {
        None
    } else if copied {
        pending.copy_in(alloc).ok()
    } else {
        Some(pending)
    }
}

// What a tick comes to by the answer to its question for the way to place 0.
fn answered<'t>(
    alloc: Global,
    pending: Pending<'t, Global, Global>,
    view: &View,
    answer: Answer,
    copied: bool,
) -> Option<Outcome<'t, Global, Global>>
    requires { IsInWorld view.now }
{
    let next = question(alloc, pending, copied)?;
    resume(alloc, next, view, answer).ok()
}

// A whole tick with these answers, cut at each question and then copied, or never copied.
fn whole(
    alloc: Global,
    tree: &Tree<Global>,
    view: &View,
    memory: Memory,
    answers: &[Answer],
    copied: bool,
) -> Option<(Status, Intent, Memory)>
    requires { IsInWorld view.now }
{
    if !memory.fits(tree) {
        return None;
    }
    let mut outcome = begin(alloc, tree, view, memory).ok()?;
    for answer in answers {
        let Outcome::Asks { place: _, pending } = outcome else {
            return None;
        };
        outcome = answered(alloc, pending, view, *answer, copied)?;
    }
    match outcome {
        Outcome::Ended {
            status,
            memory,
            intent,
        } => Some((status, intent, memory)),
        Outcome::Asks { .. } => None,
    }
}

// Whether a memory has these numbers, and no others.
fn has_numbers(memory: &Memory, numbers: &[u64]) -> bool {
    for node in 0..30u64 {
        if memory.at(node) != numbers.get(node as usize).copied() {
            return false;
        }
    }
    true
}

/// A tick with the answers to its questions, what it comes to, and the numbers of the memory then.
#[derive(Clone, Copy)]
struct Ticked<'a> {
    answers: &'a [Answer],
    status: Status,
    intent: Intent,
    numbers: &'a [u64],
}

// The memory after a tick, where it comes to what it should.
fn after(
    alloc: Global,
    tree: &Tree<Global>,
    view: &View,
    memory: Memory,
    tick: &Ticked<'_>,
    copied: bool,
) -> Option<Memory>
    requires { IsInWorld view.now }
{
    let (status, intent, next) = whole(alloc, tree, view, memory, tick.answers, copied)?;
    if (status, intent) == (tick.status, tick.intent) && has_numbers(&next, tick.numbers) {
        Some(next)
    } else {
        None
    }
}

// How many of these ticks of a level's first agent, one after another from a memory of zeros, come to what they should
// before the first that doesn't.
fn right_ticks_of(
    alloc: Global,
    level: &Level,
    copied: bool,
    ticks: &[Ticked<'_>],
) -> Option<usize> {
    let world = level.world();
    if world.agents().is_empty() {
        return None;
    }
    let view = View {
        world,
        signals: Signals::off(),
        agent: 0,
    };
    let tree = level.tree_of(0);
    let mut memory = Memory::zero(alloc, tree).ok()?;
    for (index, tick) in ticks.iter().enumerate() {
        match after(alloc, tree, &view, memory, tick, copied) {
            Some(next) => memory = next,
            None => return Some(index),
        }
    }
    Some(ticks.len())
}

fn right_ticks(alloc: Global, level: &str, copied: bool, ticks: &[Ticked<'_>]) -> Option<usize> {
    let level = read_level(alloc, level.as_bytes()).ok()?;
    right_ticks_of(alloc, &level, copied, ticks)
}

// Whether the memory of zeros of a level's first agent, and a copy of it, has these numbers.
fn zeros_of(alloc: Global, level: &Level, numbers: &[u64]) -> Option<bool> {
    if level.world().agents().is_empty() {
        return None;
    }
    let memory = Memory::zero(alloc, level.tree_of(0)).ok()?;
    let copy = memory.copy(alloc).ok()?;
    Some(has_numbers(&memory, numbers) && has_numbers(&copy, numbers))
}

fn zeros_are(alloc: Global, level: &str, numbers: &[u64]) -> Option<bool> {
    let level = read_level(alloc, level.as_bytes()).ok()?;
    zeros_of(alloc, &level, numbers)
}

const WAIT: &str = r#"{"map":["A"],"agents":["t"],"trees":{"t":["wait",1]}}"#;

#[test]
fn a_wait_counts_its_ticks(rt: HostRuntime) {
    let running = Ticked {
        answers: &[],
        status: Status::Running,
        intent: Intent::Stay,
        numbers: &[1],
    };
    let over = Ticked {
        answers: &[],
        status: Status::Success,
        intent: Intent::Stay,
        numbers: &[0],
    };
    assert!(rt; zeros_are(rt.alloc(), WAIT, &[0]) == Some(true));
    let right = right_ticks(rt.alloc(), WAIT, false, &[running, over]);
    assert!(rt; right == Some(2), "{right:?}");
}

const MOVE: &str = r#"{"map":["A.0"],"agents":["t"],"trees":{"t":["move","0"]}}"#;

#[test]
fn a_move_takes_its_answer(rt: HostRuntime) {
    for (answer, status, intent) in [
        (
            Answer::Step(Dir::East, 2),
            Status::Running,
            Intent::Move(Dir::East),
        ),
        (Answer::NoWay, Status::Failure, Intent::Stay),
        (Answer::Here, Status::Success, Intent::Stay),
    ] {
        let moved = Ticked {
            answers: &[answer],
            status,
            intent,
            numbers: &[0],
        };
        let right = right_ticks(rt.alloc(), MOVE, true, &[moved]);
        assert!(rt; right == Some(1), "{answer:?}");
    }
}

/// A tree with a node of each kind.
const EACH_KIND: &str =
    r#"{"map":["A.0"],"agents":["t"],"trees":{"t":["par",1,["seq",["move","0"],["carrying"]],["fallback",["carrying"],["move","0"]],["seq*",["move","0"],["wait",1]],["fallback*",["move","0"],["take"]],["not",["item"]],["tries",1,["drop"]],["ticks",2,["wait",2]],["at","0"],["signal","a"],["near",3]]}}"#;

const CUT: [Ticked<'static>; 2] = [
    Ticked {
        answers: &[
            Answer::Step(Dir::East, 2),
            Answer::NoWay,
            Answer::Here,
            Answer::Step(Dir::West, 1),
        ],
        status: Status::Success,
        intent: Intent::Move(Dir::East),
        numbers: &[
            0, 0, 0, 0, 0, 0, 0, 1, 0, 1, 0, 0, 0, 0, 0, 1, 0, 1, 1, 0, 0, 0,
        ],
    },
    Ticked {
        answers: &[Answer::Here, Answer::NoWay, Answer::Step(Dir::West, 1)],
        status: Status::Success,
        intent: Intent::Move(Dir::West),
        numbers: &[
            0, 0, 0, 0, 0, 0, 0, 0, 0, 0, 0, 0, 0, 0, 0, 1, 0, 2, 2, 0, 0, 0,
        ],
    },
];

#[test]
fn cut_ticks_are_those_that_are_not_cut(rt: HostRuntime) {
    for copied in [false, true] {
        let right = right_ticks(rt.alloc(), EACH_KIND, copied, &CUT);
        assert!(rt; right == Some(2), "copied {copied}: {right:?}");
    }
}

/// A tree whose ticks pass over nodes: behind a child that fails, before the child at which a `SeqStar` stands, and below
/// a `Tries` and a `Ticks` whose number is reached.
const PASSING: &str =
    r#"{"map":["A"],"agents":["t"],"trees":{"t":["par",1,["seq",["carrying"],["seq",["carrying"],["carrying"]]],["seq*",["not",["carrying"]],["wait",5]],["tries",1,["seq",["carrying"],["carrying"]]],["ticks",1,["not",["wait",5]]],["wait",7]]}}"#;

const PASSED: [Ticked<'static>; 2] = [
    Ticked {
        answers: &[],
        status: Status::Running,
        intent: Intent::Stay,
        numbers: &[0, 0, 0, 0, 0, 0, 1, 0, 0, 1, 1, 0, 0, 0, 1, 0, 1, 1],
    },
    Ticked {
        answers: &[],
        status: Status::Running,
        intent: Intent::Stay,
        numbers: &[0, 0, 0, 0, 0, 0, 1, 0, 0, 2, 1, 0, 0, 0, 0, 0, 1, 2],
    },
];

#[test]
fn nodes_that_are_passed_over_are_counted(rt: HostRuntime) {
    let right = right_ticks(rt.alloc(), PASSING, false, &PASSED);
    assert!(rt; right == Some(2), "{right:?}");
}
