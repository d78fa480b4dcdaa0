// What the nodes of a tree answer, frame by frame. What is expected was found by hand.
use bt_nodes::Status;
use bt_nodes::Status::{Failure, Running, Success};
use game_session::Script;
use level_text::read_level;
use std::alloc::Global;
use stepping::{Stepping, signals_of, step_by};

const LEVEL: &str =
    "{\"map\":[\"A.0\"],\"agents\":[\"t\"],\"trees\":{\"t\":[\"seq*\",[\"signal\",\"a\"],[\"move\",\"0\"],[\"wait\",1]]}}";

const OFF: u32 = 0;

const A: u32 = 1;

// A tree of four nodes: a seq*, and its signal, its move and its wait.
type Nodes = [Option<Status>; 4];

fn opened(alloc: Global) -> Option<Stepping> {
    let level = read_level(alloc, LEVEL.as_bytes()).ok()?;
    Stepping::open(alloc, level, Script::empty(alloc)).ok()
}

// A seq* that fails with its condition, and one that ticks its move.
const FAILED: Nodes = [Some(Failure), Some(Failure), None, None];

const BEGUN: Nodes = [Some(Running), Some(Success), Some(Running), None];

// One that goes on with its move, that comes from it to its wait, and that ends with it.
const GOING: Nodes = [Some(Running), None, Some(Running), None];

const THERE: Nodes = [Some(Running), None, Some(Success), Some(Running)];

const WAITED: Nodes = [Some(Success), None, None, Some(Success)];

// Whether the first agent's nodes will answer this.
fn is_answer(alloc: Global, game: &Stepping, mask: u32, nodes: &Nodes) -> Option<bool> {
    if game.memories().is_empty() {
        return None;
    }
    let told = game.node_answers(alloc, signals_of(mask), 0).ok()?;
    Some(told.as_slice() == nodes.as_slice())
}

// A frame on, with these signals.
fn step(alloc: Global, game: &mut Stepping, mask: u32) -> Option<()> {
    if game.frame() > 9 {
        return None;
    }
    step_by(game, alloc, signals_of(mask)).ok()
}

// A seq* begins with its condition, and fails with it.
fn at_first(alloc: Global) -> Option<bool> {
    let game = opened(alloc)?;
    let off = is_answer(alloc, &game, OFF, &FAILED)?;
    let on = is_answer(alloc, &game, A, &BEGUN)?;
    Some(off && on)
}

// It goes on with the move, where it no longer asks for the signal, and then waits.
fn on_the_way(alloc: Global) -> Option<bool> {
    let mut game = opened(alloc)?;
    step(alloc, &mut game, A)?;
    let going = is_answer(alloc, &game, OFF, &GOING)?;
    step(alloc, &mut game, OFF)?;
    let there = is_answer(alloc, &game, OFF, &THERE)?;
    step(alloc, &mut game, OFF)?;
    let waited = is_answer(alloc, &game, OFF, &WAITED)?;
    Some(going && there && waited)
}

#[test]
fn each_node_answers(rt: HostRuntime) {
    assert!(rt; at_first(rt.alloc()) == Some(true));
    assert!(rt; on_the_way(rt.alloc()) == Some(true));
}
