// What no clause says: a tick that is copied into an arena goes on there as it does where it was begun.
ghost use Rattle.std.specs.Prelude.{IfSome};
ghost use Rattle.bt_tick.specs.Views.{IsInWorld};

use super::maps::world_of;
use bt_nodes::{Node, Status, Tree};
use bt_tick::{Memory, Outcome, Pending, View, begin, resume};
use bumpalo::Bump;
use grid_world::{Answer, Dir, Intent, Place, Signals, World};
use std::alloc::{Allocator, Global};

pub fn world(alloc: Global) -> Option<World> {
    world_of(alloc, &["A.0"])
}

/// What the world's first agent sees while all signals are off.
pub fn first_view(world: &World) -> Option<View<'_>>
    ensures { IfSome result IsInWorld }
{
    if world.agents().is_empty() {
        return None;
    }
    Some(View {
        world,
        signals: Signals::off(),
        agent: 0,
    })
}

/// It counts its ticks, asks in each, and opens a second chunk of nodes behind the answer.
pub fn tree(alloc: Global) -> Option<Tree<Global>> {
    let place = Place::new(0)?;
    let mut deep = Node::Carrying;
    for _level in 0..10 {
        deep = Node::Not(Box::new(alloc, deep).ok()?);
    }
    let children = vec![in alloc; Node::Move(place), deep].ok()?;
    let child = Box::new(alloc, Node::Par(1, children)).ok()?;
    Tree::new(Node::Ticks(2, child)).ok()
}

/// Whether the tick of this tree ends as it should, answered by a step.
pub fn goes_on<A: Allocator + Clone>(alloc: A, pending: Pending<'_, Global, A>, view: &View) -> bool
    requires { IsInWorld view.now }
{
    match resume(alloc, pending, view, Answer::Step(Dir::East, 2)) {
        Ok(
            Outcome::Ended {
                status: Status::Running,
                memory,
                intent: Intent::Move(Dir::East),
            },
        ) => memory.at(0) == Some(1),
        _ => false,
    }
}

// Whether the tick goes on in an arena, and where it was begun, and whether the arena is empty then.
fn both_go_on(alloc: Global, tree: &Tree<Global>, view: &View) -> Option<[bool; 3]>
    requires { IsInWorld view.now }
{
    let zero = Memory::zero(alloc, tree).ok()?;
    let Ok(Outcome::Asks { place: _, pending }) = begin(alloc, tree, view, zero) else {
        return None;
    };
    let mut arena = Bump::new(alloc);
    let copy = pending.copy_in(&arena).ok()?;
    let there = goes_on(&arena, copy, view);
    let here = goes_on(alloc, pending, view);
    Some([there, here, arena.reset().is_ok()])
}

fn goes_on_in_an_arena(alloc: Global) -> Option<[bool; 3]> {
    let (tree, world) = (tree(alloc)?, world(alloc)?);
    let Some(view) = first_view(&world) else {
        return None;
    };
    both_go_on(alloc, &tree, &view)
}

#[test]
fn a_tick_goes_on_in_an_arena(rt: HostRuntime) {
    assert!(rt; goes_on_in_an_arena(rt.alloc()) == Some([true; 3]));
}
