// What no clause says: in heaps of growing sizes a tick comes nowhere, to its question, and to its end; and what a refused
// growth has ended answers as it should once it is called again.
ghost use Rattle.bt_nodes.specs.Bounds.{Fits};
ghost use Rattle.bt_nodes.specs.Trees.{plain_of};
ghost use Rattle.bt_tick.specs.Views.{IsInWorld};

use super::arenas::{first_view, goes_on, tree, world};
use bt_nodes::Tree;
use bt_tick::{Memory, Outcome, View, begin};
use linked_list_allocator::LocalHeap;
use std::alloc::{Allocator, Global};

// How far a tick came in a heap, where the same tick came to its end in Global.
#[derive(Clone, Copy)]
enum Came {
    Nowhere,
    ToItsQuestion,
    ToItsEnd,
    Otherwise,
}

// Whether the tick comes to its end where nothing is refused.
fn ends(alloc: Global, memory: Memory, tree: &Tree<Global>, view: &View) -> bool
    requires fits { Fits (plain_of tree.now) memory }
    requires agent { IsInWorld view.now }
{
    match begin(alloc, tree, view, memory) {
        Ok(Outcome::Asks { place: _, pending }) => goes_on(alloc, pending, view),
        _ => false,
    }
}

// What is refused is tried again, on copies of what was handed in.
fn ticked<A: Allocator + Clone>(
    heap: A,
    alloc: Global,
    first: Memory,
    second: Memory,
    tree: &Tree<Global>,
    view: &View,
) -> Came
    requires first { Fits (plain_of tree.now) first }
    requires second { Fits (plain_of tree.now) second }
    requires agent { IsInWorld view.now }
{
    let Ok(again) = heap.clone() else {
        return Came::Otherwise;
    };
    let Ok(Outcome::Asks { place: _, pending }) = begin(heap, tree, view, first) else {
        return if ends(alloc, second, tree, view) {
            Came::Nowhere
        } else {
            Came::Otherwise
        };
    };
    let Ok(copy) = pending.copy_in(alloc) else {
        return Came::Otherwise;
    };
    if goes_on(again, pending, view) {
        Came::ToItsEnd
    } else if goes_on(alloc, copy, view) {
        Came::ToItsQuestion
    } else {
        Came::Otherwise
    }
}

// How far the tick comes in a heap of so many bytes.
fn ticked_in(alloc: Global, bytes: usize, tree: &Tree<Global>, view: &View) -> Option<Came>
    requires { IsInWorld view.now }
{
    let first = Memory::zero(alloc, tree).ok()?;
    let second = Memory::zero(alloc, tree).ok()?;
    let heap = LocalHeap::new(alloc, bytes).ok()?;
    Some(ticked(&heap, alloc, first, second, tree, view))
}

// Whether heaps of growing sizes let a tick come nowhere, to its question, to its end, and anywhere else.
fn heaps(alloc: Global) -> Option<[bool; 4]> {
    let (tree, world) = (tree(alloc)?, world(alloc)?);
    let Some(view) = first_view(&world) else {
        return None;
    };
    let mut all = [false; 4];
    for blocks in 1..100usize {
        match ticked_in(alloc, blocks * 32, &tree, &view)? {
            Came::Nowhere => all[0] = true,
            Came::ToItsQuestion => all[1] = true,
            Came::ToItsEnd => all[2] = true,
            Came::Otherwise => all[3] = true,
        }
    }
    Some(all)
}

#[test]
fn a_tick_that_wants_memory_ends_where_it_stands(rt: HostRuntime) {
    assert!(rt; heaps(rt.alloc()) == Some([true, true, true, false]));
}
