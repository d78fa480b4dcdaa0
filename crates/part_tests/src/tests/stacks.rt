ghost use Rattle.std.specs.Prelude.{◌<◌};

use bt_nodes::Node;
use bumpalo::Bump;
use fiber_stack::{Frame, Pile, Stack};
use linked_list_allocator::LocalHeap;
use std::alloc::{Allocator, Global};

// A stack of so many frames of a node, numbered from the bottom, modulo 2^16.
fn stacked(alloc: Global, node: &Node<Global>, count: u64) -> Option<Stack<'_, Global, Global>> {
    let mut stack = Stack::empty(alloc);
    for number in 0..count {
        let frame = Frame {
            node,
            number: (number & 0xffff) as u16,
            next: 1,
            successes: 2,
            failures: 3,
        };
        if stack.depth() == u32::MAX || stack.push(frame).is_err() {
            return None;
        }
    }
    Some(stack)
}

// The numbers of the frame that is taken off.
fn popped<A: Allocator>(stack: &mut Stack<'_, Global, A>) -> Option<[u16; 4]> {
    let top = stack.pop()?;
    if !matches!(top.node, Node::Wait(1)) {
        return None;
    }
    Some([top.number, top.next, top.successes, top.failures])
}

// Whether these frames, and no others, are on top and taken off in order.
fn pops_frames<A: Allocator>(stack: &mut Stack<'_, Global, A>, numbers: &[u16]) -> bool {
    for number in numbers {
        let top = stack.top().map(|frame| frame.number);
        if top != Some(*number) || popped(stack) != Some([*number, 1, 2, 3]) {
            return false;
        }
    }
    stack.top().is_none() && popped(stack).is_none()
}

// How deep a stack's copy in an arena is, and whether it has these frames.
fn copied_into_an_arena(
    alloc: Global,
    stack: &Stack<'_, Global, Global>,
    numbers: &[u16],
) -> Option<(u32, bool)> {
    let arena = Bump::new(alloc);
    let mut copy = stack.copy_in(&arena).ok()?;
    let depth = copy.depth();
    Some((depth, pops_frames(&mut copy, numbers)))
}

// The same of the copy of a stack of so many frames, and then of the stack itself.
fn frames_twice(alloc: Global, count: u64, numbers: &[u16]) -> Option<[(u32, bool); 2]> {
    let node = Node::Wait(1);
    let mut stack = stacked(alloc, &node, count)?;
    let copy = copied_into_an_arena(alloc, &stack, numbers)?;
    let depth = stack.depth();
    Some([copy, (depth, pops_frames(&mut stack, numbers))])
}

// Depths, and the numbers of the frames from the top.
const STACKS: [(u32, &[u16]); 3] = [(0, &[]), (2, &[1, 0]), (9, &[8, 7, 6, 5, 4, 3, 2, 1, 0])];

#[test]
fn frames_are_copied_into_an_arena(rt: HostRuntime) {
    for (depth, numbers) in STACKS {
        let found = frames_twice(rt.alloc(), u64::from(depth), numbers);
        assert!(rt; found == Some([(depth, true); 2]), "{depth} frames");
    }
}

// Takes all that is left of a heap.
fn fill<'a>(alloc: Global, heap: &'a LocalHeap) -> Option<Vec<Box<[u64; 2], &'a LocalHeap>>> {
    let mut all = Vec::with_capacity(alloc, 64).ok()?;
    for _ in 0..64u32 {
        match Box::new(heap, [0u64; 2]) {
            Ok(block) => all.push(block).ok()?,
            Err(_) => break,
        }
    }
    Some(all)
}

// Pushes the numbers from one on up to another, or up to the first that has no room.
fn push_from<A: Allocator + Clone>(pile: &mut Pile<u64, A>, from: u64, to: u64) -> Result<(), u64> {
    for number in from..to {
        if pile.depth() == u32::MAX {
            return Err(number);
        }
        pile.push(number)?;
    }
    Ok(())
}

// Whether these numbers, and no others, are taken off in order.
fn pops<A: Allocator>(pile: &mut Pile<u64, A>, numbers: &[u64]) -> bool {
    for number in numbers {
        if pile.pop() != Some(*number) {
            return false;
        }
    }
    pile.pop().is_none()
}

// Whether the numbers below this one, and no others, are taken off, the greatest first.
fn pops_down<A: Allocator>(pile: &mut Pile<u64, A>, count: u64) -> bool {
    for number in (0..count).rev() {
        if pile.pop() != Some(number) {
            return false;
        }
    }
    pile.pop().is_none()
}

// Fills so many chunks, takes all memory that is left, and says whether a push is refused then and changes nothing, and whether
// a copy is refused; then, with memory for one chunk more, whether eight pushes have room and the next has none, and whether
// all is taken off.
fn fills_chunks(alloc: Global, chunks: u64) -> Option<[bool; 5]>
    requires { chunks < 4 }
{
    let heap = LocalHeap::new(alloc, 1_000).ok()?;
    let mut pile = Pile::empty(&heap);
    let depth = 8 * chunks;
    push_from(&mut pile, 0, depth).ok()?;
    let filled = fill(alloc, &heap)?;
    let refused = push_from(&mut pile, depth, depth + 1) == Err(depth);
    let unchanged = pile.depth() as u64 == depth && pile.top().copied() == depth.checked_sub(1);
    let not_copied = pile.copy_in(&heap).is_err();
    drop(filled);
    let first = push_from(&mut pile, depth, depth + 1);
    let filled = fill(alloc, &heap)?;
    let others = push_from(&mut pile, depth + 1, depth + 8);
    let ninth = push_from(&mut pile, depth + 8, depth + 9);
    drop(filled);
    Some([
        refused && unchanged,
        not_copied,
        first.is_ok() && others.is_ok(),
        ninth == Err(depth + 8),
        pops_down(&mut pile, depth + 8),
    ])
}

// Of an empty stack alone a copy takes no memory.
#[test]
fn each_growth_of_a_stack_is_refused(rt: HostRuntime) {
    for chunks in 0..4u64 {
        let found = fills_chunks(rt.alloc(), chunks);
        assert!(rt;
            found == Some([true, chunks > 0, true, true, true]),
            "{chunks} chunks"
        );
    }
}

// What is replaced on top of nothing and of 1 and 2, and whether those that are there then are taken off.
fn replaced(alloc: Global) -> Option<([Option<u64>; 2], u32, bool)> {
    let mut pile = Pile::empty(alloc);
    let none = pile.replace_top(7);
    push_from(&mut pile, 1, 3).ok()?;
    let two = pile.replace_top(3);
    Some(([none, two], pile.depth(), pops(&mut pile, &[3, 1])))
}

#[test]
fn the_top_is_replaced(rt: HostRuntime) {
    assert!(rt; replaced(rt.alloc()) == Some(([None, Some(2)], 2, true)));
}

// How deep a copy of a stack is, and the numbers of its uppermost frame.
fn top_of_copy(alloc: Global, stack: &Stack<'_, Global, Global>) -> Option<(u32, [u16; 4])> {
    let mut copy = stack.copy_in(alloc).ok()?;
    let depth = copy.depth();
    Some((depth, popped(&mut copy)?))
}

// The same of a stack of so many frames, and how deep that is.
fn copied(alloc: Global, count: u64) -> Option<((u32, [u16; 4]), u32)> {
    let node = Node::Wait(1);
    let stack = stacked(alloc, &node, count)?;
    let top = top_of_copy(alloc, &stack)?;
    Some((top, stack.depth()))
}

// Neither the copy nor the two drops at the end may nest a call for each frame.
#[test]
fn a_hundred_thousand_frames(rt: HostRuntime) {
    let top = (100_000, [34_463, 1, 2, 3]);
    assert!(rt; copied(rt.alloc(), 100_000) == Some((top, 100_000)));
}
