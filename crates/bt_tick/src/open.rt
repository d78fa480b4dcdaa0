// How a machine opens a node.

ghost use Rattle.std.specs.Prelude.{◌≡◌, ◌<◌, ◌≤◌, ◌+◌, ◌-◌, ◌*◌, length, IfOk};
ghost use Rattle.bt_nodes.specs.Plain.{plain, plains, none, tree};
ghost use Rattle.bt_nodes.specs.Sizes.{size};
ghost use Rattle.game_rules.specs.View.{View};
ghost use Rattle.game_rules.specs.Tick.{tick};
ghost use Rattle.bt_tick.specs.Children.{children_of};
ghost use Rattle.bt_tick.specs.Kinds.{HasList, IsStarOf};
ghost use Rattle.bt_tick.specs.Suspended.{close};
ghost use Rattle.bt_tick.specs.Places.{Sits, Standing, Nested, Resting, weight_of, weight_all};
ghost use Rattle.bt_tick.specs.Machine.{opened, opens, rest_of, Keeps, whole_of, Placed, weight};

use crate::machine::{Machine, Mode};
use bt_nodes::Node;
use fiber_stack::Frame;
use std::alloc::{AllocError, Allocator};

impl<'t, T: Allocator, A: Allocator + Clone> Machine<'t, T, A> {
    // Opens a node that lists children, and begins the one that the frame names next, which has the number `at`.
    #[inline(always)]
    pub(crate) fn open_list(
        &mut self,
        frame: Frame<'t, T>,
        at: u64,
    ) -> Result<Mode<'t, T>, AllocError>
        requires rests { Resting (whole_of self.old) at (opened frame) (opens self.old.stack) }
        requires list { HasList (plain frame.node.now) }
        ensures keeps { IfOk result (λ m. (v : View) →
            Keeps v self.new m self.old self.old.stack (rest_of v (opened frame.entry))) }
        ensures placed { IfOk result (λ m. Placed self.new m) }
        ensures falls { IfOk result (λ m.
            weight self.new m ≤ weight_of (opened frame.entry) + weight_all (opens self.old.stack)) }
        ensures tree { self.new.tree ≡ self.old.tree }
    {
        let children = frame.node.listed();
        let next = frame.next;
        if (next as usize) < children.len() {
            let child = &children[next as usize];
            self.open(Frame {
                next: next + 1,
                ..frame
            })?;
            return Ok(Mode::Down(child, at));
        }
        self.open(frame)?;
        Ok(self.advance(frame, at))
    }

    // Opens a node with memory, and begins the child that its number names. The children before that one are passed
    // over by their sizes, for its number.
    pub(crate) fn open_star(
        &mut self,
        node: &'t Node<T>,
        children: &'t [Node<T>],
        number: u64,
    ) -> Result<Mode<'t, T>, AllocError>
        requires star { IsStarOf (plain node.now) (plains children.now) }
        requires sits { Sits (whole_of self.old) number (plain node.now) }
        requires deep { length self.old.stack ≤ number }
        requires nested { Nested (whole_of self.old) (number + size (plain node.now)) (opens self.old.stack) }
        ensures keeps { IfOk result (λ m. (v : View) →
            Keeps v self.new m self.old self.old.stack (tick v (plain node.now) number)) }
        ensures placed { IfOk result (λ m. Placed self.new m) }
        ensures falls { IfOk result (λ m.
            weight self.new m < 2 * size (plain node.now) + weight_all (opens self.old.stack)) }
        ensures tree { self.new.tree ≡ self.old.tree }
    {
        let next = self.memory.number(number);
        let mut at = number + 1;
        'passed: for _child in 0..next {
            at = self.number_after(at);
        }
        let frame = Frame {
            node,
            number: number as u16,
            next,
            successes: 0,
            failures: 0,
        };
        self.open_list(frame, at)
    }

    // Opens a node with one child, and begins it.
    #[inline(always)]
    pub(crate) fn open_only(
        &mut self,
        frame: Frame<'t, T>,
        child: &'t Node<T>,
    ) -> Result<Mode<'t, T>, AllocError>
        requires only { children_of (plain frame.node.now) ≡ tree (plain child.now) none }
        requires stands { Standing (whole_of self.old)
            1 (frame.number + size (plain frame.node.now)) (length (opens self.old.stack)) (opened frame) }
        requires begun { frame.next ≡ 1 }
        requires nested { Nested (whole_of self.old)
            (frame.number + size (plain frame.node.now)) (opens self.old.stack) }
        ensures keeps { IfOk result (λ m. (v : View) →
            Keeps v self.new m self.old self.old.stack
            (λ s. close v (opened frame.entry) (tick v (plain child.now) (frame.entry.number + 1) s))) }
        ensures placed { IfOk result (λ m. Placed self.new m) }
        ensures falls { IfOk result (λ m.
            weight self.new m < 2 * size (plain frame.entry.node.now) + weight_all (opens self.old.stack)) }
        ensures tree { self.new.tree ≡ self.old.tree }
    {
        self.open(frame)?;
        Ok(Mode::Down(child, frame.number as u64 + 1))
    }
}
