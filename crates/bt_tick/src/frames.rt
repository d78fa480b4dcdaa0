// How a machine opens, goes on with and leaves nodes. All steps of a machine are inlined into its run, since a call would
// copy the frame that it takes.

ghost use Rattle.std.specs.Prelude.{◌≡◌, ◌<◌, ◌≤◌, ◌+◌, ◌-◌, ◌*◌, ◌^◌, ◌∷◌, length, drop, IfOk};
ghost use Rattle.bt_nodes.specs.Plain.{Plain, plain, plains};
ghost use Rattle.bt_nodes.specs.Sizes.{size, count};
ghost use Rattle.game_rules.specs.View.{View};
ghost use Rattle.game_rules.specs.Tick.{gives, verdict};
ghost use Rattle.bt_tick.specs.Children.{children_of};
ghost use Rattle.bt_tick.specs.Kinds.{HasList};
ghost use Rattle.bt_tick.specs.Places.{Sits, Resting, weight_of, weight_all};
ghost use Rattle.bt_tick.specs.Machine.{opened, opens, rest_of, Keeps, KeepsLeft, whole_of, Placed, weight};

use crate::machine::{Machine, Mode};
use bt_nodes::{Node, Status};
use fiber_stack::Frame;
use std::alloc::{AllocError, Allocator};

impl<'t, T: Allocator, A: Allocator + Clone> Machine<'t, T, A> {
    // Opens a node.
    #[inline(always)]
    pub(crate) fn open(&mut self, frame: Frame<'t, T>) -> Result<(), AllocError>
        requires room { length self.old.stack < 2 ^ 32 - 1 }
        ensures stack { IfOk result (λ _. self.new.stack ≡ frame.entry ∷ self.old.stack) }
        ensures memory { self.new.memory ≡ self.old.memory }
        ensures wants { self.new.wants ≡ self.old.wants }
        ensures tree { self.new.tree ≡ self.old.tree }
    {
        match self.stack.push(frame) {
            Ok(()) => Ok(()),
            Err(_) => Err(AllocError),
        }
    }
}

// The status of a par of `count` children, all of which were ticked.
fn par_status(least: u64, count: usize, successes: u16, failures: u16) -> Status
    ensures { result ≡ verdict least count successes failures }
{
    if successes as u64 >= least {
        Status::Success
    } else if failures as u64 > (count as u64).saturating_sub(least) {
        Status::Failure
    } else {
        Status::Running
    }
}

impl<'t, T: Allocator, A: Allocator> Machine<'t, T, A> {
    // The number after the last node of the tree that begins at a node.
    #[inline(always)]
    pub(crate) fn number_after(&self, number: u64) -> u64
        requires { number < size (whole_of self.now) }
        ensures { (p : Plain) → Sits (whole_of self.now) number p → result ≡ number + size p }
    {
        number + self.tree.size_at(number)
    }

    // Leaves the innermost open node, which gives this status. The number is the one after its last node.
    #[inline(always)]
    pub(crate) fn leave(&mut self, status: Status, at: u64) -> Mode<'t, T>
        ensures mode { result ≡ Mode.Up status at }
        ensures stack { self.new.stack ≡ drop 1 self.old.stack }
        ensures memory { self.new.memory ≡ self.old.memory }
        ensures wants { self.new.wants ≡ self.old.wants }
        ensures tree { self.new.tree ≡ self.old.tree }
    {
        self.stack.pop();
        Mode::Up(status, at)
    }

    // Begins the next child of the innermost open node.
    #[inline(always)]
    fn enter(&mut self, frame: Frame<'t, T>, children: &'t [Node<T>], at: u64) -> Mode<'t, T>
        requires some { 0 < length self.old.stack }
        requires rests { Resting (whole_of self.old) at (opened frame) (opens (drop 1 self.old.stack)) }
        requires list { HasList (plain frame.node.now) }
        requires children { children_of (plain frame.node.now) ≡ plains children.now }
        requires next { frame.next < length children.now }
        ensures keeps { (v : View) →
            Keeps v self.new result self.old (drop 1 self.old.stack) (rest_of v (opened frame.entry)) }
        ensures placed { Placed self.new result }
        ensures falls { weight self.new result
            ≤ weight_of (opened frame.entry) + weight_all (opens (drop 1 self.old.stack)) }
        ensures tree { self.new.tree ≡ self.old.tree }
    {
        let next = frame.next;
        self.stack.replace_top(Frame {
            next: next + 1,
            ..frame
        });
        Mode::Down(&children[next as usize], at)
    }

    // The status of a node that lists children, none of which is left. One with memory begins anew when it is ticked again.
    #[inline(always)]
    fn ended(&mut self, frame: Frame<'t, T>) -> Status
        requires list { HasList (plain frame.node.now) }
        requires none_left { count (children_of (plain frame.node.now)) ≤ frame.next }
        requires sits { Sits (whole_of self.old) frame.number (plain frame.node.now) }
        ensures keeps { (v : View) → KeepsLeft self.new self.old (gives result) (rest_of v (opened frame.entry)) }
        ensures stack { self.new.stack ≡ self.old.stack }
        ensures wants { self.new.wants ≡ self.old.wants }
        ensures tree { self.new.tree ≡ self.old.tree }
    {
        match frame.node {
            Node::Seq(_) => Status::Success,
            Node::Fallback(_) => Status::Failure,
            Node::Par(least, children) => {
                par_status(*least, children.len(), frame.successes, frame.failures)
            }
            Node::SeqStar(_) => {
                self.memory.set(frame.number as u64, 0);
                Status::Success
            }
            Node::FallbackStar(_) => {
                self.memory.set(frame.number as u64, 0);
                Status::Failure
            }
            _ => unreachable!(),
        }
    }

    // Goes on with the innermost open node, none of whose children is being ticked: begins the child with the number
    // `at`, or leaves the node where no child is left.
    #[inline(always)]
    pub(crate) fn advance(&mut self, frame: Frame<'t, T>, at: u64) -> Mode<'t, T>
        requires some { 0 < length self.old.stack }
        requires rests { Resting (whole_of self.old) at (opened frame) (opens (drop 1 self.old.stack)) }
        requires list { HasList (plain frame.node.now) }
        ensures keeps { (v : View) →
            Keeps v self.new result self.old (drop 1 self.old.stack) (rest_of v (opened frame.entry)) }
        ensures placed { Placed self.new result }
        ensures falls { weight self.new result
            ≤ weight_of (opened frame.entry) + weight_all (opens (drop 1 self.old.stack)) }
        ensures tree { self.new.tree ≡ self.old.tree }
    {
        let children = frame.node.listed();
        if (frame.next as usize) < children.len() {
            return self.enter(frame, children, at);
        }
        let status = self.ended(frame);
        self.leave(status, at)
    }
}
