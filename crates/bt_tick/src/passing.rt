// The children of a par that give their status at once are ticked in a loop, without opening or leaving anything.

ghost use Rattle.std.specs.Prelude.{◌≡◌, ◌<◌, ◌≤◌, ◌+◌, ◌-◌, ◌*◌, ◌^◌, List, length, drop, IfOk};
ghost use Rattle.bt_nodes.specs.Plain.{plain};
ghost use Rattle.bt_nodes.specs.Sizes.{size};
ghost use Rattle.game_rules.specs.Tick.{gives, tick};
ghost use Rattle.bt_tick.specs.Kinds.{IsPar};
ghost use Rattle.bt_tick.specs.Suspended.{Open, close, with_status};
ghost use Rattle.bt_tick.specs.Places.{Sits, Standing, Nested, Resting, weight_of, weight_all};
ghost use Rattle.bt_tick.specs.Machine.{opened, opens, rest_of, Keeps, KeepsLeft, whole_of, Placed, weight};
ghost use Rattle.bt_tick.specs.Views.{view_of, IsInWorld, IsNearestIn};

use crate::machine::{Machine, Mode};
use crate::nearest::Nearest;
use crate::view::View;
use bt_nodes::{Node, Status};
use fiber_stack::Frame;
use std::alloc::{AllocError, Allocator};

// A par of which one child more has given its status. No branch is taken by the status, which nothing foretells.
#[inline(always)]
fn counted<'t, T: Allocator>(frame: Frame<'t, T>, status: Status) -> Frame<'t, T>
    requires { frame.successes + frame.failures < 2 ^ 16 - 1 }
    ensures counts { opened result ≡ with_status status (opened frame.entry) }
    ensures node { result.node ≡ frame.entry.node }
{
    let (won, lost) = match status {
        Status::Success => (1, 0),
        Status::Failure => (0, 1),
        Status::Running => (0, 0),
    };
    Frame {
        successes: frame.successes + won,
        failures: frame.failures + lost,
        ..frame
    }
}

impl<'t, T: Allocator, A: Allocator> Machine<'t, T, A> {
    // Ticks the children of a par that give their status at once, from the next one on, which has the number `at`, up to
    // the first that doesn't. The par as it is then, and the number of that child, or the one after the par's last node.
    #[inline(always)]
    fn pass(
        &mut self,
        view: &View,
        nearest: &mut Nearest,
        frame: Frame<'t, T>,
        at: u64,
    ) -> (Frame<'t, T>, u64)
        requires view { IsInWorld view.now }
        requires nearest { IsNearestIn (view_of view.now) nearest.old }
        requires par { IsPar (plain frame.node.now) }
        requires rests { (fs : List Open) × Resting (whole_of self.old) at (opened frame) fs }
        ensures keeps { KeepsLeft self.new self.old (rest_of (view_of view.now) (opened result.0)) (rest_of (view_of view.now) (opened frame.entry)) }
        ensures rests { (fs : List Open) → Resting (whole_of self.old) at (opened frame.entry) fs → Resting (whole_of self.old) result.1 (opened result.0) fs }
        ensures par { IsPar (plain result.0.node.now) }
        ensures falls { weight_of (opened result.0) ≤ weight_of (opened frame.entry) }
        ensures stack { self.new.stack ≡ self.old.stack }
        ensures wants { self.new.wants ≡ self.old.wants }
        ensures tree { self.new.tree ≡ self.old.tree }
        ensures nearest { IsNearestIn (view_of view.now) nearest.new }
    {
        let children = frame.node.listed();
        let mut par = frame;
        let mut number = at;
        'children: for next in frame.next as usize..children.len() {
            let Some((status, after)) = self.at_once(view, nearest, &children[next], number) else {
                return (par, number);
            };
            par = counted(
                Frame {
                    next: par.next + 1,
                    ..par
                },
                status,
            );
            number = after;
        }
        (par, number)
    }

    // Hands a status to a par that is the innermost open node, whose next child has the number `at`.
    #[inline(always)]
    pub(crate) fn ascend_par(
        &mut self,
        view: &View,
        nearest: &mut Nearest,
        frame: Frame<'t, T>,
        status: Status,
        at: u64,
    ) -> Mode<'t, T>
        requires view { IsInWorld view.now }
        requires nearest { IsNearestIn (view_of view.now) nearest.old }
        requires par { IsPar (plain frame.node.now) }
        requires some { 0 < length self.old.stack }
        requires stands { Standing (whole_of self.old)
            frame.next at (length (opens (drop 1 self.old.stack))) (opened frame) }
        requires nested { Nested (whole_of self.old)
            (frame.number + size (plain frame.node.now)) (opens (drop 1 self.old.stack)) }
        ensures keeps { Keeps (view_of view.now) self.new result self.old (drop 1 self.old.stack)
            (λ s. close (view_of view.now) (opened frame.entry) (gives status s)) }
        ensures placed { Placed self.new result }
        ensures falls { weight self.new result
            ≤ weight_of (opened frame.entry) + weight_all (opens (drop 1 self.old.stack)) }
        ensures tree { self.new.tree ≡ self.old.tree }
        ensures nearest { IsNearestIn (view_of view.now) nearest.new }
    {
        let (frame, at) = self.pass(view, nearest, counted(frame, status), at);
        self.advance(frame, at)
    }
}

impl<'t, T: Allocator, A: Allocator + Clone> Machine<'t, T, A> {
    // Ticks a par: its first children as long as they give their status at once, and then begins the first that is left, or
    // leaves the par where none is.
    #[inline(always)]
    pub(crate) fn open_par(
        &mut self,
        view: &View,
        nearest: &mut Nearest,
        node: &'t Node<T>,
        number: u64,
    ) -> Result<Mode<'t, T>, AllocError>
        requires view { IsInWorld view.now }
        requires nearest { IsNearestIn (view_of view.now) nearest.old }
        requires par { IsPar (plain node.now) }
        requires sits { Sits (whole_of self.old) number (plain node.now) }
        requires deep { length self.old.stack ≤ number }
        requires nested { Nested (whole_of self.old) (number + size (plain node.now)) (opens self.old.stack) }
        ensures keeps { IfOk result (λ m.
            Keeps (view_of view.now) self.new m self.old self.old.stack (tick (view_of view.now) (plain node.now) number)) }
        ensures placed { IfOk result (λ m. Placed self.new m) }
        ensures falls { IfOk result (λ m.
            weight self.new m < 2 * size (plain node.now) + weight_all (opens self.old.stack)) }
        ensures tree { self.new.tree ≡ self.old.tree }
        ensures nearest { IsNearestIn (view_of view.now) nearest.new }
    {
        let frame = Frame {
            node,
            number: number as u16,
            next: 0,
            successes: 0,
            failures: 0,
        };
        let (frame, at) = self.pass(view, nearest, frame, number + 1);
        self.open_list(frame, at)
    }
}
