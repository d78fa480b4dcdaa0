// What an open node other than a `Par` does by the status of its child.

ghost use Rattle.std.specs.Prelude.{◌≡◌, ◌<◌, ◌≤◌, ◌+◌, length, drop};
ghost use Rattle.bt_nodes.specs.Plain.{plain};
ghost use Rattle.bt_nodes.specs.Sizes.{size};
ghost use Rattle.game_rules.specs.View.{View};
ghost use Rattle.game_rules.specs.Tick.{State, gives, on};
ghost use Rattle.bt_tick.specs.Kinds.{IsPar};
ghost use Rattle.bt_tick.specs.Suspended.{close};
ghost use Rattle.bt_tick.specs.Places.{Sits, Standing, Nested, weight_of, weight_all};
ghost use Rattle.bt_tick.specs.Machine.{opened, opens, Keeps, whole_of, Placed, weight};

use crate::machine::{Machine, Mode};
use bt_nodes::{Node, Status};
use fiber_stack::Frame;
use std::alloc::Allocator;

// What `Not` makes of the status of its child.
pub(crate) fn opposite(status: Status) -> Status
    ensures { (s : State) →
        gives result s ≡ on (gives status s) (gives Status.Failure) (gives Status.Success) (gives Status.Running) }
{
    match status {
        Status::Success => Status::Failure,
        Status::Failure => Status::Success,
        Status::Running => Status::Running,
    }
}

impl<'t, T: Allocator, A: Allocator> Machine<'t, T, A> {
    // Leaves the innermost open node with children that are not ticked. None of them is walked over for the number that
    // follows.
    #[inline(always)]
    fn stop(&mut self, frame: Frame<'t, T>, status: Status) -> Mode<'t, T>
        requires { Sits (whole_of self.old) frame.number (plain frame.node.now) }
        ensures mode { result ≡ Mode.Up status (frame.entry.number + size (plain frame.entry.node.now)) }
        ensures stack { self.new.stack ≡ drop 1 self.old.stack }
        ensures memory { self.new.memory ≡ self.old.memory }
        ensures wants { self.new.wants ≡ self.old.wants }
        ensures tree { self.new.tree ≡ self.old.tree }
    {
        let after = self.number_after(frame.number as u64);
        self.leave(status, after)
    }

    // Hands a status to the innermost open node, which is no `Par` and whose next child has the number `at`.
    #[inline(always)]
    pub(crate) fn ascend(&mut self, frame: Frame<'t, T>, status: Status, at: u64) -> Mode<'t, T>
        requires no_par { IsPar (plain frame.node.now) → ⊥ }
        requires some { 0 < length self.old.stack }
        requires stands { Standing (whole_of self.old)
            frame.next at (length (opens (drop 1 self.old.stack))) (opened frame) }
        requires nested { Nested (whole_of self.old)
            (frame.number + size (plain frame.node.now)) (opens (drop 1 self.old.stack)) }
        ensures keeps { (v : View) →
            Keeps v self.new result self.old (drop 1 self.old.stack)
            (λ s. close v (opened frame.entry) (gives status s)) }
        ensures placed { Placed self.new result }
        ensures falls { weight self.new result
            ≤ weight_of (opened frame.entry) + weight_all (opens (drop 1 self.old.stack)) }
        ensures tree { self.new.tree ≡ self.old.tree }
    {
        let number = frame.number as u64;
        match frame.node {
            Node::Seq(_) => match status {
                Status::Success => self.advance(frame, at),
                Status::Failure | Status::Running => self.stop(frame, status),
            },
            Node::Fallback(_) => match status {
                Status::Failure => self.advance(frame, at),
                Status::Success | Status::Running => self.stop(frame, status),
            },
            Node::SeqStar(children) => match status {
                Status::Success => {
                    if (frame.next as usize) < children.len() {
                        self.memory.set(number, frame.next);
                        return self.advance(frame, at);
                    }
                    self.memory.set(number, 0);
                    self.leave(Status::Success, at)
                }
                Status::Failure => {
                    self.memory.set(number, 0);
                    self.stop(frame, Status::Failure)
                }
                Status::Running => self.stop(frame, Status::Running),
            },
            Node::FallbackStar(children) => match status {
                Status::Failure => {
                    if (frame.next as usize) < children.len() {
                        self.memory.set(number, frame.next);
                        return self.advance(frame, at);
                    }
                    self.memory.set(number, 0);
                    self.leave(Status::Failure, at)
                }
                Status::Success => {
                    self.memory.set(number, 0);
                    self.stop(frame, Status::Success)
                }
                Status::Running => self.stop(frame, Status::Running),
            },
            Node::Not(_) => self.leave(opposite(status), at),
            Node::Tries(most, _) => match status {
                Status::Failure => {
                    // Named for the proof alone.
                    let _most = *most;
                    self.memory.set(number, frame.failures + 1);
                    self.leave(Status::Failure, at)
                }
                Status::Success | Status::Running => self.leave(status, at),
            },
            Node::Ticks(limit, _) => match status {
                Status::Running => {
                    // Named for the proof alone.
                    let _limit = *limit;
                    self.memory.set(number, frame.failures + 1);
                    self.leave(Status::Running, at)
                }
                Status::Success | Status::Failure => {
                    self.memory.set(number, 0);
                    self.leave(status, at)
                }
            },
            _ => unreachable!(),
        }
    }
}
