// Leaves that want nothing now, waits, and a `Not` or a `Ticks` over one of these give their status at once: none of them is
// opened, and none asks.

ghost use Rattle.std.specs.Prelude.{◌≡◌, ◌+◌, IfSome, None};
ghost use Rattle.bt_nodes.specs.Plain.{plain, Ticks};
ghost use Rattle.bt_nodes.specs.Sizes.{size};
ghost use Rattle.game_rules.specs.Tick.{gives, tick};
ghost use Rattle.bt_tick.specs.Places.{Sits};
ghost use Rattle.bt_tick.specs.Machine.{whole_of, KeepsLeft};
ghost use Rattle.bt_tick.specs.Views.{view_of, IsInWorld, IsNearestIn};

use crate::ascend::opposite;
use crate::leaf_result::{leaf_result, status_of};
use crate::machine::Machine;
use crate::nearest::Nearest;
use crate::view::View;
use bt_nodes::{Node, Status};
use game_rules::LeafResult;
use std::alloc::Allocator;

impl<'t, T: Allocator, A: Allocator> Machine<'t, T, A> {
    // Ticks a leaf that wants nothing now, or a `Wait`. None for any other node, which is not ticked.
    #[inline(always)]
    fn leaf_at_once(
        &mut self,
        view: &View,
        nearest: &mut Nearest,
        node: &Node<T>,
        number: u64,
    ) -> Option<Status>
        requires view { IsInWorld view.now }
        requires nearest { IsNearestIn (view_of view.now) nearest.old }
        requires sits { Sits (whole_of self.old) number (plain node.now) }
        ensures ticks { IfSome result (λ st. KeepsLeft self.new self.old (gives st) (tick (view_of view.now) (plain node.now) number)) }
        ensures alone { IfSome result (λ st. size (plain node.now) ≡ 1) }
        ensures none { result ≡ None → self.new.memory ≡ self.old.memory }
        ensures stack { self.new.stack ≡ self.old.stack }
        ensures wants { self.new.wants ≡ self.old.wants }
        ensures tree { self.new.tree ≡ self.old.tree }
        ensures nearest { IsNearestIn (view_of view.now) nearest.new }
    {
        if let Node::Wait(most) = node {
            return Some(self.wait(number, *most));
        }
        match leaf_result(view, nearest, node) {
            Some(LeafResult::Says(holds)) => Some(status_of(holds)),
            _ => None,
        }
    }

    // Ticks a `Ticks` of so many ticks that is over, or whose child gives its status at once: its status, and the number after
    // its last node. None for any other, which is not ticked.
    #[inline(always)]
    fn ticks_at_once(
        &mut self,
        view: &View,
        nearest: &mut Nearest,
        most: u64,
        child: &Node<T>,
        number: u64,
    ) -> Option<(Status, u64)>
        requires view { IsInWorld view.now }
        requires nearest { IsNearestIn (view_of view.now) nearest.old }
        requires sits { Sits (whole_of self.old) number (Ticks most (plain child.now)) }
        ensures ticks { IfSome result (λ r. KeepsLeft self.new self.old (gives r.0) (tick (view_of view.now) (Ticks most (plain child.now)) number)) }
        ensures after { IfSome result (λ r. r.1 ≡ number + size (Ticks most (plain child.now))) }
        ensures none { result ≡ None → self.new.memory ≡ self.old.memory }
        ensures stack { self.new.stack ≡ self.old.stack }
        ensures wants { self.new.wants ≡ self.old.wants }
        ensures tree { self.new.tree ≡ self.old.tree }
        ensures nearest { IsNearestIn (view_of view.now) nearest.new }
    {
        let past = self.memory.number(number);
        if past as u64 >= most {
            self.memory.set(number, 0);
            return Some((Status::Failure, self.number_after(number)));
        }
        let Some(status) = self.leaf_at_once(view, nearest, child, number + 1) else {
            return None;
        };
        match status {
            Status::Running => self.memory.set(number, past + 1),
            Status::Success | Status::Failure => self.memory.set(number, 0),
        }
        Some((status, number + 2))
    }

    // Ticks a leaf that wants nothing now, a `Wait`, a `Not` or a `Ticks` over one of these, or a `Ticks` that is over: its
    // status, and the number after its last node. None for any other node, which is not ticked.
    #[inline(always)]
    pub(crate) fn at_once(
        &mut self,
        view: &View,
        nearest: &mut Nearest,
        node: &Node<T>,
        number: u64,
    ) -> Option<(Status, u64)>
        requires view { IsInWorld view.now }
        requires nearest { IsNearestIn (view_of view.now) nearest.old }
        requires sits { Sits (whole_of self.old) number (plain node.now) }
        ensures ticks { IfSome result (λ r. KeepsLeft self.new self.old (gives r.0) (tick (view_of view.now) (plain node.now) number)) }
        ensures after { IfSome result (λ r. r.1 ≡ number + size (plain node.now)) }
        ensures none { result ≡ None → self.new.memory ≡ self.old.memory }
        ensures stack { self.new.stack ≡ self.old.stack }
        ensures wants { self.new.wants ≡ self.old.wants }
        ensures tree { self.new.tree ≡ self.old.tree }
        ensures nearest { IsNearestIn (view_of view.now) nearest.new }
    {
        match node {
            Node::Not(child) => match self.leaf_at_once(view, nearest, child, number + 1) {
                Some(status) => Some((opposite(status), number + 2)),
                None => None,
            },
            Node::Ticks(most, child) => self.ticks_at_once(view, nearest, *most, child, number),
            _ => match self.leaf_at_once(view, nearest, node, number) {
                Some(status) => Some((status, number + 1)),
                None => None,
            },
        }
    }
}
