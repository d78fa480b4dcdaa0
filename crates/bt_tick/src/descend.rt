// What a node does when it is ticked.

ghost use Rattle.std.specs.Prelude.{◌≡◌, ◌<◌, ◌≤◌, ◌+◌, ◌*◌, ◌++◌, ◌∷◌, [], false, length, None, IfOk};
ghost use Rattle.bt_nodes.specs.Plain.{plain};
ghost use Rattle.bt_nodes.specs.Sizes.{size};
ghost use Rattle.game_rules.specs.Tick.{tick};
ghost use Rattle.bt_tick.specs.Kinds.{IsPar, is_move};
ghost use Rattle.bt_tick.specs.LeafResults.{deed_of};
ghost use Rattle.bt_tick.specs.Places.{Sits, Nested, weight_all};
ghost use Rattle.bt_tick.specs.Machine.{opens, Keeps, whole_of, Placed, weight};
ghost use Rattle.bt_tick.specs.Views.{view_of, IsInWorld};

use crate::machine::{Machine, Mode};
use crate::view::View;
use bt_nodes::{Node, Status};
use fiber_stack::Frame;
use grid_world::Intent;
use std::alloc::{AllocError, Allocator};

impl<'t, T: Allocator, A: Allocator + Clone> Machine<'t, T, A> {
    // Adds a want to those of the tick.
    #[inline(always)]
    pub(crate) fn want(&mut self, intent: Intent) -> Result<(), AllocError>
        ensures wants { IfOk result (λ _. self.new.wants.items ≡ self.old.wants.items ++ intent ∷ []) }
        ensures stack { self.new.stack ≡ self.old.stack }
        ensures memory { self.new.memory ≡ self.old.memory }
        ensures tree { self.new.tree ≡ self.old.tree }
    {
        self.wants.push(intent)?;
        Ok(())
    }

    // Ticks a node with children other than a `Par`, or a `Wait`: opens it and begins a child, or takes its status at once.
    #[inline(always)]
    pub(crate) fn descend(
        &mut self,
        view: &View,
        node: &'t Node<T>,
        number: u64,
    ) -> Result<Mode<'t, T>, AllocError>
        requires view { IsInWorld view.now }
        requires no_par { IsPar (plain node.now) → ⊥ }
        requires no_move { is_move (plain node.now) ≡ false }
        requires no_leaf { deed_of (view_of view.now) (plain node.now) ≡ None }
        requires sits { Sits (whole_of self.old) number (plain node.now) }
        requires deep { length self.old.stack ≤ number }
        requires nested { Nested (whole_of self.old) (number + size (plain node.now)) (opens self.old.stack) }
        ensures keeps { IfOk result (λ m.
            Keeps (view_of view.now) self.new m self.old self.old.stack (tick (view_of view.now) (plain node.now) number)) }
        ensures placed { IfOk result (λ m. Placed self.new m) }
        ensures falls { IfOk result (λ m.
            weight self.new m < 2 * size (plain node.now) + weight_all (opens self.old.stack)) }
        ensures tree { self.new.tree ≡ self.old.tree }
    {
        let frame = Frame {
            node,
            number: number as u16,
            next: 0,
            successes: 0,
            failures: 0,
        };
        let after = number + 1;
        match node {
            Node::Seq(_) => self.open_list(frame, after),
            Node::Fallback(_) => self.open_list(frame, after),
            Node::SeqStar(children) => self.open_star(node, children, number),
            Node::FallbackStar(children) => self.open_star(node, children, number),
            Node::Not(child) => self.open_only(Frame { next: 1, ..frame }, child),
            Node::Tries(most, child) => {
                let failures = self.memory.number(number);
                if failures as u64 >= *most {
                    return Ok(Mode::Up(Status::Failure, self.number_after(number)));
                }
                self.open_only(
                    Frame {
                        next: 1,
                        failures,
                        ..frame
                    },
                    child,
                )
            }
            Node::Ticks(most, child) => {
                let past = self.memory.number(number);
                if past as u64 >= *most {
                    self.memory.set(number, 0);
                    return Ok(Mode::Up(Status::Failure, self.number_after(number)));
                }
                self.open_only(
                    Frame {
                        next: 1,
                        failures: past,
                        ..frame
                    },
                    child,
                )
            }
            Node::Wait(most) => {
                let status = self.wait(number, *most);
                Ok(Mode::Up(status, after))
            }
            _ => unreachable!(),
        }
    }
}
