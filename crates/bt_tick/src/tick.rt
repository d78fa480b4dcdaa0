// Ticks that may stop at a path question.

ghost use Rattle.bt_nodes.specs.Trees.{plain_of};
ghost use Rattle.bt_tick.specs.Places.{Nested};
ghost use Rattle.bt_tick.specs.Machine.{opens};
ghost use Rattle.bt_tick.specs.Props.{Nested-prop};

use crate::machine::Machine;
use crate::memory::Memory;
use bt_nodes::Status;
use grid_world::{Intent, Place};
use std::alloc::Allocator;

/// A tick that stands at a path question.
#[derive(Drop)]
pub struct Pending<'t, T: Allocator, A: Allocator> {
    pub(crate) machine: Machine<'t, T, A>,
    pub(crate) place: Place,
    // the number after the `Move` that asks
    pub(crate) after: u64,
    ghost nested: { Nested (plain_of machine.tree.now) after (opens machine.stack) } by { Nested-prop (plain_of machine.tree.now) after (opens machine.stack) },
}

/// What a tick comes to.
#[derive(Drop)]
pub enum Outcome<'t, T: Allocator, A: Allocator> {
    /// The tick has ended. The intent is its first want, or `Stay`.
    Ended {
        status: Status,
        memory: Memory,
        intent: Intent,
    },
    /// The tick stands at the question for the way to this place.
    Asks {
        place: Place,
        pending: Pending<'t, T, A>,
    },
}
