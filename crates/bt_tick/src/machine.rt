ghost use Rattle.bt_nodes.specs.Trees.{plain_of};
ghost use Rattle.bt_nodes.specs.Bounds.{Fits};

use crate::memory::Memory;
use bt_nodes::{Node, Status, Tree};
use fiber_stack::Stack;
use grid_world::Intent;
use std::alloc::Allocator;

/// What a machine does next.
pub enum Mode<'t, T: Allocator> {
    /// Ticks a node, which has this number.
    Down(&'t Node<T>, u64),
    /// Hands a status to the innermost open node. The number is the one after the last node of the child that gave it.
    Up(Status, u64),
}

/// A tick on its way: the open nodes, and what the nodes that were ticked made of the memory and the wants.
#[derive(Drop)]
pub struct Machine<'t, T: Allocator, A: Allocator> {
    pub(crate) tree: &'t Tree<T>,
    pub(crate) memory: Memory,
    pub(crate) wants: Vec<Intent, A>,
    pub(crate) stack: Stack<'t, T, A>,
    ghost fits: { Fits (plain_of tree.now) memory },
}
