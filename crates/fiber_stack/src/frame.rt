use bt_nodes::Node;
use std::alloc::{AllocError, Allocator};

/// A node that has been begun and has not ended: some child of it is being ticked. Its numbers take two bytes each, since a
/// tree's limits keep them below 2^16, and a suspended tick keeps a frame for each open node.
pub struct Frame<'t, T: Allocator> {
    pub node: &'t Node<T>,
    /// The node's number, in preorder from 0.
    pub number: u16,
    /// How many of its children were begun or passed over: the index of the one to be ticked next, if there is one.
    pub next: u16,
    /// How many children of a `Par` have answered Success in this tick; 0 in a node of another kind.
    pub successes: u16,
    /// How many children of a `Par` have answered Failure in this tick. Of `Tries` and `Ticks` it is what the agent's
    /// memory had for the node when it was opened: the failures of the child so far, or its Running answers in a row.
    /// 0 in a node of another kind.
    pub failures: u16,
}

// By hand, since derives would ask of `T` what a reference needs not.
impl<'t, T: Allocator> Clone for Frame<'t, T> {
    fn clone(&self) -> Result<Self, AllocError> {
        Ok(*self)
    }
}

impl<'t, T: Allocator> Copy for Frame<'t, T> {}
