// Whether a memory fits a tree.

ghost use Rattle.std.specs.Prelude.{◌≡◌, ◌↔◌, nat_lt, None, Some, MatchOption, IsTrue};
ghost use Rattle.bt_nodes.specs.Plain.{plain, plains};
ghost use Rattle.bt_nodes.specs.Bounds.{bounds, bounds_all, Fits};
ghost use Rattle.bt_nodes.specs.Trees.{plain_of};
ghost use Rattle.bt_tick.specs.Fitting.{behind, root_bound};

use crate::memory::Memory;
use bt_nodes::{Node, Tree};
use std::alloc::Allocator;

// Whether a number is below the bound of a node's own.
fn is_below<T: Allocator>(node: &Node<T>, number: u64) -> bool
    ensures { result ≡ nat_lt number (root_bound (plain node.now)) }
{
    match node {
        Node::SeqStar(children) | Node::FallbackStar(children) => number < children.len() as u64,
        Node::Tries(most, _) | Node::Ticks(most, _) | Node::Wait(most) => number <= *most,
        _ => number < 1,
    }
}

// The numbers that are left behind those of a node and of the nodes below it, if each of these is below its bound.
#[cycle(behind)]
fn behind<'m, T: Allocator>(node: &Node<T>, numbers: &'m [u16]) -> Option<&'m [u16]>
    ensures { MatchOption result (behind (bounds (plain node.now)) numbers.now ≡ None)
        (λ rest. behind (bounds (plain node.now)) numbers.now ≡ Some rest.now) }
{
    let Some((own, rest)) = numbers.split_first() else {
        return None;
    };
    if !is_below(node, u64::from(*own)) {
        return None;
    }
    match node.decorated() {
        Some(child) => behind(child, rest),
        None => behind_all(node.listed(), rest),
    }
}

#[cycle(behind)]
fn behind_all<'m, T: Allocator>(nodes: &[Node<T>], numbers: &'m [u16]) -> Option<&'m [u16]>
    ensures { MatchOption result (behind (bounds_all (plains nodes.now)) numbers.now ≡ None)
        (λ rest. behind (bounds_all (plains nodes.now)) numbers.now ≡ Some rest.now) }
{
    let mut left = numbers;
    'nodes: for node in nodes {
        match behind(node, left) {
            Some(rest) => left = rest,
            None => return None,
        }
    }
    Some(left)
}

impl Memory {
    /// Whether it fits a tree: it has a number for each node, below the number of children for `SeqStar` and
    /// `FallbackStar`, at most the node's own number for `Tries`, `Ticks` and `Wait`, and 0 for any other node.
    pub fn fits<T: Allocator>(&self, tree: &Tree<T>) -> bool
        ensures { IsTrue result ↔ Fits (plain_of tree.now) self.now }
    {
        match behind(tree.root(), &self.numbers) {
            Some(rest) => rest.is_empty(),
            None => false,
        }
    }
}
