// How many nodes there are from a node on, and how deep they lie.
ghost use Rattle.std.specs.Prelude.{◌≡◌, min};
ghost use Rattle.bt_nodes.specs.Plain.{plain, plains};
ghost use Rattle.bt_nodes.specs.Sizes.{size, sizes, depth, deepest};

use crate::node::Node;
use std::alloc::Allocator;

impl<A: Allocator> Node<A> {
    /// The number of nodes of the tree with this root, or `most` where there are more. Each call counts its node, so
    /// calls nest no deeper than `most` levels, however deep the tree is.
    #[cycle(size)]
    pub(crate) fn size_to(&self, most: u64) -> u64
        ensures { result ≡ min (size (plain self.now)) most }
    {
        if most == 0 {
            return 0;
        }
        match self.decorated() {
            Some(child) => child.size_to(most - 1) + 1,
            None => Node::sizes_to(self.listed(), most - 1) + 1,
        }
    }

    #[cycle(size)]
    fn sizes_to(nodes: &[Node<A>], most: u64) -> u64
        ensures { result ≡ min (sizes (plains nodes.now)) most }
    {
        let mut total = 0u64;
        'nodes: for node in nodes {
            if total == most {
                return most;
            }
            total += node.size_to(most - total);
        }
        total
    }

    /// The depth of the tree with this root; that of the root alone is 1. It walks over all nodes, with a call nested
    /// for each level.
    #[cycle(depth)]
    pub(crate) fn depth(&self) -> u64
        ensures { result ≡ min (depth (plain self.now)) u64.MAX }
    {
        match self.decorated() {
            Some(child) => child.depth().saturating_add(1),
            None => Node::deepest(self.listed()).saturating_add(1),
        }
    }

    #[cycle(depth)]
    fn deepest(nodes: &[Node<A>]) -> u64
        ensures { result ≡ min (deepest (plains nodes.now)) u64.MAX }
    {
        let mut most = 0u64;
        'nodes: for node in nodes {
            most = most.max(node.depth());
        }
        most
    }
}
