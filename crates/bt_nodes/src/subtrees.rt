// The sizes of the trees that begin at the nodes of a tree, written down in preorder.
ghost use Rattle.std.specs.Prelude.{◌≡◌, ◌<◌, ◌≤◌, ◌+◌, ◌-◌, ◌++◌, take, slice_set};
ghost use Rattle.bt_nodes.specs.Plain.{plain, plains};
ghost use Rattle.bt_nodes.specs.Sizes.{size, sizes, subtree_sizes, subtree_sizes_all};

use crate::node::Node;
use std::alloc::Allocator;

// Writes the size of the node with the number `at`, behind whose last node `next` stands.
fn write_size(table: &mut [u8; 255], at: usize, next: usize)
    requires some { at < next }
    requires room { next ≤ 255 }
    ensures { table.new ≡ slice_set table.old at (next - at) }
{
    table[at] = (next - at) as u8;
}

impl<A: Allocator> Node<A> {
    // Writes the sizes of its subtrees, its own at `at`, and answers the number behind the last of them.
    #[cycle(write_sizes)]
    pub(crate) fn write_sizes(&self, table: &mut [u8; 255], at: usize) -> usize
        requires { at + size (plain self.now) ≤ 255 }
        ensures next { result ≡ at + size (plain self.now) }
        ensures written { take result table.new ≡ take at table.old ++ subtree_sizes (plain self.now) }
    {
        let next = match self.decorated() {
            Some(child) => child.write_sizes(table, at + 1),
            None => Node::write_all_sizes(self.listed(), table, at + 1),
        };
        write_size(table, at, next);
        next
    }

    // The same for the trees with these roots, one behind another.
    #[cycle(write_sizes)]
    fn write_all_sizes(nodes: &[Node<A>], table: &mut [u8; 255], at: usize) -> usize
        requires { at + sizes (plains nodes.now) ≤ 255 }
        ensures next { result ≡ at + sizes (plains nodes.now) }
        ensures written { take result table.new ≡ take at table.old ++ subtree_sizes_all (plains nodes.now) }
    {
        let mut next = at;
        'nodes: for node in nodes {
            next = node.write_sizes(table, next);
        }
        next
    }
}
