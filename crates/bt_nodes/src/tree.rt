ghost use Rattle.std.specs.Prelude.{◌≡◌, ◌≢◌, ◌≤◌, ◌<◌, None, Some, IfOk, IfErr, OnOk, true, false, take, slice_index};
ghost use Rattle.bt_nodes.specs.Plain.{plain};
ghost use Rattle.bt_nodes.specs.Sizes.{size, depth, subtree_sizes};
ghost use Rattle.bt_nodes.specs.Limits.{tree_fault};

use crate::limits::Limit;
use crate::node::Node;
use crate::tree_fault::TreeFault;
use std::alloc::{AllocError, Allocator};

/// A tree within the limits: 1 to 255 nodes, a depth of 1 to 32, a child in each node that lists children, the
/// threshold of each `Par` from 1 to its number of children, each number of `Tries`, `Ticks` and `Wait` from 1 to
/// 1000, and each of `Near` from 1 to 16.
#[derive(Debug)]
pub struct Tree<A: Allocator> {
    root: Node<A>,
    nodes: u64,
    levels: u64,
    // the sizes of the trees that begin at its nodes, in preorder
    subtrees: [u8; 255],
    ghost within: { tree_fault (plain root) ≡ None },
    ghost counted: { nodes ≡ size (plain root) },
    ghost measured: { levels ≡ depth (plain root) },
    ghost listed: { take nodes subtrees ≡ subtree_sizes (plain root) },
}

impl<A: Allocator> Drop for Tree<A> {
    fn drop(self) {
        let Self {
            root: _,
            nodes: _,
            levels: _,
            subtrees: _,
        } = self;
    }
}

impl<A: Allocator> Tree<A> {
    ghost use Rattle.bt_nodes.specs.Trees.{plain_of};

    /// The tree with this root, or the first limit that it breaks, with the root handed back. It takes no memory,
    /// and walks over the nodes once for each limit and once for the sizes of its subtrees. The first walk stops at the
    /// 256th node; no walk nests calls deeper than 256 levels, however deep the root's tree is.
    pub fn new(root: Node<A>) -> Result<Tree<A>, (TreeFault, Node<A>)>
        ensures ok { IfOk result (λ tree. plain_of tree ≡ plain root) }
        ensures within { OnOk result (tree_fault (plain root) ≡ None) }
        ensures err { IfErr result (λ e. tree_fault (plain root) ≡ Some e.0) }
        ensures back { IfErr result (λ e. e.1 ≡ root) }
    {
        let nodes = root.size_to(256);
        if nodes > 255 {
            return Err((TreeFault::TooManyNodes, root));
        }
        let levels = root.depth();
        if levels > 32 {
            return Err((TreeFault::TooDeep, root));
        }
        if !root.keeps(Limit::Children) {
            return Err((TreeFault::NoChild, root));
        }
        if !root.keeps(Limit::Thresholds) {
            return Err((TreeFault::Threshold, root));
        }
        if !root.keeps(Limit::Counts) {
            return Err((TreeFault::Count, root));
        }
        let mut subtrees = [0u8; 255];
        root.write_sizes(&mut subtrees, 0);
        Ok(Tree {
            root,
            nodes,
            levels,
            subtrees,
        })
    }

    /// The number of nodes, which `new` counted.
    pub fn size(&self) -> u64
        ensures value { result ≡ size (plain_of self.now) }
        ensures least { 1 ≤ result }
        ensures most { result ≤ 255 }
    {
        self.nodes
    }

    /// The depth, which `new` measured; that of the root alone is 1.
    pub fn depth(&self) -> u64
        ensures value { result ≡ depth (plain_of self.now) }
        ensures least { 1 ≤ result }
        ensures most { result ≤ 32 }
    {
        self.levels
    }

    /// The number of nodes of the tree that begins at a node, which `new` counted. The root has the number 0, and each
    /// other node the number of those before it in preorder.
    pub fn size_at(&self, node: u64) -> u64
        requires { node < size (plain_of self.now) }
        ensures value { result ≡ slice_index (subtree_sizes (plain_of self.now)) node }
        ensures most { result ≤ 255 }
    {
        u64::from(self.subtrees[node as usize])
    }

    /// The root, below which are all the nodes. It has the number 0.
    pub fn root(&self) -> &Node<A>
        ensures value { plain result.now ≡ plain_of self.now }
        ensures within { tree_fault (plain result.now) ≡ None }
    {
        &self.root
    }

    /// Whether two trees are the same, wherever their nodes lie. It walks over both until they differ, and takes no
    /// memory; calls nest as deep as the trees.
    pub fn is_same<B: Allocator>(&self, other: &Tree<B>) -> bool
        ensures same { result ≡ true → plain_of self.now ≡ plain_of other.now }
        ensures differs { result ≡ false → plain_of self.now ≢ plain_of other.now }
    {
        self.root.is_same(&other.root)
    }

    /// A copy whose nodes lie in `alloc`.
    pub fn copy_in<B: Allocator + Clone>(&self, alloc: B) -> Result<Tree<B>, AllocError>
        ensures { IfOk result (λ copy. plain_of copy ≡ plain_of self.now) }
    {
        Ok(Tree {
            root: self.root.copy_in(&alloc)?,
            nodes: self.size(),
            levels: self.depth(),
            subtrees: self.subtrees,
        })
    }
}
