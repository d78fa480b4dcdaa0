// Whether two trees are the same, wherever their nodes lie.
ghost use Rattle.std.specs.Prelude.{◌≡◌, ◌≢◌, true, false};
ghost use Rattle.bt_nodes.specs.Plain.{plain, plains};
ghost use Rattle.bt_nodes.specs.Heads.{kind_of, number_of};

use crate::node::Node;
use std::alloc::Allocator;

impl<A: Allocator> Node<A> {
    // Whether two nodes are the same but for what stands below them.
    fn has_same_head<B: Allocator>(&self, other: &Node<B>) -> bool
        ensures kinds { result ≡ true → kind_of (plain self.now) ≡ kind_of (plain other.now) }
        ensures numbers { result ≡ true → number_of (plain self.now) ≡ number_of (plain other.now) }
        ensures differs { result ≡ false → plain self.now ≢ plain other.now }
    {
        self.kind() == other.kind() && self.number() == other.number()
    }

    /// Whether the trees with these roots are the same. It walks over both until they differ, and takes no memory.
    #[cycle(same)]
    pub fn is_same<B: Allocator>(&self, other: &Node<B>) -> bool
        ensures same { result ≡ true → plain self.now ≡ plain other.now }
        ensures differs { result ≡ false → plain self.now ≢ plain other.now }
    {
        if !self.has_same_head(other) {
            return false;
        }
        match (self.decorated(), other.decorated()) {
            (Some(child), Some(twin)) => child.is_same(twin),
            (None, None) => Node::are_same(self.listed(), other.listed()),
            _ => false,
        }
    }

    #[cycle(same)]
    fn are_same<B: Allocator>(nodes: &[Node<A>], others: &[Node<B>]) -> bool
        ensures same { result ≡ true → plains nodes.now ≡ plains others.now }
        ensures differs { result ≡ false → plains nodes.now ≢ plains others.now }
    {
        if nodes.len() != others.len() {
            return false;
        }
        'nodes: for (i, node) in nodes.iter().enumerate() {
            if !node.is_same(&others[i]) {
                return false;
            }
        }
        true
    }
}
