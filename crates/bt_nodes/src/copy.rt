// Copies of nodes in another allocator.
ghost use Rattle.std.specs.Prelude.{◌≡◌, true, false, Some, None, IfOk, []};
ghost use Rattle.bt_nodes.specs.Plain.{plain, plains};
ghost use Rattle.bt_nodes.specs.Heads.{listed, lists, decorated};

use crate::node::Node;
use std::alloc::{AllocError, Allocator};

impl<A: Allocator> Node<A> {
    /// A copy of the tree with this root, whose nodes lie in `alloc`.
    #[cycle(copy)]
    pub fn copy_in<B: Allocator + Clone>(&self, alloc: &B) -> Result<Node<B>, AllocError>
        ensures { IfOk result (λ copy. plain copy ≡ plain self.now) }
    {
        if self.lists() {
            let copies = Node::copies_in(self.listed(), alloc)?;
            return Ok(self.list_in(copies));
        }
        match self.decorated() {
            Some(child) => {
                let copy = boxed(child.copy_in(alloc)?, alloc)?;
                Ok(self.decorator_in(copy))
            }
            None => Ok(self.leaf_in()),
        }
    }

    #[cycle(copy)]
    fn copies_in<B: Allocator + Clone>(
        nodes: &[Node<A>],
        alloc: &B,
    ) -> Result<Vec<Node<B>, B>, AllocError>
        ensures { IfOk result (λ copies. plains copies.items ≡ plains nodes.now) }
    {
        let mut copies = room_for(nodes.len(), alloc)?;
        'nodes: for node in nodes {
            copies.push(node.copy_in(alloc)?)?;
        }
        Ok(copies)
    }

    // A copy over those of the children that it lists.
    fn list_in<B: Allocator>(&self, copies: Vec<Node<B>, B>) -> Node<B>
        requires lists { lists (plain self.now) ≡ true }
        requires copied { plains copies.items ≡ listed (plain self.now) }
        ensures { plain result ≡ plain self.now }
    {
        match self {
            Node::Seq(_) => Node::Seq(copies),
            Node::Fallback(_) => Node::Fallback(copies),
            Node::Par(threshold, _) => Node::Par(*threshold, copies),
            Node::SeqStar(_) => Node::SeqStar(copies),
            Node::FallbackStar(_) => Node::FallbackStar(copies),
            _ => unreachable!(),
        }
    }

    // A copy over that of the one child that it decorates.
    fn decorator_in<B: Allocator>(&self, copy: Box<Node<B>, B>) -> Node<B>
        requires { decorated (plain self.now) ≡ Some (plain copy.value) }
        ensures { plain result ≡ plain self.now }
    {
        match self {
            Node::Not(_) => Node::Not(copy),
            Node::Tries(ticks, _) => Node::Tries(*ticks, copy),
            Node::Ticks(ticks, _) => Node::Ticks(*ticks, copy),
            _ => unreachable!(),
        }
    }

    // A copy of a node with nothing below it.
    fn leaf_in<B: Allocator>(&self) -> Node<B>
        requires lists_none { lists (plain self.now) ≡ false }
        requires decorates_none { decorated (plain self.now) ≡ None }
        ensures { plain result ≡ plain self.now }
    {
        match self {
            Node::Wait(ticks) => Node::Wait(*ticks),
            Node::Move(place) => Node::Move(*place),
            _ => match self.leaf() {
                Some(leaf) => leaf.into_node(),
                None => unreachable!(),
            },
        }
    }
}

fn boxed<B: Allocator + Clone>(node: Node<B>, alloc: &B) -> Result<Box<Node<B>, B>, AllocError>
    ensures { IfOk result (λ boxed. boxed.value ≡ node) }
{
    Ok(Box::new(alloc.clone()?, node)?)
}

fn room_for<B: Allocator + Clone>(count: usize, alloc: &B) -> Result<Vec<Node<B>, B>, AllocError>
    ensures { IfOk result (λ nodes. nodes.items ≡ []) }
{
    Vec::with_capacity(alloc.clone()?, count)
}
