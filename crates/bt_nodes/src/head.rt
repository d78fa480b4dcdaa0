// The parts of a node: its kind, the number that stands in it, and what stands right below it.
ghost use Rattle.std.specs.Prelude.{◌≡◌, None, IfSome, false, option_map};
ghost use Rattle.bt_nodes.specs.Plain.{Does, plain, plains};
ghost use Rattle.bt_nodes.specs.Heads.{is_leaf, code_of, kind_of, number_of, listed, lists, decorated};

use crate::leaf::Leaf;
use crate::node::Node;
use std::alloc::Allocator;

/// What a node is: of one that is no leaf without its number and its children.
#[derive(Clone, Copy, Debug, PartialEq, Eq)]
pub(crate) enum NodeKind {
    Seq,
    Fallback,
    Par,
    SeqStar,
    FallbackStar,
    Not,
    Tries,
    Ticks,
    Wait,
    Move,
    Does(Leaf),
}

impl<A: Allocator> Node<A> {
    pub(crate) fn kind(&self) -> NodeKind
        ensures { result ≡ kind_of (plain self.now) }
    {
        match self {
            Node::Seq(_) => NodeKind::Seq,
            Node::Fallback(_) => NodeKind::Fallback,
            Node::Par(_, _) => NodeKind::Par,
            Node::SeqStar(_) => NodeKind::SeqStar,
            Node::FallbackStar(_) => NodeKind::FallbackStar,
            Node::Not(_) => NodeKind::Not,
            Node::Tries(_, _) => NodeKind::Tries,
            Node::Ticks(_, _) => NodeKind::Ticks,
            Node::Wait(_) => NodeKind::Wait,
            Node::Move(_) => NodeKind::Move,
            Node::Take => NodeKind::Does(Leaf::Take),
            Node::Drop => NodeKind::Does(Leaf::Drop),
            Node::At(place) => NodeKind::Does(Leaf::At(*place)),
            Node::Carrying => NodeKind::Does(Leaf::Carrying),
            Node::Item => NodeKind::Does(Leaf::Item),
            Node::Signal(signal) => NodeKind::Does(Leaf::Signal(*signal)),
            Node::Near(distance) => NodeKind::Does(Leaf::Near(*distance)),
            Node::Give(letter) => NodeKind::Does(Leaf::Give(*letter)),
        }
    }

    /// The action or the condition that it is, if it is one.
    pub fn leaf(&self) -> Option<Leaf>
        ensures some { IfSome result (λ leaf. plain self.now ≡ Does leaf) }
        ensures none { result ≡ None → is_leaf (plain self.now) ≡ false }
    {
        match self.kind() {
            NodeKind::Does(leaf) => Some(leaf),
            _ => None,
        }
    }

    /// The number of its kind, by which digests know it: from 0 seq, fallback, seq*, fallback*, par, not, tries, ticks, wait,
    /// move, and then the leaves.
    pub fn code(&self) -> u8
        ensures { result ≡ code_of (plain self.now) }
    {
        match self.kind() {
            NodeKind::Seq => 0,
            NodeKind::Fallback => 1,
            NodeKind::SeqStar => 2,
            NodeKind::FallbackStar => 3,
            NodeKind::Par => 4,
            NodeKind::Not => 5,
            NodeKind::Tries => 6,
            NodeKind::Ticks => 7,
            NodeKind::Wait => 8,
            NodeKind::Move => 9,
            NodeKind::Does(leaf) => leaf.code(),
        }
    }

    /// The number that stands in a node: a threshold, ticks, a place, a signal, a distance or an agent.
    pub fn number(&self) -> Option<u64>
        ensures { result ≡ number_of (plain self.now) }
    {
        match self {
            Node::Par(number, _)
            | Node::Tries(number, _)
            | Node::Ticks(number, _)
            | Node::Wait(number) => Some(*number),
            Node::Move(place) => Some(u64::from(place.number())),
            Node::Seq(_)
            | Node::Fallback(_)
            | Node::SeqStar(_)
            | Node::FallbackStar(_)
            | Node::Not(_) => None,
            _ => self.leaf()?.number(),
        }
    }

    /// The children that it lists, from the left, which are none where its kind lists none.
    pub fn listed(&self) -> &[Node<A>]
        ensures { plains result.now ≡ listed (plain self.now) }
    {
        match self {
            Node::Seq(children)
            | Node::Fallback(children)
            | Node::Par(_, children)
            | Node::SeqStar(children)
            | Node::FallbackStar(children) => children,
            _ => &[],
        }
    }

    // Whether its kind lists children, of which it may have none.
    pub(crate) fn lists(&self) -> bool
        ensures { result ≡ lists (plain self.now) }
    {
        matches!(
            self,
            Node::Seq(_)
                | Node::Fallback(_)
                | Node::Par(_, _)
                | Node::SeqStar(_)
                | Node::FallbackStar(_)
        )
    }

    /// The one child that a decorator has.
    pub fn decorated(&self) -> Option<&Node<A>>
        ensures { option_map (λ child. plain child.now) result ≡ decorated (plain self.now) }
    {
        match self {
            Node::Not(child) | Node::Tries(_, child) | Node::Ticks(_, child) => Some(child),
            _ => None,
        }
    }
}
