// Actions and conditions, apart from the other nodes.
ghost use Rattle.std.specs.Prelude.{◌≡◌};
ghost use Rattle.bt_nodes.specs.Plain.{Does, plain};
ghost use Rattle.bt_nodes.specs.Heads.{leaf_code, leaf_number};

use crate::node::Node;
use grid_world::{Letter, Place, Signal};
use std::alloc::Allocator;

/// An action or a condition that asks no path question: a node with no child and no number of its own. Each is what the
/// node of its name is.
#[derive(Clone, Copy, Debug, PartialEq, Eq)]
pub enum Leaf {
    Take,
    Drop,
    At(Place),
    Carrying,
    Item,
    Signal(Signal),
    Near(u64),
    Give(Letter),
}

impl Leaf {
    // The number of its kind, behind those of the nodes that are no leaves.
    pub(crate) fn code(self) -> u8
        ensures { result ≡ leaf_code self }
    {
        match self {
            Leaf::Take => 10,
            Leaf::Drop => 11,
            Leaf::At(_) => 12,
            Leaf::Carrying => 13,
            Leaf::Item => 14,
            Leaf::Signal(_) => 15,
            Leaf::Near(_) => 16,
            Leaf::Give(_) => 17,
        }
    }

    /// The number that stands in it: of its place, its signal or its letter, from 0, or a distance.
    pub fn number(self) -> Option<u64>
        ensures { result ≡ leaf_number self }
    {
        match self {
            Leaf::At(place) => Some(u64::from(place.number())),
            Leaf::Signal(signal) => Some(u64::from(signal.number())),
            Leaf::Near(distance) => Some(distance),
            Leaf::Give(letter) => Some(u64::from(letter.number())),
            Leaf::Take | Leaf::Drop | Leaf::Carrying | Leaf::Item => None,
        }
    }

    /// The node that it is.
    pub fn into_node<A: Allocator>(self) -> Node<A>
        ensures { plain result ≡ Does self }
    {
        match self {
            Leaf::Take => Node::Take,
            Leaf::Drop => Node::Drop,
            Leaf::At(place) => Node::At(place),
            Leaf::Carrying => Node::Carrying,
            Leaf::Item => Node::Item,
            Leaf::Signal(signal) => Node::Signal(signal),
            Leaf::Near(distance) => Node::Near(distance),
            Leaf::Give(letter) => Node::Give(letter),
        }
    }
}
