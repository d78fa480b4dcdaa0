// Whether a node and all below it keep a limit.
ghost use Rattle.std.specs.Prelude.{◌≡◌};
ghost use Rattle.bt_nodes.specs.Plain.{plain, plains};
ghost use Rattle.bt_nodes.specs.Limits.{is_threshold, is_count, keeps_child, keeps_threshold, keeps_count};
ghost use Rattle.bt_nodes.specs.Limits.{keeps_alone, keeps, all_keep};

use crate::node::Node;
use std::alloc::Allocator;

/// A limit that each node of a tree keeps.
#[derive(Clone, Copy)]
pub(crate) enum Limit {
    /// A node that lists children has one.
    Children,
    /// A threshold is from 1 to its number of children.
    Thresholds,
    /// A number of ticks is from 1 to 1000, and a distance from 1 to 16.
    Counts,
}

impl<A: Allocator> Node<A> {
    // Whether it has a child if its kind lists children.
    fn keeps_child(&self) -> bool
        ensures { result ≡ keeps_child (plain self.now) }
    {
        match self {
            Node::Seq(children)
            | Node::Fallback(children)
            | Node::Par(_, children)
            | Node::SeqStar(children)
            | Node::FallbackStar(children) => !children.is_empty(),
            _ => true,
        }
    }

    // Whether its threshold, if it has one, is from 1 to its number of children.
    fn keeps_threshold(&self) -> bool
        ensures { result ≡ keeps_threshold (plain self.now) }
    {
        match self {
            Node::Par(threshold, children) => is_threshold(*threshold, children.len()),
            _ => true,
        }
    }

    // Whether its number of ticks or its distance, if it has one, is within its bounds.
    fn keeps_count(&self) -> bool
        ensures { result ≡ keeps_count (plain self.now) }
    {
        match self {
            Node::Tries(ticks, _) | Node::Ticks(ticks, _) | Node::Wait(ticks) => is_count(*ticks),
            Node::Near(distance) => *distance >= 1 && *distance <= 16,
            _ => true,
        }
    }

    // Whether it keeps the limit, whatever stands below it.
    fn keeps_alone(&self, limit: Limit) -> bool
        ensures { result ≡ keeps_alone limit (plain self.now) }
    {
        match limit {
            Limit::Children => self.keeps_child(),
            Limit::Thresholds => self.keeps_threshold(),
            Limit::Counts => self.keeps_count(),
        }
    }

    /// Whether it and all nodes below it keep the limit.
    #[cycle(keeps)]
    pub(crate) fn keeps(&self, limit: Limit) -> bool
        ensures { result ≡ keeps limit (plain self.now) }
    {
        if !self.keeps_alone(limit) {
            return false;
        }
        match self.decorated() {
            Some(child) => child.keeps(limit),
            None => Node::all_keep(self.listed(), limit),
        }
    }

    #[cycle(keeps)]
    fn all_keep(nodes: &[Node<A>], limit: Limit) -> bool
        ensures { result ≡ all_keep limit (plains nodes.now) }
    {
        'nodes: for node in nodes {
            if !node.keeps(limit) {
                return false;
            }
        }
        true
    }
}

fn is_threshold(threshold: u64, children: usize) -> bool
    ensures { result ≡ is_threshold threshold children }
{
    threshold >= 1 && threshold <= children as u64
}

fn is_count(ticks: u64) -> bool
    ensures { result ≡ is_count ticks }
{
    ticks >= 1 && ticks <= 1000
}
