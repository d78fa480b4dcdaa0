// Nodes that take nodes, before those are read.
ghost use Rattle.std.specs.Prelude.{◌≡◌, ◌≤◌, IfSome};
ghost use Rattle.bt_nodes.specs.Plain.{plain, plains};
ghost use Rattle.serde_json.specs.View.{items_view};
ghost use Rattle.level_text.specs.Inner.{form_in, inner_in, values_of, deepest};

use crate::argument::numbered;
use bt_nodes::Node;
use serde_json::Value;
use std::alloc::Global;

/// A node that lists its children, without them.
#[derive(Clone, Copy, Drop)]
pub(crate) enum Lister {
    Seq,
    Fallback,
    Par(u64),
    SeqStar,
    FallbackStar,
}

/// A node that decorates its one child, without it.
#[derive(Clone, Copy, Drop)]
pub(crate) enum Decorator {
    Not,
    Tries(u64),
    Ticks(u64),
}

/// A node that takes nodes, and the values that are to spell these.
#[derive(Clone, Copy, Drop)]
pub(crate) enum Inner<'v> {
    Lists(Lister, &'v [Value]),
    Decorates(Decorator, &'v [Value]),
}

impl Lister {
    ghost use Rattle.level_text.specs.Inner.{over_forest};

    pub(crate) fn over(self, children: Vec<Node<Global>>) -> Node<Global>
        ensures { plain result ≡ over_forest self (plains children.items) }
    {
        match self {
            Lister::Seq => Node::Seq(children),
            Lister::Fallback => Node::Fallback(children),
            Lister::Par(n) => Node::Par(n, children),
            Lister::SeqStar => Node::SeqStar(children),
            Lister::FallbackStar => Node::FallbackStar(children),
        }
    }
}

impl Decorator {
    ghost use Rattle.level_text.specs.Inner.{over_child};

    pub(crate) fn over(self, child: Box<Node<Global>>) -> Node<Global>
        ensures { plain result ≡ over_child self (plain child.value) }
    {
        match self {
            Decorator::Not => Node::Not(child),
            Decorator::Tries(n) => Node::Tries(n, child),
            Decorator::Ticks(n) => Node::Ticks(n, child),
        }
    }
}

/// The node of a head that takes nodes, or none where its number is missing or the head is another.
pub(crate) fn inner_of<'v>(head: &str, arguments: &'v [Value]) -> Option<Inner<'v>>
    ensures value { form_in head.now (items_view arguments.now) ≡ inner_in result head.now (items_view arguments.now) }
    ensures behind { IfSome result (λ inner. deepest (values_of inner) ≤ deepest arguments.now) }
{
    match head {
        "seq" => Some(Inner::Lists(Lister::Seq, arguments)),
        "fallback" => Some(Inner::Lists(Lister::Fallback, arguments)),
        "seq*" => Some(Inner::Lists(Lister::SeqStar, arguments)),
        "fallback*" => Some(Inner::Lists(Lister::FallbackStar, arguments)),
        "par" => {
            let (n, values) = numbered(arguments)?;
            Some(Inner::Lists(Lister::Par(n), values))
        }
        "not" => Some(Inner::Decorates(Decorator::Not, arguments)),
        "tries" => {
            let (n, values) = numbered(arguments)?;
            Some(Inner::Decorates(Decorator::Tries(n), values))
        }
        "ticks" => {
            let (n, values) = numbered(arguments)?;
            Some(Inner::Decorates(Decorator::Ticks(n), values))
        }
        _ => None,
    }
}
