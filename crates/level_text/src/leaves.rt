// How actions and conditions are spelled.
ghost use Rattle.std.specs.Prelude.{◌≡◌};
ghost use Rattle.serde_json.specs.View.{items_view};
ghost use Rattle.level_text.specs.Leaves.{leaf_of as spelled_leaf, leaf_head, leaf_argument};

use crate::argument::{Argument, count_of, if_empty, letter_of, place_of, signal_of};
use bt_nodes::Leaf;
use serde_json::Value;

/// The leaf of a head, or none where the arguments don't fit it.
pub(crate) fn leaf_of(head: &str, arguments: &[Value]) -> Option<Leaf>
    ensures { result ≡ spelled_leaf head.now (items_view arguments.now) }
{
    match head {
        "take" => if_empty(arguments, Leaf::Take),
        "drop" => if_empty(arguments, Leaf::Drop),
        "at" => Some(Leaf::At(place_of(arguments)?)),
        "carrying" => if_empty(arguments, Leaf::Carrying),
        "item" => if_empty(arguments, Leaf::Item),
        "signal" => Some(Leaf::Signal(signal_of(arguments)?)),
        "near" => Some(Leaf::Near(count_of(arguments)?)),
        "give" => Some(Leaf::Give(letter_of(arguments)?)),
        _ => None,
    }
}

/// The word that names a leaf.
pub(crate) fn head_of_leaf(leaf: Leaf) -> &'static str
    ensures { result.now ≡ leaf_head leaf }
{
    match leaf {
        Leaf::Take => "take",
        Leaf::Drop => "drop",
        Leaf::At(_) => "at",
        Leaf::Carrying => "carrying",
        Leaf::Item => "item",
        Leaf::Signal(_) => "signal",
        Leaf::Near(_) => "near",
        Leaf::Give(_) => "give",
    }
}

pub(crate) fn argument_of_leaf(leaf: Leaf) -> Option<Argument>
    ensures { result ≡ leaf_argument leaf }
{
    match leaf {
        Leaf::At(place) => Some(Argument::Place(place)),
        Leaf::Signal(signal) => Some(Argument::Signal(signal)),
        Leaf::Near(distance) => Some(Argument::Count(distance)),
        Leaf::Give(letter) => Some(Argument::Agent(letter)),
        Leaf::Take | Leaf::Drop | Leaf::Carrying | Leaf::Item => None,
    }
}
