// What a leaf comes to.

ghost use Rattle.std.specs.Prelude.{◌≡◌, if◌then◌else◌};
ghost use Rattle.bt_nodes.specs.Plain.{plain};
ghost use Rattle.bt_tick.specs.LeafResults.{deed_of};
ghost use Rattle.bt_tick.specs.Views.{view_of, IsInWorld, IsNearestIn};

use crate::nearest::Nearest;
use crate::view::View;
use bt_nodes::{Node, Status};
use game_rules::LeafResult;
use grid_world::Intent;
use std::alloc::Allocator;

/// What an action or a condition that asks nothing comes to; None for a node of any other kind.
#[inline(always)]
pub(crate) fn leaf_result<T: Allocator>(
    view: &View,
    nearest: &mut Nearest,
    node: &Node<T>,
) -> Option<LeafResult>
    requires world { IsInWorld view.now }
    requires nearest { IsNearestIn (view_of view.now) nearest.old }
    ensures leaf_result { result ≡ deed_of (view_of view.now) (plain node.now) }
    ensures nearest { IsNearestIn (view_of view.now) nearest.new }
{
    match node {
        Node::Take => {
            if view.carries() {
                return Some(LeafResult::Says(true));
            }
            if view.is_on_item() {
                return Some(LeafResult::Wants(Intent::Take));
            }
            Some(LeafResult::Says(false))
        }
        Node::Drop => {
            if !view.carries() {
                return Some(LeafResult::Says(false));
            }
            if view.is_on_item() {
                return Some(LeafResult::Says(false));
            }
            Some(LeafResult::Wants(Intent::Drop))
        }
        Node::At(place) => Some(LeafResult::Says(view.stands_on(*place))),
        Node::Carrying => Some(LeafResult::Says(view.carries())),
        Node::Item => Some(LeafResult::Says(view.is_on_item())),
        Node::Signal(signal) => Some(LeafResult::Says(view.has_signal(*signal))),
        Node::Near(within) => Some(LeafResult::Says(nearest.is_near(view, *within))),
        Node::Give(letter) => {
            let agent = letter.number();
            if view.can_give(agent) {
                return Some(LeafResult::Wants(Intent::Give(agent)));
            }
            Some(LeafResult::Says(false))
        }
        _ => None,
    }
}

/// The status of a leaf that says this.
pub(crate) fn status_of(holds: bool) -> Status
    ensures { result ≡ (if holds then Status.Success else Status.Failure) }
{
    if holds {
        Status::Success
    } else {
        Status::Failure
    }
}
