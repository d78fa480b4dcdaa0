ghost use Rattle.std.specs.Prelude.{◌≡◌, ℕ, true, IfOk};
ghost use Rattle.bt_nodes.specs.Heads.{is_leaf};
ghost use Rattle.bt_nodes.specs.Plain.{plain};
ghost use Rattle.bt_tick.specs.Views.{view_of, IsInWorld};
ghost use Rattle.game_rules.specs.Tick.{State, gives, tick};
ghost use Rattle.stepping.specs.Observing.{wanting};

use bt_nodes::{Node, Status, Tree};
use bt_tick::{Memory, Outcome, View, begin};
use grid_world::Intent;
use std::alloc::{AllocError, Global};

/// The status of an action or a condition that asks nothing, and the intent that it wants where it is Running. It is ticked as a
/// tree of its own.
pub(crate) fn leaf(
    alloc: Global,
    view: &View,
    node: &Node<Global>,
) -> Result<(Status, Intent), AllocError>
    requires view { IsInWorld view.now }
    requires leaf { is_leaf (plain node.now) ≡ true }
    ensures { IfOk result (λ r. (n : ℕ) (s : State) → tick (view_of view.now) (plain node.now) n s ≡ gives r.0 (wanting r.0 r.1 s)) }
{
    let tree = match Tree::new(node.copy_in(&alloc)?) {
        Ok(tree) => tree,
        // Not in a tree within its limits, whose leaves keep them alone too.
        Err(_) => return Err(AllocError),
    };
    let memory = Memory::zero(alloc, &tree)?;
    match begin(alloc, &tree, view, memory) {
        Ok(
            Outcome::Ended {
                status,
                memory: _,
                intent,
            },
        ) => Ok((status, intent)),
        Ok(Outcome::Asks { .. }) => unreachable!(),
        Err(_) => Err(AllocError),
    }
}
