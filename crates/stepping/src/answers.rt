ghost use Rattle.std.specs.Prelude.{◌≡◌, IfOk};
ghost use Rattle.grid_world.specs.Ground.{emptied};
ghost use Rattle.bt_nodes.specs.Bounds.{Fits};
ghost use Rattle.bt_nodes.specs.Trees.{plain_of};
ghost use Rattle.bt_tick.specs.Views.{view_of, IsInWorld};
ghost use Rattle.game_rules.specs.Thought.{all_ways};

use bt_nodes::Tree;
use bt_tick::{Memory, Outcome, View};
use frame_parts::{DistanceCache, begun, cell_on, gone_on};
use grid_world::Answer;
use std::alloc::{AllocError, Global};

/// The answers to all path questions of an agent's tick.
pub(crate) fn all_answers(
    alloc: Global,
    known: &DistanceCache,
    view: &View,
    tree: &Tree<Global>,
    memory: &Memory,
) -> Result<Vec<Answer>, AllocError>
    requires fits { Fits (plain_of tree.now) memory.now }
    requires agent { IsInWorld view.now }
    requires ground { emptied known.now.ground ≡ emptied view.now.world.now }
    requires signals { known.now.signals ≡ view.now.signals }
    ensures { IfOk result (λ answers. answers.items ≡ all_ways (view_of view.now) (plain_of tree.now) memory.now) }
{
    let cell = cell_on(view.world, view.agent);
    let mut answers = Vec::new(alloc);
    let mut outcome = begun(alloc, alloc, tree, view, memory)?;
    'asked: for _asked in 0..tree.size() + 1 {
        match outcome {
            Outcome::Ended {
                status: _status,
                memory: _memory,
                intent: _intent,
            } => return Ok(answers),
            Outcome::Asks { place: _, pending } => {
                let (answer, _found) = known.way(alloc, alloc, pending.place(), cell)?;
                answers.push(answer)?;
                outcome = gone_on(alloc, view, pending, answer)?;
            }
        }
    }
    unreachable!()
}
