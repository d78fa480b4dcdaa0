ghost use Rattle.std.specs.Prelude.{◌≡◌, IfOk};
ghost use Rattle.grid_world.specs.Ground.{emptied};
ghost use Rattle.bt_nodes.specs.Bounds.{Fits};
ghost use Rattle.bt_nodes.specs.Trees.{plain_of};
ghost use Rattle.bt_tick.specs.Views.{view_of, IsInWorld};
ghost use Rattle.stepping.specs.Answered.{node_answers};

use crate::answers::all_answers;
use crate::observer::Observer;
use crate::progress::Progress;
use bt_nodes::{Status, Tree};
use bt_tick::{Memory, View};
use frame_parts::DistanceCache;
use std::alloc::{AllocError, Global};

/// What each node of an agent's tree answers in its tick, in preorder; `None` for a node that is not ticked. Distances that are
/// not known are searched for, once for each question. It takes the time of two ticks, and besides that of a tree of one node for
/// each action and each condition that is ticked.
pub(crate) fn node_answers(
    alloc: Global,
    known: &DistanceCache,
    view: &View,
    tree: &Tree<Global>,
    memory: &Memory,
) -> Result<Vec<Option<Status>>, AllocError>
    requires fits { Fits (plain_of tree.now) memory.now }
    requires agent { IsInWorld view.now }
    requires ground { emptied known.now.ground ≡ emptied view.now.world.now }
    requires signals { known.now.signals ≡ view.now.signals }
    ensures { IfOk result (λ told. told.items ≡ node_answers (view_of view.now) (plain_of tree.now) memory.now) }
{
    let answers = all_answers(alloc, known, view, tree, memory)?;
    let observer = Observer {
        alloc,
        tree,
        view,
        answers: &answers,
    };
    let mut progress = Progress::begin(alloc, tree, memory)?;
    observer.observe(&mut progress, tree.root(), 0)?;
    Ok(progress.told)
}
