// What agents want to do in the next frame, by the ticks of their trees.
ghost use Rattle.std.specs.Prelude.{◌≡◌, ◌<◌, IfOk, length, [], slice_index_or};
ghost use Rattle.bt_nodes.specs.Bounds.{Fits};
ghost use Rattle.bt_nodes.specs.Plain.{Does};
ghost use Rattle.bt_nodes.specs.Trees.{plain_of};
ghost use Rattle.bt_nodes.specs.declared.leaf.Leaf.TheVariants.{Carrying};
ghost use Rattle.bt_tick.specs.Views.{view_of, IsInWorld};
ghost use Rattle.game_rules.specs.Thought.{thought};
ghost use Rattle.stepping.specs.Minds.{GoesOnFrom};
ghost use Rattle.stepping.specs.Played.{sight};
ghost use Rattle.btworld_c.specs.Intents.{intents_under};

use bt_nodes::Tree;
use bt_tick::{Memory, Outcome, Pending, View};
use frame_parts::{begun, gone_on};
use grid_world::{Intent, Signals};
use std::alloc::{AllocError, Global};
use stepping::Stepping;

// Goes on with a tick that stands at a question, by the way to the place for which it asks.
fn answered<'t>(
    alloc: Global,
    held: &Stepping,
    view: &View,
    pending: Pending<'t, Global, Global>,
) -> Result<Outcome<'t, Global, Global>, AllocError>
    requires agent { view.now.agent < length held.now.game.trees }
    requires inside { IsInWorld view.now }
    requires world { view.now.world.now ≡ held.now.position.world }
    ensures { IfOk result (GoesOnFrom (view_of view.now) pending.entry) }
{
    let answer = held.way_to(alloc, view.signals, view.agent, pending.place())?;
    Ok(gone_on(alloc, view, pending, answer)?)
}

// What an agent of a game wants to do by its tick.
fn intent_of(
    alloc: Global,
    held: &Stepping,
    view: &View,
    tree: &Tree<Global>,
    memory: &Memory,
) -> Result<Intent, AllocError>
    requires fits { Fits (plain_of tree.now) memory.now }
    requires agent { view.now.agent < length held.now.game.trees }
    requires inside { IsInWorld view.now }
    requires world { view.now.world.now ≡ held.now.position.world }
    ensures { IfOk result (λ intent. intent ≡ (thought (view_of view.now) (plain_of tree.now) memory.now).intent) }
{
    let mut outcome = begun(alloc, alloc, tree, view, memory)?;
    'asked: for _asked in 0..tree.size() + 1 {
        match outcome {
            Outcome::Ended {
                status: _status,
                memory: _memory,
                intent,
            } => return Ok(intent),
            Outcome::Asks { place: _, pending } => {
                outcome = answered(alloc, held, view, pending)?;
            }
        }
    }
    unreachable!()
}

// What an agent wants to do.
fn intent_at(
    alloc: Global,
    held: &Stepping,
    signals: Signals,
    agent: u32,
) -> Result<Intent, AllocError>
    requires { agent < length held.now.game.trees }
    ensures { IfOk result (λ intent. intent ≡ (thought (sight held.now.position.world signals agent)
        (slice_index_or held.now.game.trees agent (Does Carrying)) (slice_index_or held.now.position.memories agent [])).intent) }
{
    let view = View {
        world: held.world(),
        signals,
        agent,
    };
    intent_of(
        alloc,
        held,
        &view,
        held.level().tree_of(agent),
        &held.memories()[agent as usize],
    )
}

// What each agent wants to do, by agent number.
pub(crate) fn intents(
    alloc: Global,
    held: &Stepping,
    signals: Signals,
) -> Result<Vec<Intent>, AllocError>
    ensures intents { IfOk result (λ intents. intents.items ≡ intents_under held.now signals) }
    ensures many { IfOk result (λ intents. length intents.items ≡ length held.now.position.world.agents) }
    ensures one_each { length held.now.position.memories ≡ length held.now.game.trees }
{
    let _ = held.memories();
    let count = held.world().agents().len();
    let mut them = Vec::with_capacity(alloc, count)?;
    'agents: for agent in 0..count as u32 {
        them.push(intent_at(alloc, held, signals, agent)?)?;
    }
    Ok(them)
}
