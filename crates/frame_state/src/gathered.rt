ghost use Rattle.std.specs.Prelude.{◌≡◌, IfOk, map};
ghost use Rattle.frame_state.specs.Names.{AreOfAllAgents};
ghost use Rattle.std.specs.Arc.{arc_value};
ghost use Rattle.frame_parts.specs.Distances.{AllUnder};
ghost use Rattle.frame_state.specs.Contents.{signals_in, thought_for};
ghost use Rattle.frame_state.specs.Logic.{AllFitOwn};

use crate::frame_start::FrameStart;
use crate::kept_memory::KeptMemory;
use crate::thought::Thought;
use crate::turn::{Turn, Turned};
use bt_nodes::Status;
use frame_parts::{DistanceField, resolved, shared};
use grid_world::Intent;
use std::alloc::{AllocError, Global};
use std::marker::Model;
use std::sync::Arc;

// What a turn is made of: what its frame starts from, and what all agents came to there, by agent number.
#[derive(Drop)]
pub(crate) struct Gathered<'t> {
    start: Arc<FrameStart<'t>>,
    intents: Vec<Intent>,
    statuses: Arc<Vec<Status>>,
    memories: Arc<Vec<KeptMemory>>,
    // The distances that were found in the frame.
    found: Vec<DistanceField>,
}

impl<'t> Model for Gathered<'t> {
    ghost use Rattle.std.specs.Arc.{arc_value};
    ghost use Rattle.frame_state.specs.Names.{FrameOf, frame_code};
    ghost use Rattle.frame_state.specs.Logic.{AreGathered};

    ghost Value = { FrameOf };

    ghost coded = { frame_code };

    ghost view = { λ x. arc_value x.start };

    ghost invariant = { λ x. AreGathered (arc_value x.start) x.intents.items (arc_value x.statuses).items (arc_value x.memories).items x.found.items };
}

// What each agent wants to do.
fn intents_of(alloc: Global, thoughts: &[Thought]) -> Result<Vec<Intent>, AllocError>
    ensures { IfOk result (λ v. v.items ≡ map (λ p. (thought_for p).intent) thoughts.now) }
{
    let mut intents = Vec::with_capacity(alloc, thoughts.len())?;
    'thoughts: for thought in thoughts {
        intents.push(thought.intent())?;
    }
    Ok(intents)
}

// Each tick's answer.
fn statuses_of(alloc: Global, thoughts: &[Thought]) -> Result<Vec<Status>, AllocError>
    ensures { IfOk result (λ v. v.items ≡ map (λ p. (thought_for p).status) thoughts.now) }
{
    let mut statuses = Vec::with_capacity(alloc, thoughts.len())?;
    'thoughts: for thought in thoughts {
        statuses.push(thought.status())?;
    }
    Ok(statuses)
}

// Each agent's memory.
fn memories_of(alloc: Global, thoughts: &[Thought]) -> Result<Vec<KeptMemory>, AllocError>
    ensures value { IfOk result (λ v. v.items ≡ map (λ p. (thought_for p).memory) thoughts.now) }
    ensures fit { IfOk result (λ v. AllFitOwn thoughts.now v.items) }
{
    let mut memories = Vec::with_capacity(alloc, thoughts.len())?;
    'thoughts: for thought in thoughts {
        memories.push(thought.memory().share()?)?;
    }
    Ok(memories)
}

impl<'t> Gathered<'t> {
    // The thoughts of all agents in a frame, in order, and the distances that were found there; it shares their memories.
    pub(crate) fn of(
        alloc: Global,
        start: &Arc<FrameStart<'t>>,
        thoughts: &[Thought<'t>],
        found: &[DistanceField],
    ) -> Result<Gathered<'t>, AllocError>
        requires thoughts { AreOfAllAgents (arc_value start.now) thoughts.now }
        requires found { AllUnder (arc_value start.now).game.world (signals_in (arc_value start.now).game (arc_value start.now).frame) found.now }
        ensures { IfOk result (λ gathered. gathered ≡ arc_value start.now) }
    {
        let memories = memories_of(alloc, thoughts)?;
        let statuses = statuses_of(alloc, thoughts)?;
        Ok(Gathered {
            start: Arc::try_clone(start)?,
            intents: intents_of(alloc, thoughts)?,
            statuses: Arc::new(alloc, statuses)?,
            memories: Arc::new(alloc, memories)?,
            found: shared(alloc, found)?,
        })
    }

    // What all agents want to do, applied by agent number.
    fn turned(&self, alloc: Global) -> Result<Turned<'t>, AllocError>
        ensures { IfOk result (λ turned. turned ≡ self.now) }
    {
        let start: &FrameStart<'t> = &self.start;
        let world = resolved(alloc, start.world(), start.signals(), &self.intents)?;
        let known = start.known().with(&self.found)?;
        Ok(Turned {
            session: start.session(),
            frame: start.frame(),
            world: Arc::new(alloc, world)?,
            memories: Arc::try_clone(&self.memories)?,
            statuses: Arc::try_clone(&self.statuses)?,
            known,
            next: None,
        })
    }

    // The same as one word, with what it brings for the frame after it.
    pub(crate) fn turn(&self, alloc: Global) -> Result<Turn<'t>, AllocError>
        ensures { IfOk result (λ turn. turn ≡ self.now) }
    {
        let turned = self.turned(alloc)?;
        let mut turn = Turn::new(alloc, turned)?;
        turn.prepare(alloc)?;
        Ok(turn)
    }
}
