ghost use Rattle.std.specs.Prelude.{◌≡◌, IfOk, IsOk, box_value, true, false};
ghost use Rattle.std.specs.Arc.{arc_value};
ghost use Rattle.frame_parts.specs.Distances.{AllUnder};
ghost use Rattle.frame_state.specs.Names.{AreOfAllAgents};
ghost use Rattle.frame_state.specs.Contents.{signals_in};
ghost use Rattle.frame_state.specs.Logic.{IsLogicStep};

use crate::frame_start::FrameStart;
use crate::gathered::Gathered;
use crate::gathering::Gathering;
use crate::logic_step::LogicStep;
use crate::params::FrameParams;
use crate::thought::Thought;
use crate::turn::Turn;
use game_session::Session;
use job_core::names::JobName;
use std::alloc::{AllocError, Global};
use std::marker::Model;
use std::sync::Arc;

// What a frame starts from, and what is gathered in it.
#[derive(Drop)]
struct Spread<'t> {
    start: Arc<FrameStart<'t>>,
    gathering: Box<Gathering<'t>>,
}

impl<'t> Model for Spread<'t> {
    ghost use Rattle.std.specs.Prelude.{box_value};
    ghost use Rattle.std.specs.Arc.{arc_value};
    ghost use Rattle.frame_parts.specs.Distances.{AllUnder};
    ghost use Rattle.frame_state.specs.Names.{FrameOf, AreOfAllAgents, frame_code};
    ghost use Rattle.frame_state.specs.Contents.{signals_in};

    ghost Value = { FrameOf };

    ghost coded = { frame_code };

    ghost view = { λ s. arc_value s.start };

    ghost invariant = { λ s. AreOfAllAgents (arc_value s.start) (box_value s.gathering).thoughts.items
        × AllUnder (arc_value s.start).game.world (signals_in (arc_value s.start).game (arc_value s.start).frame) (box_value s.gathering).found.items };
}

impl<'t> Spread<'t> {
    // What comes of it, with what that brings for the frame after.
    fn turn(&self, alloc: Global) -> Result<Turn<'t>, AllocError>
        ensures { IfOk result (λ turn. turn ≡ self.now) }
    {
        let gathered = Gathered::of(
            alloc,
            &self.start,
            &self.gathering.thoughts,
            &self.gathering.found,
        )?;
        Ok(gathered.turn(alloc)?)
    }
}

/// A frame's logic, at its start or with the thoughts of all agents.
#[derive(Drop)]
pub struct LogicTask<'t> {
    session: &'t Session,
    frame: u32,
    spread: Option<Spread<'t>>,
}

impl<'t> Model for LogicTask<'t> {
    ghost use Rattle.std.specs.Prelude.{◌≡◌, IfSome, is_some};
    ghost use Rattle.frame_state.specs.Names.{LogicOf, frame_of, logic_code};

    ghost Value = { LogicOf };

    ghost coded = { logic_code };

    ghost view = { λ t. record { game = t.session.now; frame = t.frame; has_spread = is_some t.spread } };

    ghost invariant = { λ t. IfSome t.spread (λ s. s ≡ frame_of t.session.now t.frame) };
}

// These thoughts once more; their memories are shared.
fn shared_thoughts<'t>(
    alloc: Global,
    thoughts: &[Thought<'t>],
) -> Result<Vec<Thought<'t>>, AllocError>
    ensures { IfOk result (λ them. them.items ≡ thoughts.now) }
{
    let mut them = Vec::with_capacity(alloc, thoughts.len())?;
    'thoughts: for thought in thoughts {
        them.push(thought.share()?)?;
    }
    Ok(them)
}

impl<'t> LogicTask<'t> {
    /// The logic of a frame at its start, where its thinks are not spread yet. Takes no memory.
    pub fn start(
        _alloc: Global,
        session: &'t Session,
        frame: u32,
    ) -> Result<LogicTask<'t>, AllocError>
        ensures value { IfOk result (λ t. t ≡ record { game = session.now; frame = frame; has_spread = false }) }
        ensures made { IsOk result }
    {
        Ok(LogicTask {
            session,
            frame,
            spread: None,
        })
    }

    /// The logic of a frame after all its thinks. The thoughts are those of all agents, in order; it shares their
    /// memories, and takes memory three times at most, however many they are.
    pub fn turn(
        alloc: Global,
        params: &FrameParams<'t>,
        thoughts: &[Thought<'t>],
    ) -> Result<LogicTask<'t>, AllocError>
        requires { AreOfAllAgents params.now thoughts.now }
        ensures { IfOk result (λ t. t ≡ record { game = params.now.game; frame = params.now.frame; has_spread = true }) }
    {
        let gathering = Gathering {
            thoughts: shared_thoughts(alloc, thoughts)?,
            found: params.found(alloc)?,
        };
        let gathering = Box::new(alloc, gathering)?;
        Ok(LogicTask::gathered(params.share()?, gathering))
    }

    /// The same with what is gathered itself. Takes no memory.
    pub fn gathered(start: Arc<FrameStart<'t>>, gathering: Box<Gathering<'t>>) -> LogicTask<'t>
        requires thoughts { AreOfAllAgents (arc_value start) (box_value gathering).thoughts.items }
        requires found { AllUnder (arc_value start).game.world (signals_in (arc_value start).game (arc_value start).frame) (box_value gathering).found.items }
        ensures { result ≡ record { game = (arc_value start.entry).game; frame = (arc_value start.entry).frame; has_spread = true } }
    {
        LogicTask {
            session: start.session(),
            frame: start.frame(),
            spread: Some(Spread { start, gathering }),
        }
    }

    /// The job whose task it is.
    pub fn name(&self) -> JobName
        ensures { result ≡ JobName.Logic self.now.frame }
    {
        JobName::Logic { frame: self.frame }
    }

    /// Begins the frame, or applies what all agents want to do, by agent number. At its start it takes no memory. A turn brings
    /// what the frame after it starts from: who keeps it makes nothing.
    pub fn work(&self, alloc: Global) -> Result<LogicStep<'t>, AllocError>
        ensures step { IfOk result (λ step. IsLogicStep self.now step) }
        ensures begins { self.now.has_spread ≡ false → IsOk result }
    {
        match &self.spread {
            None => Ok(LogicStep::Begins),
            Some(spread) => {
                let turn = spread.turn(alloc)?;
                Ok(LogicStep::Turned(turn))
            }
        }
    }
}
