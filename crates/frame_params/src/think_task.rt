ghost use Rattle.std.specs.Prelude.{◌≡◌, ◌+◌, ◌<◌, IfOk, length};
ghost use Rattle.std.specs.Arc.{arc_value};

use crate::parked::{Parked, ParkedTick};
use crate::resume_point::ResumePoint;
use crate::think_step::ThinkStep;
use crate::ticking::{begun, copy_gone_on};
use bt_tick::{Outcome, Pending};
use frame_state::{FrameParams, FrameStart, KeptMemory, Thought, Way};
use game_session::Session;
use job_core::names::JobName;
use std::alloc::{AllocError, Allocator, Global};
use std::marker::Model;
use std::sync::Arc;

/// An agent's thought in a frame, at its start or with the answer to the question at which it stood.
#[derive(Drop)]
pub struct ThinkTask<'t> {
    start: Arc<FrameStart<'t>>,
    agent: u32,
    resume_point: ResumePoint<'t>,
}

impl<'t> Model for ThinkTask<'t> {
    ghost use Rattle.std.specs.Prelude.{◌<◌, length};
    ghost use Rattle.std.specs.Arc.{arc_value};
    ghost use Rattle.frame_state.specs.Names.{ThinkOf, think_code};

    ghost Value = { ThinkOf };

    ghost coded = { think_code };

    ghost use Rattle.frame_params.specs.Thinks.{IsResumePoint, answered_at};

    ghost view = { λ t. record {
      game = (arc_value t.start).game;
      frame = (arc_value t.start).frame;
      agent = t.agent;
      answered = answered_at t.resume_point;
    } };

    ghost invariant = { λ t. (t.agent < length (arc_value t.start).game.trees)
        × IsResumePoint (arc_value t.start).game (arc_value t.start).frame t.agent t.resume_point };
}

impl<'t> ThinkTask<'t> {
    ghost use Rattle.frame_params.specs.Thinks.{ThinksTo, StandsAt, IsThinkStep};

    /// An agent's thought in a frame at its start. What it reads is the frame's own, so nothing is copied.
    pub fn start(
        _alloc: Global,
        params: &FrameParams<'t>,
        agent: u32,
    ) -> Result<ThinkTask<'t>, AllocError>
        requires { agent < length params.now.game.trees }
        ensures { IfOk result (λ t. t ≡ record { game = params.now.game; frame = params.now.frame; agent = agent; answered = 0 }) }
    {
        Ok(ThinkTask::start_with(params.share()?, agent))
    }

    /// The same with what the frame starts from itself. Takes no memory.
    #[inline(always)]
    pub fn start_with(start: Arc<FrameStart<'t>>, agent: u32) -> ThinkTask<'t>
        requires { agent < length (arc_value start).game.trees }
        ensures { result ≡ record { game = (arc_value start.entry).game; frame = (arc_value start.entry).frame; agent = agent; answered = 0 } }
    {
        ThinkTask {
            start,
            agent,
            resume_point: ResumePoint::Start,
        }
    }

    /// The thought of a parked tick of the frame, with the way of its question. The tick is shared with the parked one.
    #[inline(always)]
    pub fn resume(
        _alloc: Global,
        params: &FrameParams<'t>,
        parked: &Parked<'t>,
        way: &Way<'t>,
    ) -> Result<ThinkTask<'t>, AllocError>
        requires game { parked.now.game ≡ params.now.game }
        requires frame { parked.now.frame ≡ params.now.frame }
        requires way { way.now ≡ parked.now }
        ensures { IfOk result (λ t. t ≡ record { game = parked.now.game; frame = parked.now.frame; agent = parked.now.agent; answered = parked.now.question + 1 }) }
    {
        Ok(ThinkTask::resume_with(params.share()?, parked, way)?)
    }

    /// The same with what the frame starts from itself.
    #[inline(always)]
    pub fn resume_with(
        start: Arc<FrameStart<'t>>,
        parked: &Parked<'t>,
        way: &Way<'t>,
    ) -> Result<ThinkTask<'t>, AllocError>
        requires game { parked.now.game ≡ (arc_value start).game }
        requires frame { parked.now.frame ≡ (arc_value start).frame }
        requires way { way.now ≡ parked.now }
        ensures { IfOk result (λ t. t ≡ record { game = parked.now.game; frame = parked.now.frame; agent = parked.now.agent; answered = parked.now.question + 1 }) }
    {
        // A tick asks at most as often as its tree has nodes.
        let tick: &ParkedTick<'t> = &parked.tick;
        let nodes = tick.session().tree_of(tick.agent()).size();
        prove!(u64::from(tick.question()) < nodes);
        Ok(ThinkTask {
            start,
            agent: tick.agent(),
            resume_point: ResumePoint::Answered {
                tick: Arc::try_clone(&parked.tick)?,
                answer: way.answer(),
            },
        })
    }

    fn session(&self) -> &'t Session
        ensures { result.now ≡ self.now.game }
    {
        self.start.session()
    }

    /// The job whose task it is.
    pub fn name(&self) -> JobName
        ensures { result ≡ JobName.Think self.now.frame self.now.agent }
    {
        JobName::Think {
            frame: self.frame(),
            agent: self.agent,
        }
    }

    fn frame(&self) -> u32
        ensures { result ≡ self.now.frame }
    {
        self.start.frame()
    }

    /// What its frame starts from.
    pub fn into_start(self) -> Arc<FrameStart<'t>>
        ensures { arc_value result ≡ record { game = self.entry.game; frame = self.entry.frame } }
    {
        let ThinkTask {
            start,
            agent: _,
            resume_point: _resume_point,
        } = self;
        start
    }

    // How many of its questions are answered.
    fn answered(&self) -> u32
        ensures value { result ≡ self.now.answered }
        ensures few { result < 256 }
    {
        match &self.resume_point {
            ResumePoint::Start => 0,
            ResumePoint::Answered { tick, .. } => tick.question() + 1,
        }
    }

    // The tick at its next question.
    fn parked(
        &self,
        alloc: Global,
        pending: Pending<'t, Global, Global>,
    ) -> Result<Parked<'t>, AllocError>
        requires { StandsAt self.now.game self.now.frame self.now.agent self.now.answered pending }
        ensures { IfOk result (λ parked. parked ≡ record { game = self.now.game; frame = self.now.frame; agent = self.now.agent; question = self.now.answered }) }
    {
        let tick = ParkedTick {
            session: self.session(),
            frame: self.frame(),
            agent: self.agent,
            question: self.answered(),
            pending,
        };
        Ok(Parked {
            tick: Arc::new(alloc, tick)?,
        })
    }

    // The step of a tick that came to this. At a question it is moved out of where it was ticked.
    fn step<A: Allocator + Clone>(
        &self,
        alloc: Global,
        outcome: Outcome<'t, Global, A>,
    ) -> Result<ThinkStep<'t>, AllocError>
        requires there { self.now.agent < length self.now.game.trees }
        requires thinks { ThinksTo self.now.game self.now.frame self.now.agent self.now.answered outcome }
        ensures { IfOk result (λ step. IsThinkStep self.now step) }
    {
        match outcome {
            Outcome::Ended {
                status,
                memory,
                intent,
            } => {
                let memory = KeptMemory::new(alloc, memory)?;
                Ok(ThinkStep::Ended(Thought::at_end(
                    self.session(),
                    self.frame(),
                    self.agent,
                    self.answered(),
                    status,
                    memory,
                    intent,
                )))
            }
            Outcome::Asks { place: _, pending } => {
                let pending = pending.move_in(alloc)?;
                Ok(ThinkStep::Asks(self.parked(alloc, pending)?))
            }
        }
    }

    /// Ticks the tree to its end or to its next question, in the world of the frame before, whatever other agents came
    /// to. It works on a copy of the memory or of the tick that it has.
    pub fn work(&self, alloc: Global) -> Result<ThinkStep<'t>, AllocError>
        ensures { IfOk result (λ step. IsThinkStep self.now step) }
    {
        self.work_in(alloc, alloc)
    }

    /// The same, where what is kept for the work alone lies in `scratch`: the open nodes, the wants, and the copy of a tick
    /// that goes on. A tick that asks nothing takes memory from `alloc` twice, for the agent's memory and for its being
    /// shared.
    pub fn work_in<A: Allocator + Clone>(
        &self,
        alloc: Global,
        scratch: A,
    ) -> Result<ThinkStep<'t>, AllocError>
        ensures { IfOk result (λ step. IsThinkStep self.now step) }
    {
        let start: &FrameStart<'t> = &self.start;
        match &self.resume_point {
            ResumePoint::Start => {
                let outcome = begun(alloc, scratch, start, self.agent)?;
                self.step(alloc, outcome)
            }
            ResumePoint::Answered { tick, answer } => {
                let outcome = copy_gone_on(scratch, start, self.agent, tick.pending(), *answer)?;
                self.step(alloc, outcome)
            }
        }
    }
}
