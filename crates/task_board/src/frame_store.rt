ghost use Rattle.std.specs.Prelude.{◌≡◌, ◌<◌, ◌≤◌, ◌%◌, ◌+◌, ℕ, [], IfOk, Some, None, true, false, box_value, length, replicate, slice_get, slice_set, vec_capacity};
ghost use Rattle.std.specs.Arc.{arc_value};
ghost use Rattle.std.specs.Option.{IsSomeAnd};
ghost use Rattle.job_core.specs.Core.{State};
ghost use Rattle.job_core.specs.declared.names.Event.TheVariants.{Resume, Spread, Finish, Emit};
ghost use Rattle.job_core.specs.declared.names.JobName.TheVariants.{Logic, Path};
ghost use Rattle.board_model.specs.Stored.{stored_first, asked, parts};
ghost use Rattle.board_model.specs.Needed.{HasParts, HasTurn, IsInSlot, IsAsked};
ghost use Rattle.frame_state.specs.Names.{frame_of, logic_of};
ghost use Rattle.frame_state.specs.Logic.{IsRoomIn};
ghost use Rattle.frame_params.specs.Tasks.{IsTaskAt};
ghost use Rattle.frame_params.specs.Leases.{IsLeaseOf};
ghost use Rattle.task_board.specs.FrameStore.{Stores, IsWanted, IsBeforeLast, next_done, sizes};
ghost use Rattle.task_board.specs.Dones.{game_done, job_done};

use super::asking::Asking;
use super::done::Done;
use super::retired::Retired;
use super::shown::Shown;
use super::thoughts::Thoughts;
use frame_params::{
    DrawTask, FrameParams, FrameStart, Gathering, Lease, LogicTask, NextFrame, Parked, PathTask,
    Slots, Task, ThinkTask, Turn, TurnedWorld, Way,
};
use game_session::Session;
use job_core::names::JobName;
use std::alloc::{AllocError, Global};
use std::marker::Model;
use std::mem;
use std::sync::Arc;

/// What the work of the frames under way came to, for the tasks that are made of it: the frame store.
/// What most events touch lies first, behind the queues and counters of the jobs.
pub struct FrameStore<'t> {
    // By agent number.
    asking: Vec<Asking<'t>>,
    slots: Slots<'t>,
    // What is left over of the last events, until somebody takes it.
    retired: Retired<'t>,
    thoughts: Thoughts<'t>,
    // Of the frames in the slots.
    turns: Vec<Option<Turn<'t>>>,
    // Those of the next frame to spread.
    next: Option<FrameParams<'t>>,
    session: &'t Session,
}

impl<'t> Drop for FrameStore<'t> {
    fn drop(self) {
        let Self {
            session: _,
            next: _,
            slots: _,
            asking: _,
            thoughts: _,
            turns: _,
            retired: _,
        } = self;
    }
}

impl<'t> Model for FrameStore<'t> {
    ghost use Rattle.task_board.specs.FrameStore.{FrameStoreOf, IsFrameStore, stored_as};
    ghost use Rattle.task_board.specs.FrameStoreCode.{frame_store_code};

    ghost Value = { FrameStoreOf };

    ghost coded = { frame_store_code };

    ghost view = { λ s. record { game = s.session.now; stored = stored_as s.next s.slots s.asking.items s.thoughts s.turns.items } };

    ghost invariant = { λ s. IsFrameStore s.session.now s.next s.slots s.asking.items s.thoughts s.turns.items };
}

fn no_questions<'t>(
    alloc: Global,
    session: &'t Session,
    agents: u32,
) -> Result<Vec<Asking<'t>>, AllocError>
    ensures { IfOk result (λ asking. asking.items ≡ replicate agents (record { game = session.now; asked = None })) }
{
    let mut asking = Vec::with_capacity(alloc, agents as usize)?;
    'agents: for _agent in 0..agents {
        asking.push(Asking::new(session))?;
    }
    Ok(asking)
}

fn no_turns<'t>(alloc: Global, slots: u32) -> Result<Vec<Option<Turn<'t>>>, AllocError>
    ensures { IfOk result (λ turns. turns.items ≡ replicate slots None) }
{
    let mut turns = Vec::with_capacity(alloc, slots as usize)?;
    'slots: for _slot in 0..slots {
        turns.push(None)?;
    }
    Ok(turns)
}

/// What a turn brings for the frame after it, where a job came to a turn.
#[inline(always)]
pub fn next_of<'t>(alloc: Global, done: &mut Done<'t>) -> Result<Option<NextFrame<'t>>, AllocError>
    requires { IsBeforeLast done.old }
    ensures next { IfOk result (λ next. next ≡ next_done done.old) }
    ensures done { done.new ≡ done.old }
{
    match done {
        Done::Turned(turn) => Ok(Some(turn.take_next(alloc)?)),
        Done::Thought(_) | Done::Way(_) | Done::Drawn(_) => Ok(None),
    }
}

impl<'t> FrameStore<'t> {
    /// A frame store of nothing but the parameters of the first frame, with room for each slot and agent.
    pub fn new(
        alloc: Global,
        session: &'t Session,
        slots: u32,
        agents: u32,
    ) -> Result<FrameStore<'t>, AllocError>
        requires slots { 1 ≤ slots }
        requires agents { agents ≡ length session.now.trees }
        ensures game { IfOk result (λ frame_store. frame_store.game ≡ session.now) }
        ensures slots { IfOk result (λ frame_store. (sizes frame_store).slots ≡ slots) }
        ensures first { IfOk result (λ frame_store. frame_store.stored ≡ stored_first (sizes frame_store)) }
    {
        Ok(FrameStore {
            session,
            next: Some(FrameParams::first(alloc, session)?),
            slots: Slots::new(alloc, slots)?,
            asking: no_questions(alloc, session, agents)?,
            thoughts: Thoughts::new(alloc, session, agents)?,
            turns: no_turns(alloc, slots)?,
            retired: Retired::nothing(),
        })
    }

    // The parameters of a frame that is in its slot.
    #[inline(always)]
    fn params(&self, frame: u32) -> &FrameParams<'t>
        requires { IsInSlot (sizes self.now) self.now.stored frame }
        ensures { result.now ≡ frame_of self.now.game frame }
    {
        match self.slots.at(frame) {
            Some(params) => params,
            None => unreachable!(),
        }
    }

    // The last question of an agent.
    #[inline(always)]
    fn asking_of(&self, agent: u32) -> &Asking<'t>
        requires { agent < length self.now.stored.asking }
        ensures { (result.now.game ≡ self.now.game) × (slice_get self.now.stored.asking agent ≡ Some result.now.asked) }
    {
        &self.asking[agent as usize]
    }

    // The turn of a frame that is not shown yet.
    #[inline(always)]
    fn turn_of(&self, frame: u32) -> &Turn<'t>
        requires { HasTurn (sizes self.now) self.now.stored frame }
        ensures { result.now ≡ frame_of self.now.game frame }
    {
        match &self.turns[frame as usize % self.turns.len()] {
            Some(turn) => turn,
            None => unreachable!(),
        }
    }

    // The task of a frame's logic that stands at this step.
    #[inline(always)]
    fn logic_task(&self, alloc: Global, frame: u32, step: u32) -> Result<LogicTask<'t>, AllocError>
        requires { HasParts (sizes self.now) self.now.stored (JobName.Logic frame) step }
        ensures { IfOk result (λ task. IsTaskAt self.now.game (JobName.Logic frame) step (Task.Logic task)) }
    {
        if step == 0 {
            return LogicTask::start(alloc, self.session, frame);
        }
        self.thoughts.logic(alloc, self.params(frame))
    }

    // What a frame that is in its slot starts from: as it is leased, or counted once more.
    #[inline(always)]
    fn start_of(&self, frame: u32, lease: &mut Lease<'t>) -> Result<Arc<FrameStart<'t>>, AllocError>
        requires slot { IsInSlot (sizes self.now) self.now.stored frame }
        requires lease { IsLeaseOf self.now.game lease.old }
        ensures start { IfOk result (λ start. arc_value start ≡ frame_of self.now.game frame) }
        ensures lease { IsLeaseOf self.now.game lease.new }
    {
        match lease.take_start(frame) {
            Some(start) => Ok(start),
            None => Ok(self.params(frame).share()?),
        }
    }

    // The world after a frame that is not shown yet, likewise.
    #[inline(always)]
    fn world_of(&self, frame: u32, lease: &mut Lease<'t>) -> Result<TurnedWorld<'t>, AllocError>
        requires turn { HasTurn (sizes self.now) self.now.stored frame }
        requires lease { IsLeaseOf self.now.game lease.old }
        ensures world { IfOk result (λ world. world ≡ frame_of self.now.game frame) }
        ensures lease { IsLeaseOf self.now.game lease.new }
    {
        match lease.take_world(frame) {
            Some(world) => Ok(world),
            None => Ok(self.turn_of(frame).clone_world()?),
        }
    }

    // The task of an agent's thought that stands at this step.
    #[inline(always)]
    fn think_task(
        &self,
        frame: u32,
        agent: u32,
        step: u32,
        lease: &mut Lease<'t>,
    ) -> Result<ThinkTask<'t>, AllocError>
        requires parts { HasParts (sizes self.now) self.now.stored (JobName.Think frame agent) step }
        requires lease { IsLeaseOf self.now.game lease.old }
        ensures task { IfOk result (λ task. IsTaskAt self.now.game (JobName.Think frame agent) step (Task.Think task)) }
        ensures lease { IsLeaseOf self.now.game lease.new }
    {
        let start = self.start_of(frame, lease)?;
        if step == 0 {
            return Ok(ThinkTask::start_with(start, agent));
        }
        let asking = self.asking_of(agent);
        let task = ThinkTask::resume_with(start, asking.parked(), asking.way())?;
        Ok(task)
    }

    /// The task of a job that stands at this step. Where the lease has what its frame's tasks share, that goes into the task.
    #[inline(always)]
    pub fn task(
        &self,
        alloc: Global,
        job: JobName,
        step: u32,
        lease: &mut Lease<'t>,
    ) -> Result<Task<'t>, AllocError>
        requires parts { HasParts (sizes self.now) self.now.stored job step }
        requires lease { IsLeaseOf self.now.game lease.old }
        ensures task { IfOk result (IsTaskAt self.now.game job step) }
        ensures lease { IsLeaseOf self.now.game lease.new }
    {
        match job {
            JobName::Logic { frame } => Ok(Task::Logic(self.logic_task(alloc, frame, step)?)),
            JobName::Think { frame, agent } => {
                Ok(Task::Think(self.think_task(frame, agent, step, lease)?))
            }
            JobName::Path {
                frame,
                agent,
                question: _,
            } => {
                let start = self.start_of(frame, lease)?;
                let parked = self.asking_of(agent).parked();
                Ok(Task::Path(PathTask::with(start, self.params(frame), parked)?))
            }
            JobName::Draw { frame, band } => {
                Ok(Task::Draw(DrawTask::with(self.world_of(frame, lease)?, band)))
            }
        }
    }

    /// What the logic of a frame is made of, when all its agents have thought, beside their thoughts: what the frame starts from,
    /// and empty room for them, with the distances that were found in the frame.
    pub fn ready(
        &mut self,
        alloc: Global,
        frame: u32,
    ) -> Result<(Arc<FrameStart<'t>>, Box<Gathering<'t>>), AllocError>
        requires { IsInSlot (sizes self.old) self.old.stored frame }
        ensures start { IfOk result (λ r. arc_value r.0 ≡ frame_of self.old.game frame) }
        ensures room { IfOk result (λ r. IsRoomIn (frame_of self.old.game frame) (box_value r.1)) }
        ensures unchanged { self.new ≡ self.old }
    {
        let params = self.params(frame);
        let start = params.share()?;
        let found = params.found(alloc)?;
        let mut room = self.thoughts.take_room(alloc)?;
        room.found = found;
        Ok((start, room))
    }

    /// Keeps room that is not wanted yet.
    pub fn keep_room(&mut self, room: Box<Gathering<'t>>)
        requires empty { (box_value room).thoughts.items ≡ [] }
        requires room { length self.old.game.trees ≤ vec_capacity (box_value room).thoughts }
        ensures { self.new ≡ self.old }
    {
        self.thoughts.keep_room(room);
    }

    /// The logic of a frame goes on, with all thoughts.
    pub fn turn(&mut self, start: Arc<FrameStart<'t>>, room: Box<Gathering<'t>>) -> LogicTask<'t>
        requires game { (arc_value start).game ≡ self.old.game }
        requires room { IsRoomIn (arc_value start) (box_value room) }
        requires all { self.old.stored.thoughts ≡ parts (arc_value start).frame (length self.old.game.trees) }
        ensures task { result ≡ logic_of self.old.game (arc_value start.entry).frame true }
        ensures stored { (st : State) (w : ℕ) → Stores self.old self.new st (Resume w (Logic (arc_value start.entry).frame)) }
    {
        let mut room = room;
        self.thoughts.move_into(&mut room);
        LogicTask::gathered(start, room)
    }

    /// A job goes on. Where it is a frame's logic, the thoughts that are kept are wanted no more.
    #[inline(always)]
    pub fn go_on(&mut self, job: JobName)
        ensures { (st : State) (w : ℕ) → Stores self.old self.new st (Resume w job) }
    {
        match job {
            JobName::Logic { .. } => self.thoughts.clear(),
            JobName::Think { .. } | JobName::Path { .. } | JobName::Draw { .. } => {}
        }
    }

    /// A frame has spread: its parameters go into its slot.
    pub fn spread(&mut self)
        requires { IsSomeAnd self.old.stored.next (λ f. slice_get self.old.stored.slots (f % length self.old.stored.slots) ≡ Some None) }
        ensures { (st : State) (w f : ℕ) → self.old.stored.next ≡ Some f → Stores self.old self.new st (Spread w (Logic f)) }
    {
        match self.next.take() {
            Some(params) => self.slots.fill(params),
            None => unreachable!(),
        }
    }

    /// An agent's thought stands at a question.
    #[inline(always)]
    pub fn park(&mut self, agent: u32, parked: Parked<'t>)
        requires game { parked.game ≡ self.old.game }
        requires agent { (agent ≡ parked.agent) × (agent < length self.old.stored.asking) }
        ensures { self.new ≡ record self.old { stored = record self.old.stored { asking = slice_set self.old.stored.asking agent (Some (asked parked.entry.frame agent parked.entry.question false)) } } }
    {
        self.retired.parked = self.asking[agent as usize].park(parked);
    }

    /// Takes out what the last events have left over, of which nothing is made any more: to let it go takes longer than to
    /// move it, so whoever drives a board behind a lock does that with the lock free.
    #[inline(always)]
    pub fn take_retired(&mut self) -> Retired<'t>
        ensures { self.new ≡ self.old }
    {
        mem::replace(&mut self.retired, Retired::nothing())
    }

    /// Keeps what a job came to, for the tasks that are made of it.
    #[inline(always)]
    pub fn keep(&mut self, done: Done<'t>, next: Option<NextFrame<'t>>)
        requires game { game_done done ≡ self.old.game }
        requires wanted { IsWanted self.old done }
        requires next { next ≡ next_done done }
        ensures { (st : State) (w : ℕ) → Stores self.old self.new st (Finish w (job_done done.entry)) }
    {
        match done {
            Done::Turned(turn) => self.turned(turn, next),
            Done::Thought(thought) => self.thoughts.keep(thought),
            Done::Way(mut way) => {
                self.learn(&mut way);
                self.answer(way);
            }
            // That a frame is drawn is known from its jobs.
            Done::Drawn(_) => {}
        }
    }

    fn turned(&mut self, turn: Turn<'t>, next: Option<NextFrame<'t>>)
        requires game { turn.game ≡ self.old.game }
        requires free { slice_get self.old.stored.turns (turn.frame % length self.old.stored.slots) ≡ Some None }
        requires next { next ≡ Some (frame_of turn.game (turn.frame + 1)) }
        ensures { (st : State) (w : ℕ) → Stores self.old self.new st (Finish w (Logic turn.entry.frame)) }
    {
        let at = turn.frame() as usize % self.turns.len();
        let Some(next) = next else { unreachable!() };
        let (params, room) = next.into_parts();
        self.turns[at] = Some(turn);
        self.next = Some(params);
        self.thoughts.keep_room(room);
    }

    // Keeps the distances that a way's search found with the parameters of its frame, for the questions that come later.
    fn learn(&mut self, way: &mut Way<'t>)
        requires { way.old.game ≡ self.old.game }
        ensures frame_store { self.new ≡ self.old }
        ensures way { way.new ≡ way.old }
    {
        self.slots.learn(way);
    }

    #[inline(always)]
    fn answer(&mut self, way: Way<'t>)
        requires game { way.game ≡ self.old.game }
        requires asked { IsAsked self.old.stored way.frame way.agent way.question false }
        ensures { (st : State) (w : ℕ) → Stores self.old self.new st (Finish w (Path way.entry.frame way.entry.agent way.entry.question)) }
    {
        let agent = way.agent();
        self.asking[agent as usize].answer(way);
    }

    /// Takes out a frame that is shown; nothing stands in its place.
    pub fn show(&mut self, frame: u32) -> Shown<'t>
        requires slot { IsInSlot (sizes self.old) self.old.stored frame }
        requires turn { HasTurn (sizes self.old) self.old.stored frame }
        ensures shown { result ≡ frame_of self.old.game frame }
        ensures stored { (st : State) → Stores self.old self.new st (Emit frame) }
    {
        let params = self.slots.take(frame);
        let at = frame as usize % self.turns.len();
        self.retired.params = params;
        match self.turns[at].take() {
            Some(turn) => Shown { turn },
            None => unreachable!(),
        }
    }
}
