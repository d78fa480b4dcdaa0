ghost use Rattle.std.specs.Prelude.{◌≡◌, ◌↔◌, IsTrue};

use frame_params::{BandMark, BoardStep, LogicStep, ThinkStep, Thought, Turn, Way};
use game_session::Session;
use job_core::names::JobName;

/// What the work of a job came to.
#[derive(Drop)]
pub enum Done<'t> {
    Turned(Turn<'t>),
    Thought(Thought<'t>),
    Way(Way<'t>),
    Drawn(BandMark<'t>),
}

impl<'t> Done<'t> {
    ghost use Rattle.task_board.specs.Dones.{game_done, job_done, step_done, IsDoneAt};

    /// The session that its frame is played in.
    pub fn session(&self) -> &'t Session
        ensures { result.now ≡ game_done self.now }
    {
        match self {
            Done::Turned(turn) => turn.session(),
            Done::Thought(thought) => thought.session(),
            Done::Way(way) => way.session(),
            Done::Drawn(mark) => mark.session(),
        }
    }

    /// The job that it is the end of.
    #[inline(always)]
    pub fn name(&self) -> JobName
        ensures { result ≡ job_done self.now }
    {
        match self {
            Done::Turned(turn) => turn.name(),
            Done::Thought(thought) => thought.name(),
            Done::Way(way) => way.name(),
            Done::Drawn(mark) => mark.name(),
        }
    }

    /// The step that it came of, as a board is told of it.
    pub fn into_step(self) -> BoardStep<'t>
        ensures { result ≡ step_done self.entry }
    {
        match self {
            Done::Turned(turn) => BoardStep::Logic(LogicStep::Turned(turn)),
            Done::Thought(thought) => BoardStep::Think(ThinkStep::Ended(thought)),
            Done::Way(way) => BoardStep::Path(way),
            Done::Drawn(mark) => BoardStep::Draw(mark),
        }
    }

    /// Whether the job is over once it has come to this step.
    #[inline(always)]
    pub fn is_at(&self, step: u32) -> bool
        ensures { IsTrue result ↔ IsDoneAt self.now step }
    {
        match self {
            Done::Turned(_) => step == 1,
            Done::Thought(thought) => step == thought.questions(),
            Done::Way(_) | Done::Drawn(_) => true,
        }
    }
}
