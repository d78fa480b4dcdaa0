ghost use Rattle.std.specs.Prelude.{◌≡◌, ◌<◌, length};
ghost use Rattle.frame_state.specs.Contents.{questions_in};
ghost use Rattle.frame_params.specs.Thinks.{AsksFor, StandsAt};

use bt_tick::Pending;
use game_session::Session;
use grid_world::Place;
use job_core::names::JobName;
use std::alloc::Global;
use std::marker::Model;
use std::sync::Arc;

// An agent's tick in a frame that stands at one of its path questions, as it was cut there.
#[derive(Drop)]
pub(crate) struct ParkedTick<'t> {
    pub(crate) session: &'t Session,
    pub(crate) frame: u32,
    pub(crate) agent: u32,
    pub(crate) question: u32,
    pub(crate) pending: Pending<'t, Global, Global>,
}

impl<'t> Model for ParkedTick<'t> {
    ghost use Rattle.frame_state.specs.Names.{QuestionOf, question_code};

    ghost Value = { QuestionOf };

    ghost coded = { question_code };

    ghost use Rattle.frame_params.specs.Thinks.{StandsAt};

    ghost view = { λ p. record { game = p.session.now; frame = p.frame; agent = p.agent; question = p.question } };

    ghost invariant = { λ p. StandsAt p.session.now p.frame p.agent p.question p.pending };
}

impl<'t> ParkedTick<'t> {
    // The session itself, as it was lent.
    pub(crate) fn session(&self) -> &'t Session
        ensures { result.now ≡ self.now.game }
    {
        self.session
    }

    // Frames count from 1.
    fn frame(&self) -> u32
        ensures { result ≡ self.now.frame }
    {
        self.frame
    }

    // The agent whose tick it is.
    pub(crate) fn agent(&self) -> u32
        ensures value { result ≡ self.now.agent }
        ensures there { result < length self.now.game.trees }
    {
        self.agent
    }

    // Which of its questions it stands at.
    pub(crate) fn question(&self) -> u32
        ensures value { result ≡ self.now.question }
        ensures asks { result < questions_in self.now.game self.now.frame self.now.agent }
    {
        self.question
    }

    // The place for which it asks.
    pub(crate) fn place(&self) -> Place
        ensures { AsksFor self.now.game self.now.frame self.now.agent self.now.question result }
    {
        self.pending.place()
    }

    // What is left of it.
    pub(crate) fn pending(&self) -> &Pending<'t, Global, Global>
        ensures { StandsAt self.now.game self.now.frame self.now.agent self.now.question result.now }
    {
        &self.pending
    }
}

/// An agent's tick in a frame that stands at one of its path questions.
pub struct Parked<'t> {
    pub(crate) tick: Arc<ParkedTick<'t>>,
}

impl<'t> Drop for Parked<'t> {
    fn drop(self) {
        let Self { tick: _ } = self;
    }
}

impl<'t> Model for Parked<'t> {
    ghost use Rattle.std.specs.Arc.{arc_value};
    ghost use Rattle.frame_state.specs.Names.{QuestionOf, question_code};

    ghost Value = { QuestionOf };

    ghost coded = { question_code };

    ghost view = { λ p. arc_value p.tick };
}

impl<'t> Parked<'t> {
    /// The session itself, as it was lent.
    pub fn session(&self) -> &'t Session
        ensures { result.now ≡ self.now.game }
    {
        self.tick.session()
    }

    /// The job that asks.
    pub fn name(&self) -> JobName
        ensures { result ≡ JobName.Think self.now.frame self.now.agent }
    {
        JobName::Think {
            frame: self.frame(),
            agent: self.agent(),
        }
    }

    /// Frames count from 1.
    pub fn frame(&self) -> u32
        ensures { result ≡ self.now.frame }
    {
        self.tick.frame()
    }

    /// The agent whose tick it is.
    pub fn agent(&self) -> u32
        ensures { result ≡ self.now.agent }
    {
        self.tick.agent()
    }

    /// Which of its questions it stands at, counted from 0.
    pub fn question(&self) -> u32
        ensures value { result ≡ self.now.question }
        ensures asks { result < questions_in self.now.game self.now.frame self.now.agent }
    {
        self.tick.question()
    }

    /// The same number, with 64 bits as an index.
    pub fn index(&self) -> u64
        ensures { result ≡ self.now.question }
    {
        u64::from(self.question())
    }
}
