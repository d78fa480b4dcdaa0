ghost use Rattle.std.specs.Prelude.{◌≡◌};
ghost use Rattle.frame_state.specs.Contents.{signals_in, way_in};
ghost use Rattle.frame_parts.specs.Distances.{IsUnderIf};
ghost use Rattle.frame_state.specs.Thoughts.{IsWayOf};

use frame_parts::DistanceField;
use game_session::Session;
use grid_world::Answer;
use job_core::names::JobName;
use std::marker::Model;

/// The answer to a path question of an agent in a frame.
#[derive(Drop)]
pub struct Way<'t> {
    session: &'t Session,
    pub(crate) frame: u32,
    agent: u32,
    question: u32,
    answer: Answer,
    // The distances that its search found; they are under the signals of the frame.
    found: Option<DistanceField>,
}

impl<'t> Model for Way<'t> {
    ghost use Rattle.frame_state.specs.Names.{QuestionOf, question_code};

    ghost Value = { QuestionOf };

    ghost coded = { question_code };

    ghost use Rattle.frame_state.specs.Thoughts.{IsWayOf};
    ghost use Rattle.frame_state.specs.Contents.{signals_in};
    ghost use Rattle.frame_parts.specs.Distances.{IsUnderIf};

    ghost view = { λ w. record { game = w.session.now; frame = w.frame; agent = w.agent; question = w.question } };

    ghost invariant = { λ w. IsWayOf w.session.now w.frame w.agent w.question w.answer
        × IsUnderIf w.session.now.world (signals_in w.session.now w.frame) w.found };
}

impl<'t> Way<'t> {
    /// The answer to a question of an agent's tick, and the distances that its search found, if it made one.
    pub fn new(
        session: &'t Session,
        frame: u32,
        agent: u32,
        question: u32,
        answer: Answer,
        found: Option<DistanceField>,
    ) -> Way<'t>
        requires way { IsWayOf session.now frame agent question answer }
        requires found { IsUnderIf session.now.world (signals_in session.now frame) found }
        ensures { result ≡ record { game = session.now; frame = frame; agent = agent; question = question } }
    {
        Way {
            session,
            frame,
            agent,
            question,
            answer,
            found,
        }
    }

    /// The session itself, as it was lent.
    pub fn session(&self) -> &'t Session
        ensures { result.now ≡ self.now.game }
    {
        self.session
    }

    /// The job whose work it is.
    pub fn name(&self) -> JobName
        ensures { result ≡ JobName.Path self.now.frame self.now.agent self.now.question }
    {
        JobName::Path {
            frame: self.frame,
            agent: self.agent,
            question: self.question,
        }
    }

    /// The agent that asked.
    pub fn agent(&self) -> u32
        ensures { result ≡ self.now.agent }
    {
        self.agent
    }

    /// The first step of the way, or why there is none.
    pub fn answer(&self) -> Answer
        ensures { result ≡ way_in self.now.game self.now.frame self.now.agent self.now.question }
    {
        self.answer
    }

    // The distances that its search found, if they weren't taken out yet.
    pub(crate) fn take_found(&mut self) -> Option<DistanceField>
        ensures found { IsUnderIf self.old.game.world (signals_in self.old.game self.old.frame) result }
        ensures way { self.new ≡ self.old }
    {
        self.found.take()
    }
}
