ghost use Rattle.std.specs.Prelude.{◌≡◌, IfOk};
ghost use Rattle.bt_nodes.specs.Bounds.{Fits};
ghost use Rattle.game_jobs.specs.Instance.{tree_of};
ghost use Rattle.frame_state.specs.Contents.{thought_in, questions_in};
ghost use Rattle.frame_state.specs.Thoughts.{EndsAt};

use crate::kept_memory::KeptMemory;
use bt_nodes::Status;
use game_session::Session;
use grid_world::Intent;
use job_core::names::JobName;
use std::alloc::AllocError;
use std::marker::Model;

/// What an agent thought in a frame: its tick's answer, its memory after it, and what it wants to do.
#[derive(Drop)]
pub struct Thought<'t> {
    session: &'t Session,
    frame: u32,
    agent: u32,
    questions: u32,
    status: Status,
    memory: KeptMemory,
    intent: Intent,
}

impl<'t> Model for Thought<'t> {
    ghost use Rattle.std.specs.Prelude.{◌≡◌, ◌<◌};
    ghost use Rattle.game_jobs.specs.Instance.{tree_of};
    ghost use Rattle.bt_nodes.specs.Bounds.{Fits};
    ghost use Rattle.frame_state.specs.Names.{PartOf, part_code};
    ghost use Rattle.frame_state.specs.Contents.{thought_in, questions_in};

    ghost Value = { PartOf };

    ghost coded = { part_code };

    ghost view = { λ t. record { game = t.session.now; frame = t.frame; number = t.agent } };

    ghost invariant = { λ t.
        (record { status = t.status; memory = t.memory; intent = t.intent } ≡ thought_in t.session.now t.frame t.agent)
        × (t.questions ≡ questions_in t.session.now t.frame t.agent)
        × Fits (tree_of t.session.now t.agent) t.memory };
}

impl<'t> Thought<'t> {
    /// That of an agent whose tick has ended with its answers to so many questions.
    pub fn at_end(
        session: &'t Session,
        frame: u32,
        agent: u32,
        questions: u32,
        status: Status,
        memory: KeptMemory,
        intent: Intent,
    ) -> Thought<'t>
        requires { EndsAt session.now frame agent questions status memory intent }
        ensures { result ≡ record { game = session.now; frame = frame; number = agent } }
    {
        Thought {
            session,
            frame,
            agent,
            questions,
            status,
            memory,
            intent,
        }
    }

    /// The session itself, as it was lent.
    pub fn session(&self) -> &'t Session
        ensures { result.now ≡ self.now.game }
    {
        self.session
    }

    /// The job whose work it is.
    pub fn name(&self) -> JobName
        ensures { result ≡ JobName.Think self.now.frame self.now.number }
    {
        JobName::Think {
            frame: self.frame,
            agent: self.agent,
        }
    }

    /// The agent that thought.
    pub fn agent(&self) -> u32
        ensures { result ≡ self.now.number }
    {
        self.agent
    }

    /// How many path questions the tick asked.
    pub fn questions(&self) -> u32
        ensures { result ≡ questions_in self.now.game self.now.frame self.now.number }
    {
        self.questions
    }

    // The same thought once more; its memory is shared.
    pub(crate) fn share(&self) -> Result<Thought<'t>, AllocError>
        ensures { IfOk result (λ t. t ≡ self.now) }
    {
        Ok(Thought {
            session: self.session,
            frame: self.frame,
            agent: self.agent,
            questions: self.questions,
            status: self.status,
            memory: self.memory.share()?,
            intent: self.intent,
        })
    }

    // The tick's answer.
    pub(crate) fn status(&self) -> Status
        ensures { result ≡ (thought_in self.now.game self.now.frame self.now.number).status }
    {
        self.status
    }

    // What the agent wants to do.
    pub(crate) fn intent(&self) -> Intent
        ensures { result ≡ (thought_in self.now.game self.now.frame self.now.number).intent }
    {
        self.intent
    }

    // The agent's memory after the tick.
    pub(crate) fn memory(&self) -> &KeptMemory
        ensures value { result.now ≡ (thought_in self.now.game self.now.frame self.now.number).memory }
        ensures fits { Fits (tree_of self.now.game self.now.number) result.now }
    {
        &self.memory
    }
}
