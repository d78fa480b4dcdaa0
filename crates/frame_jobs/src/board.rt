ghost use Rattle.std.specs.Prelude.{◌≡◌, ◌↔◌, true, false, IfOk, IsTrue, []};
ghost use Rattle.job_scheduler.specs.Looks.{Always, IsRunning};
ghost use Rattle.frame_jobs.specs.Boards.{IsOpen, SomebodyStarts, NobodyStarts};

use job_core::names::Event;
use job_scheduler::{BoardFault, Held, JobLog, OutOfMemory, WideSettings};
use std::alloc::Global;
use std::marker::Model;

/// The jobs of a run whose values its caller keeps. Each call that answers Ok, but for a `take` that gives nothing and a
/// `stop` of a stopped board, does one event, which was legal and is the last of `events` from then on; a call that is refused
/// changes nothing.
pub struct FrameJobs {
    pub(crate) jobs: JobLog,
    pub(crate) most_questions: u32,
}

impl Drop for FrameJobs {
    fn drop(self) {
        let Self {
            jobs: _,
            most_questions: _,
        } = self;
    }
}

impl Model for FrameJobs {
    ghost use Rattle.frame_jobs.specs.Boards.{FrameBoard, IsOpen};

    ghost Value = { FrameBoard };

    ghost view = { λ b. record { jobs = b.jobs; most_questions = b.most_questions } };

    ghost invariant = { λ b. IsOpen (record { jobs = b.jobs; most_questions = b.most_questions }) };
}

impl FrameJobs {
    /// A board on which nothing has happened, for so many agents and bands a frame, and at most so many questions a Think.
    pub fn new(
        alloc: Global,
        settings: WideSettings,
        agents: u32,
        bands: u32,
        most_questions: u32,
    ) -> Result<FrameJobs, OutOfMemory>
        ensures { IfOk result (λ board. board ≡ record { jobs = record { numbers = settings; agents = agents; bands = bands; events = [] }; most_questions = most_questions }) }
    {
        let jobs = JobLog::wide(alloc, settings, agents, bands)?;
        settings.limits_hold();
        Ok(FrameJobs {
            jobs,
            most_questions,
        })
    }

    /// The numbers that it was opened with.
    pub fn settings(&self) -> WideSettings
        ensures { result ≡ self.now.jobs.numbers }
    {
        self.jobs.wide_settings()
    }

    /// What has happened, in order: a legal list, for some numbers of questions.
    pub fn events(&self) -> &[Event]
        ensures events { result.now ≡ self.now.jobs.events }
        ensures lawful { IsOpen self.now }
    {
        self.jobs.events()
    }

    /// Whether it was stopped, so that nothing happens any more.
    pub fn is_stopped(&self) -> bool
        ensures { Always self.now.jobs (λ s st. result ≡ st.stopped) }
    {
        self.jobs.is_stopped()
    }

    /// Whether all frames are shown, and nothing was stopped.
    pub fn is_done(&self) -> bool
        ensures { Always self.now.jobs (λ s st. IsTrue result ↔ ((st.stopped ≡ false) × (st.emitted ≡ s.frames))) }
    {
        self.jobs.is_done()
    }

    /// Whether a `take` by an idle worker would give it a job, or ask for memory: whether another thread is to be woken. It says
    /// so too while all workers are busy.
    pub fn may_take(&self) -> bool
        ensures somebody { result ≡ true → SomebodyStarts self.now }
        ensures nobody { result ≡ false → NobodyStarts self.now }
    {
        if self.jobs.is_stopped() {
            return false;
        }
        match self.jobs.peek() {
            Some(_) => true,
            None => false,
        }
    }

    /// The job that a worker runs.
    pub fn running(&self, worker: u32) -> Result<Held, BoardFault>
        ensures { Always self.now.jobs (IsRunning worker result) }
    {
        self.jobs.running(worker)
    }
}
