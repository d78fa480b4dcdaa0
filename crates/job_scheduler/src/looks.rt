ghost use Rattle.std.specs.Prelude.{◌≡◌, ◌==◌, ◌≤◌, ◌+◌, ℕ, IfOk, IfSome, None, false, option_map, ◌↔◌, IsTrue};
ghost use Rattle.job_core.specs.Core.{Waits, IsIdle, IsLegal, IsLegalList, same};
ghost use Rattle.board_model.specs.Lists.{first_place};
ghost use Rattle.board_model.specs.Board.{holds};
ghost use Rattle.board_model.specs.Pick.{given};
ghost use Rattle.job_queues.specs.Picks.{IsFirstAt};
ghost use Rattle.job_scheduler.specs.Logged.{setup_of, kept};
ghost use Rattle.job_scheduler.specs.Looks.{Always, IsOn, IsRunning, IsGivenTo, IsToShow, IsPlace, as_pick};

use super::board_fault::BoardFault;
use super::held::Held;
use super::jobs::JobLog;
use super::next::Next;
use job_core::names::{Event, JobName};
use job_queues::{Fiber, Found, Pick, QueueIndex};

// What may happen next. None of these takes memory.
impl JobLog {
    /// The job that a worker runs, with the worker as the one that runs it.
    #[inline(always)]
    pub fn running(&self, worker: u32) -> Result<Held, BoardFault>
        ensures { Always self.now (IsRunning worker result) }
    {
        if self.scheduler.is_stopped() {
            return Err(BoardFault::Stopped);
        }
        if worker >= self.settings.workers() {
            return Err(BoardFault::NoWorker);
        }
        let Some(held) = self.scheduler.runs(worker) else {
            return Err(BoardFault::NotRunning);
        };
        Ok(held)
    }

    /// What an idle worker does next: the first of the highest priority that has a fiber ready or a job that may start.
    #[inline(always)]
    pub fn given(&self, worker: u32) -> Result<Option<Next>, BoardFault>
        ensures given { Always self.now (IsGivenTo worker result) }
        ensures picked { IfOk result (λ next. (questions : ℕ → ℕ → ℕ) → IsLegalList (setup_of self.now questions) self.now.events
            → option_map as_pick next ≡ given (kept self.now questions)) }
        ensures place { IfOk result (λ given. (questions : ℕ → ℕ → ℕ) → IsLegalList (setup_of self.now questions) self.now.events
            → IsPlace (kept self.now questions) given) }
    {
        if self.scheduler.is_stopped() {
            return Err(BoardFault::Stopped);
        }
        if worker >= self.settings.workers() {
            return Err(BoardFault::NoWorker);
        }
        match self.scheduler.runs(worker) {
            Some(_) => return Err(BoardFault::Busy),
            None => {}
        }
        let Some(Found { pick, place }) = self.scheduler.find() else {
            return Ok(None);
        };
        match pick {
            Pick::New(job) => Ok(Some(Next::Start(job, place))),
            Pick::Ready(fiber) => {
                let Some(held) = self.scheduler.held_by(fiber) else {
                    return Ok(None);
                };
                Ok(Some(Next::Resume(fiber, held, place)))
            }
        }
    }

    // Whether a worker is there and idle, and nothing is stopped.
    fn is_free(&self, worker: u32) -> bool
        ensures { Always self.now (λ s st. IsTrue result ↔ (IsOn s st worker × IsIdle st worker)) }
    {
        if self.scheduler.is_stopped() {
            return false;
        }
        if worker >= self.settings.workers() {
            return false;
        }
        if self.scheduler.runs(worker).is_some() {
            return false;
        }
        true
    }

    /// Where a job is queued that a worker may start; None where it may not.
    pub fn may_start(&self, worker: u32, job: JobName) -> Option<QueueIndex>
        ensures some { IfSome result (λ place. Always self.now (λ s st. IsLegal s st (Event.Start worker job))) }
        ensures place { IfSome result (λ place. (questions : ℕ → ℕ → ℕ) → IsFirstAt (same job) (kept self.now questions).queues.fresh place) }
        ensures none { result ≡ None → Always self.now (λ s st. IsLegal s st (Event.Start worker job) → ⊥) }
    {
        if !self.is_free(worker) {
            return None;
        }
        let Some(place) = self.scheduler.find_job(job) else {
            return None;
        };
        if !self.scheduler.has_fiber(job) {
            return None;
        }
        Some(place)
    }

    /// The fiber on which a worker may go on with this job, how far the job has come, and where the fiber is ready; None where
    /// the worker may not.
    pub fn may_resume(&self, worker: u32, job: JobName) -> Option<(Fiber, Held, QueueIndex)>
        ensures some { IfSome result (λ next. Always self.now (λ s st. IsLegal s st (Event.Resume worker job) × (st.phase job ≡ Waits next.1.step) × (next.1.worker ≡ None))) }
        ensures holder { IfSome result (λ next. (questions : ℕ → ℕ → ℕ) → first_place (holds job) (kept self.now questions).seats.jobs ≡ next.0) }
        ensures place { IfSome result (λ next. (questions : ℕ → ℕ → ℕ) → IsFirstAt (λ other. next.0 == other) (kept self.now questions).queues.ready next.2) }
        ensures none { result ≡ None → Always self.now (λ s st. IsLegal s st (Event.Resume worker job) → ⊥) }
    {
        if !self.is_free(worker) {
            return None;
        }
        let Some(fiber) = self.scheduler.holder(job) else {
            return None;
        };
        let Some(place) = self.scheduler.find_ready(fiber) else {
            return None;
        };
        let Some(held) = self.scheduler.held_by(fiber) else {
            return None;
        };
        Some((fiber, held, place))
    }

    /// The frame that is shown next.
    pub fn to_emit(&self) -> Result<u32, BoardFault>
        ensures { Always self.now (IsToShow result) }
    {
        if self.scheduler.is_stopped() {
            return Err(BoardFault::Stopped);
        }
        if self.scheduler.emitted() >= self.settings.frames() {
            return Err(BoardFault::Illegal);
        }
        let frame = self.scheduler.emitted() + 1;
        if self.turned < frame {
            return Err(BoardFault::Illegal);
        }
        if self.scheduler.has_no_draws(frame) {
            return Ok(frame);
        }
        Err(BoardFault::Illegal)
    }

    /// Whether the slot of a frame is free: so many frames are shown that there is one.
    pub fn has_slot(&self, frame: u32) -> bool
        ensures { Always self.now (λ s st. IsTrue result ↔ (frame ≤ st.emitted + s.slots)) }
    {
        if frame.saturating_sub(self.settings.slots()) <= self.scheduler.emitted() {
            return true;
        }
        false
    }

    /// Whether all frames are shown, and nothing was stopped.
    pub fn is_done(&self) -> bool
        ensures { Always self.now (λ s st. IsTrue result ↔ ((st.stopped ≡ false) × (st.emitted ≡ s.frames))) }
    {
        if self.scheduler.is_stopped() {
            return false;
        }
        if self.scheduler.emitted() == self.settings.frames() {
            return true;
        }
        false
    }
}
