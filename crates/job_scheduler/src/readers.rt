ghost use Rattle.std.specs.Prelude.{◌≡◌, ◌<◌, ◌^◌, ◌==◌, None, MatchOption, IfSome, option_map, length, ◌↔◌, IsTrue};
ghost use Rattle.job_core.specs.Core.{same, Draws};
ghost use Rattle.board_model.specs.Lists.{tally, at};
ghost use Rattle.board_model.specs.Board.{has_fiber, holds, first_row};
ghost use Rattle.board_model.specs.Pick.{given};
ghost use Rattle.board_model.specs.Passes.{on_fiber};
ghost use Rattle.job_queues.specs.Names.{picked, of_level};
ghost use Rattle.job_queues.specs.Picks.{IsAt, IsFirstOf};
ghost use Rattle.job_scheduler.specs.Seats.{IsHolder};

use super::held::Held;
use super::scheduler::Scheduler;
use counters::CounterKey;
use job_core::names::JobName;
use job_queues::{Fiber, Found, Pick, Priority, QueueIndex, Size, size_of};

// What a board asks its scheduler before it does an event. None of these takes memory.
impl Scheduler {
    /// What an idle worker is given, and where it stands.
    #[inline(always)]
    pub fn find(&self) -> Option<Found>
        ensures value { option_map (λ found. picked found.pick) result ≡ given self.now }
        ensures place { IfSome result (λ found. IsAt self.now.queues found.pick found.place) }
    {
        self.queues
            .find(self.pool.free(Size::Small), self.pool.free(Size::Large))
    }

    /// What an idle worker is given, with nothing taken out.
    #[inline(always)]
    pub fn peek(&self) -> Option<Pick>
        ensures { option_map picked result ≡ given self.now }
    {
        self.queues
            .peek(self.pool.free(Size::Small), self.pool.free(Size::Large))
    }

    /// The new jobs of a priority, in the order in which they came.
    #[inline(always)]
    pub fn queued(&self, priority: Priority) -> &[JobName]
        ensures { result.now ≡ of_level priority self.now.queues.fresh }
    {
        self.queues.queued(priority)
    }

    /// The ready fibers of a priority, in the order in which they came.
    #[inline(always)]
    pub fn ready(&self, priority: Priority) -> &[Fiber]
        ensures { result.now ≡ of_level priority self.now.queues.ready }
    {
        self.queues.ready(priority)
    }

    /// The job that a worker runs, if it runs one.
    #[inline(always)]
    pub fn runs(&self, worker: u32) -> Option<Held>
        ensures { result ≡ on_fiber self.now.seats (at self.now.seats.workers worker) }
    {
        let fiber = self.workers.get(worker)?;
        self.held_by(fiber)
    }

    /// The job that a fiber holds, if it holds one.
    #[inline(always)]
    pub fn held_by(&self, fiber: Fiber) -> Option<Held>
        ensures { result ≡ at self.now.seats.jobs fiber }
    {
        self.jobs.get(fiber.0)
    }

    /// The fiber that holds a job, if one does.
    pub fn holder(&self, job: JobName) -> Option<Fiber>
        requires { length self.now.seats.jobs < 2 ^ 32 }
        ensures { MatchOption result (tally (holds job) self.now.seats.jobs ≡ 0) (IsHolder job self.now.seats.jobs) }
    {
        let Some(fiber) = self.jobs.holder(job) else {
            return None;
        };
        Some(Fiber(fiber as u32))
    }

    /// Where a job is queued, if it is. Takes time linear in the number of queued jobs.
    pub fn find_job(&self, job: JobName) -> Option<QueueIndex>
        ensures { IsFirstOf (same job) self.now.queues.fresh result }
    {
        self.queues.find_job(job)
    }

    /// Where a fiber is ready to go on, if it is. Takes time linear in the number of ready fibers.
    pub fn find_ready(&self, fiber: Fiber) -> Option<QueueIndex>
        ensures { IsFirstOf (λ other. fiber == other) self.now.queues.ready result }
    {
        self.queues.find_ready(fiber)
    }

    /// Whether a fiber of a job's size is free.
    pub fn has_fiber(&self, job: JobName) -> bool
        ensures { result ≡ has_fiber self.now.seats job }
    {
        self.pool.free(size_of(job)) > 0
    }

    /// How many frames are shown.
    pub fn emitted(&self) -> u32
        ensures { result ≡ self.now.emitted }
    {
        self.emitted
    }

    /// Whether the board is stopped; it stays so.
    #[inline(always)]
    pub fn is_stopped(&self) -> bool
        ensures { result ≡ self.now.stopped }
    {
        self.stopped
    }

    /// Whether no draw of a frame is queued, runs or waits.
    pub fn has_no_draws(&self, frame: u32) -> bool
        ensures { IsTrue result ↔ (first_row (Draws frame) self.now.counters ≡ None) }
    {
        if self.counters.left(CounterKey::Draws { frame }).is_some() {
            return false;
        }
        true
    }
}
