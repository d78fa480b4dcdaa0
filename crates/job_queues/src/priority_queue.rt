ghost use Rattle.std.specs.Prelude.{◌≡◌, ◌<◌, ◌≤◌, ◌+◌, ◌++◌, ◌∷◌, [], ◌==◌, length, position, option_map, IfOk, IfSome, OnOk, OnErr, None};
ghost use Rattle.job_core.specs.Core.{same};
ghost use Rattle.board_model.specs.Board.{first};
ghost use Rattle.board_model.specs.Pick.{lane};
ghost use Rattle.job_queues.specs.Names.{picked};
ghost use Rattle.job_queues.specs.Places.{IsFirstPlace};
ghost use Rattle.job_queues.specs.Lanes.{may_start, IsPlaceOf, IsTakenFrom};

use super::fiber::Fiber;
use super::fifo::Fifo;
use super::free::Free;
use super::pick::Pick;
use super::priority::is_same;
use job_core::names::JobName;
use std::alloc::{AllocError, Global};

/// What is queued at one priority.
#[derive(Drop)]
pub(crate) struct PriorityQueue {
    pub(crate) ready: Fifo<Fiber>,
    pub(crate) fresh: Fifo<JobName>,
}

fn position_to_start(jobs: &[JobName], free: Free) -> Option<usize>
    ensures { result ≡ position (may_start free) jobs.now }
{
    jobs.iter().position(|job| free.may_start(*job))
}

fn first_to_start(jobs: &[JobName], free: Free) -> Option<usize>
    ensures first { IsFirstPlace (may_start free) jobs.now result }
    ensures place { result ≡ position (may_start free) jobs.now }
{
    position_to_start(jobs, free)
}

fn position_of_job(jobs: &[JobName], job: JobName) -> Option<usize>
    ensures { result ≡ position (same job) jobs.now }
{
    jobs.iter().position(|other| is_same(job, *other))
}

fn first_of_job(jobs: &[JobName], job: JobName) -> Option<usize>
    ensures { IsFirstPlace (same job) jobs.now result }
{
    position_of_job(jobs, job)
}

fn position_of_fiber(fibers: &[Fiber], fiber: Fiber) -> Option<usize>
    ensures { result ≡ position (λ other. fiber == other) fibers.now }
{
    fibers.iter().position(|other| fiber.0 == other.0)
}

fn first_of_fiber(fibers: &[Fiber], fiber: Fiber) -> Option<usize>
    ensures { IsFirstPlace (λ other. fiber == other) fibers.now result }
{
    position_of_fiber(fibers, fiber)
}

impl PriorityQueue {
    pub(crate) fn new(alloc: Global, fibers: u32) -> Result<PriorityQueue, AllocError>
        ensures ready { IfOk result (λ l. l.ready.items ≡ []) }
        ensures fresh { IfOk result (λ l. l.fresh.items ≡ []) }
        ensures room { IfOk result (λ l. fibers ≤ l.ready.room) }
    {
        Ok(PriorityQueue {
            ready: Fifo::with_room(alloc, fibers as usize)?,
            fresh: Fifo::new(alloc),
        })
    }

    /// What comes next, and its place.
    #[inline(always)]
    pub(crate) fn find(&self, free: Free) -> Option<(Pick, usize)>
        ensures value { option_map (λ found. picked found.0) result ≡ lane (may_start free) self.now.ready.items self.now.fresh.items None }
        ensures place { IfSome result (λ found. IsPlaceOf found.0 found.1 self.now.ready.items self.now.fresh.items) }
    {
        if let Some(fiber) = self.ready.first() {
            return Some((Pick::Ready(fiber), 0));
        }
        // Mostly no job is there, or the first one may start: then there is nothing to look through.
        let Some(job) = self.fresh.first() else {
            return None;
        };
        if free.may_start(job) {
            return Some((Pick::New(job), 0));
        }
        let waiting = self.fresh.waiting();
        let at = first_to_start(waiting, free)?;
        Some((Pick::New(waiting[at]), at))
    }

    /// The place of a new job's first entry.
    #[inline(always)]
    pub(crate) fn find_job(&self, job: JobName) -> Option<usize>
        ensures { IsFirstPlace (same job) self.now.fresh.items result }
    {
        first_of_job(self.fresh.waiting(), job)
    }

    /// The place of a ready fiber's first entry.
    #[inline(always)]
    pub(crate) fn find_ready(&self, fiber: Fiber) -> Option<usize>
        ensures { IsFirstPlace (λ other. fiber == other) self.now.ready.items result }
    {
        first_of_fiber(self.ready.waiting(), fiber)
    }

    /// Takes out what was found at a place.
    #[inline(always)]
    pub(crate) fn take(&mut self, pick: Pick, at: usize)
        requires { IsPlaceOf pick at self.old.ready.items self.old.fresh.items }
        ensures after { IsTakenFrom pick self.old.ready.items self.new.ready.items self.old.fresh.items self.new.fresh.items }
        ensures room { self.new.ready.room ≡ self.old.ready.room }
    {
        match pick {
            Pick::Ready(_) => self.ready.take(at),
            Pick::New(_) => self.fresh.take(at),
        }
    }

    #[inline(always)]
    pub(crate) fn put_new(&mut self, job: JobName) -> Result<(), AllocError>
        ensures fresh { OnOk result (self.new.fresh.items ≡ self.old.fresh.items ++ job ∷ []) }
        ensures same_fresh { OnErr result (self.new.fresh.items ≡ self.old.fresh.items) }
        ensures ready { self.new.ready ≡ self.old.ready }
    {
        self.fresh.put(job)
    }

    #[inline(always)]
    pub(crate) fn put_ready(&mut self, fiber: Fiber)
        requires { length self.old.ready.items < self.old.ready.room }
        ensures ready { self.new.ready.items ≡ self.old.ready.items ++ fiber ∷ [] }
        ensures fresh { self.new.fresh ≡ self.old.fresh }
        ensures room { self.new.ready.room ≡ self.old.ready.room }
    {
        self.ready.put_in_room(fiber);
    }

    /// Makes room for more new jobs.
    pub(crate) fn reserve(&mut self, more: usize) -> Result<(), AllocError>
        ensures fresh { self.new.fresh.items ≡ self.old.fresh.items }
        ensures ready { self.new.ready ≡ self.old.ready }
        ensures ok { OnOk result (self.new.fresh.used + more ≤ self.new.fresh.room) }
    {
        self.fresh.reserve(more)
    }

    pub(crate) fn put_reserved(&mut self, job: JobName)
        requires { self.old.fresh.used < self.old.fresh.room }
        ensures fresh { self.new.fresh.items ≡ self.old.fresh.items ++ job ∷ [] }
        ensures used { self.new.fresh.used ≡ self.old.fresh.used + 1 }
        ensures room { self.new.fresh.room ≡ self.old.fresh.room }
        ensures ready { self.new.ready ≡ self.old.ready }
    {
        self.fresh.put_reserved(job);
    }

    /// Queues the thinks of a frame, for which there is room, by agent.
    pub(crate) fn put_thinks(&mut self, frame: u32, agents: u32)
        requires { self.old.fresh.used + agents ≤ self.old.fresh.room }
        ensures fresh { self.new.fresh.items ≡ self.old.fresh.items ++ first agents (JobName.Think frame) }
        ensures ready { self.new.ready ≡ self.old.ready }
    {
        'agents: for agent in 0..agents {
            self.put_reserved(JobName::Think { frame, agent });
        }
    }

    /// Queues the draws of a frame, for which there is room, by band.
    pub(crate) fn put_draws(&mut self, frame: u32, bands: u32)
        requires { self.old.fresh.used + bands ≤ self.old.fresh.room }
        ensures fresh { self.new.fresh.items ≡ self.old.fresh.items ++ first bands (JobName.Draw frame) }
        ensures ready { self.new.ready ≡ self.old.ready }
    {
        'bands: for band in 0..bands {
            self.put_reserved(JobName::Draw { frame, band });
        }
    }
}
