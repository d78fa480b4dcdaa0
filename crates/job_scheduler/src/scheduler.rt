ghost use Rattle.std.specs.Prelude.{◌≡◌, ◌<◌, ◌≤◌, ◌+◌, ◌-◌, ◌^◌, ◌==◌, IsSome, IsSomeAnd, OnOk, OnErr, IfOk, Some, None, true, false, length, map, not, slice_get};
ghost use Rattle.job_core.specs.Core.{Setup, same, size_of, Thinks, Way, Draws, Shown};
ghost use Rattle.board_model.specs.Lists.{all, tally, at, first_place};
ghost use Rattle.board_model.specs.Board.{core_after, core_opening, core_end, fiber_of, taken_of, is_taken, holds, first_row, woken};
ghost use Rattle.board_model.specs.Passes.{RunsAt, on_fiber};
ghost use Rattle.counters.specs.Keys.{counter_of};
ghost use Rattle.job_queues.specs.Picks.{IsFirstAt};
ghost use Rattle.job_scheduler.specs.Opening.{opened};
ghost use Rattle.job_scheduler.specs.Seats.{holding, left_by, less_one};

use super::counting::{raise, raise_awaited, raise_frame, without_frame};
use super::held::Held;
use super::job_table::JobTable;
use super::out_of_memory::OutOfMemory;
use super::slot_table::SlotTable;
use super::waking::{ready_at_once, wake};
use super::wide_settings::WideSettings;
use super::worker_table::WorkerTable;
use counters::{BoardCounters, CounterKey};
use job_core::names::{Event, JobName};
use job_queues::{Fiber, FiberPool, Found, Pick, QueueIndex, Queues, size_of};
use std::alloc::Global;
use std::marker::Model;

/// What the board keeps: which jobs are queued, which fibers are ready and taken, what each fiber holds and each
/// worker runs, the counters, and which frame lies in each slot. It has one method for each event, which tests
/// nothing again: that the event may happen is the caller's to show. All but the lists of the queues and the counters lies in one
/// block, and what most events touch in two runs of it: up to the front of the pool, and from the queues of normal priority to the
/// first workers.
pub struct Scheduler {
    pub(crate) emitted: u32,
    pub(crate) stopped: bool,
    pub(crate) pool: FiberPool,
    pub(crate) queues: Queues,
    pub(crate) counters: BoardCounters,
    pub(crate) workers: WorkerTable,
    pub(crate) jobs: JobTable,
    pub(crate) slots: SlotTable,
}

impl Drop for Scheduler {
    fn drop(self) {
        let Self {
            queues: _,
            pool: _,
            jobs: _,
            workers: _,
            counters: _,
            slots: _,
            emitted: _,
            stopped: _,
        } = self;
    }
}

impl Model for Scheduler {
    ghost use Rattle.std.specs.Prelude.{◌≡◌, length};
    ghost use Rattle.board_model.specs.Board.{Core};

    ghost Value = { Core };

    ghost view = { λ m. record {
      queues = m.queues.queues;
      seats = record { small = m.pool.small; taken = m.pool.taken; jobs = m.jobs; workers = m.workers };
      counters = m.counters;
      slots = m.slots;
      emitted = m.emitted;
      stopped = m.stopped;
    } };

    ghost invariant = { λ m. m.queues.fibers ≡ length m.jobs };
}

fn opening_queues(alloc: Global, frames: u32, fibers: u32) -> Result<Queues, OutOfMemory>
    ensures { IfOk result (λ queues. queues ≡ opened frames fibers) }
{
    let Ok(mut queues) = Queues::new(alloc, fibers) else {
        return Err(OutOfMemory);
    };
    if frames == 0 {
        return Ok(queues);
    }
    if queues.put_new(JobName::Logic { frame: 1 }).is_err() {
        return Err(OutOfMemory);
    }
    Ok(queues)
}

impl Scheduler {
    /// Nothing runs and nothing waits; the first frame's Logic is queued, if there is a frame.
    pub fn new(alloc: Global, settings: WideSettings) -> Result<Scheduler, OutOfMemory>
        ensures { IfOk result (λ m. (s : Setup) → s.frames ≡ settings.frames → s.workers ≡ settings.workers
            → s.small ≡ settings.small → s.large ≡ settings.large → s.slots ≡ settings.slots → m ≡ core_opening s) }
    {
        let (small, large) = (settings.small(), settings.large());
        let queues = opening_queues(alloc, settings.frames(), small + large)?;
        Ok(Scheduler {
            queues,
            pool: FiberPool::new(small, large),
            jobs: JobTable::new(small + large),
            workers: WorkerTable::new(settings.workers()),
            counters: BoardCounters::new(alloc),
            slots: SlotTable::new(settings.slots()),
            emitted: 0,
            stopped: false,
        })
    }

    /// Stops the board: no event is legal from then on, and nothing undoes it. All else stays as it is.
    pub fn stop(&mut self)
        ensures { (s : Setup) → self.new ≡ core_after s self.old Event.Stop }
    {
        self.stopped = true;
    }

    /// The fiber that a worker runs, or the first where it runs none.
    #[inline(always)]
    #[tactic(auto, using(crate::proofs::Entries::at_in))]
    fn fiber_of(&self, worker: u32) -> Fiber
        requires { worker < length self.now.seats.workers }
        ensures { result ≡ fiber_of self.now.seats worker }
    {
        match self.workers.get(worker) {
            Some(fiber) => fiber,
            None => Fiber(0),
        }
    }

    #[inline(always)]
    fn hold_on(&mut self, worker: u32, fiber: Fiber, held: Option<Held>)
        requires worker { worker < length self.old.seats.workers }
        requires fiber { fiber < length self.old.seats.jobs }
        ensures { self.new ≡ holding self.old worker fiber held }
    {
        self.jobs.set(fiber.0, held);
        let runs = held.is_some_and(|held| held.worker.is_some());
        self.workers
            .set(worker, if runs { Some(fiber) } else { None });
    }

    /// A worker starts a job whose first entry stands at this place, on the lowest free fiber of the job's size.
    #[inline(always)]
    pub fn start(&mut self, worker: u32, job: JobName, place: QueueIndex)
        requires place { IsFirstAt (same job) self.old.queues.fresh place }
        requires free { 0 < tally not (taken_of self.old.seats (size_of job)) }
        requires worker { worker < length self.old.seats.workers }
        requires table { self.old.seats.taken ≡ map is_taken self.old.seats.jobs }
        ensures { (s : Setup) → self.new ≡ core_after s self.old (Event.Start worker job) }
    {
        self.queues.take_found(Found {
            pick: Pick::New(job),
            place,
        });
        let Ok(fiber) = self.pool.take(size_of(job)) else {
            unreachable!()
        };
        self.hold_on(
            worker,
            fiber,
            Some(Held {
                job,
                step: 0,
                worker: Some(worker),
            }),
        );
    }

    /// A worker goes on with a fiber whose first entry stands at this place.
    #[inline(always)]
    pub fn resume(&mut self, worker: u32, fiber: Fiber, place: QueueIndex)
        requires place { IsFirstAt (λ other. fiber == other) self.old.queues.ready place }
        requires held { IsSome (at self.old.seats.jobs fiber) }
        requires fiber { fiber < length self.old.seats.jobs }
        requires worker { worker < length self.old.seats.workers }
        requires table { self.old.seats.taken ≡ map is_taken self.old.seats.jobs }
        ensures { (s : Setup) (job : JobName) → first_place (holds job) self.old.seats.jobs ≡ fiber
            → self.new ≡ core_after s self.old (Event.Resume worker job) }
    {
        self.queues.take_found(Found {
            pick: Pick::Ready(fiber),
            place,
        });
        let Some(held) = self.held_by(fiber) else {
            unreachable!()
        };
        self.hold_on(
            worker,
            fiber,
            Some(Held {
                job: held.job,
                step: held.step,
                worker: Some(worker),
            }),
        );
    }

    /// A worker's Logic waits, at its start, until the frame is shown whose slot it needs.
    pub fn hold(&mut self, worker: u32, frame: u32) -> Result<(), OutOfMemory>
        requires runs { RunsAt self.old.seats worker (JobName.Logic frame) 0 }
        requires table { self.old.seats.taken ≡ map is_taken self.old.seats.jobs }
        requires later { length self.old.slots < frame }
        requires unshown { IsSomeAnd (first_row (Shown (frame - length self.old.slots)) self.old.counters) (λ row. 0 < row.left) }
        ensures ok { OnOk result ((s : Setup) → s.slots ≡ length self.old.slots
            → self.new ≡ core_after s self.old (Event.Hold worker (JobName.Logic frame))) }
        ensures unchanged { OnErr result (self.new ≡ self.old) }
    {
        let fiber = self.fiber_of(worker);
        let key = CounterKey::Shown {
            frame: frame - self.slots.len(),
        };
        if self.counters.wait(key, fiber).is_err() {
            return Err(OutOfMemory);
        }
        self.hold_on(
            worker,
            fiber,
            Some(Held {
                job: JobName::Logic { frame },
                step: 0,
                worker: None,
            }),
        );
        Ok(())
    }

    /// A worker's Logic fills its slot and queues the thinks of its frame, and waits for them.
    pub fn spread(&mut self, worker: u32, frame: u32, agents: u32) -> Result<(), OutOfMemory>
        requires runs { RunsAt self.old.seats worker (JobName.Logic frame) 0 }
        requires table { self.old.seats.taken ≡ map is_taken self.old.seats.jobs }
        requires thinks_key { first_row (Thinks frame) self.old.counters ≡ None }
        requires shown_key { first_row (Shown frame) self.old.counters ≡ None }
        requires slots { 0 < length self.old.slots }
        requires room { agents ≡ 0 → length (all self.old.queues.ready) < length self.old.seats.jobs }
        ensures ok { OnOk result ((s : Setup) → s.slots ≡ length self.old.slots → s.agents ≡ agents
            → self.new ≡ core_after s self.old (Event.Spread worker (JobName.Logic frame))) }
        ensures unchanged { OnErr result (self.new ≡ self.old) }
    {
        let fiber = self.fiber_of(worker);
        raise_frame(&mut self.counters, frame, agents, fiber)?;
        let Ok(()) = self.queues.put_thinks(frame, agents) else {
            without_frame(&mut self.counters, frame);
            return Err(OutOfMemory);
        };
        ready_at_once(&mut self.queues, agents, fiber);
        self.slots.set(frame, Some(frame));
        self.hold_on(
            worker,
            fiber,
            Some(Held {
                job: JobName::Logic { frame },
                step: 1,
                worker: None,
            }),
        );
        Ok(())
    }

    /// A worker's Think queues the path that its tick asks for, and waits for it.
    #[inline(always)]
    pub fn ask(
        &mut self,
        worker: u32,
        frame: u32,
        agent: u32,
        question: u32,
    ) -> Result<(), OutOfMemory>
        requires runs { RunsAt self.old.seats worker (JobName.Think frame agent) question }
        requires table { self.old.seats.taken ≡ map is_taken self.old.seats.jobs }
        requires key { first_row (Way frame agent question) self.old.counters ≡ None }
        requires few { question + 1 < 2 ^ 32 }
        ensures ok { OnOk result ((s : Setup) → self.new ≡ core_after s self.old (Event.Ask worker (JobName.Think frame agent))) }
        ensures unchanged { OnErr result (self.new ≡ self.old) }
    {
        let fiber = self.fiber_of(worker);
        let key = CounterKey::Way {
            frame,
            agent,
            question,
        };
        raise_awaited(&mut self.counters, key, 1, fiber)?;
        let path = JobName::Path {
            frame,
            agent,
            question,
        };
        let Ok(()) = self.queues.put_new(path) else {
            self.counters.cancel(key);
            return Err(OutOfMemory);
        };
        self.hold_on(
            worker,
            fiber,
            Some(Held {
                job: JobName::Think { frame, agent },
                step: question + 1,
                worker: None,
            }),
        );
        Ok(())
    }

    // A worker's job is over: its fiber is free, and it is idle.
    #[inline(always)]
    fn leave(&mut self, worker: u32, fiber: Fiber)
        requires taken { slice_get self.old.seats.taken fiber ≡ Some true }
        requires worker { worker < length self.old.seats.workers }
        requires fiber { fiber < length self.old.seats.jobs }
        ensures { self.new ≡ left_by self.old worker fiber }
    {
        let Ok(()) = self.pool.give(fiber) else {
            unreachable!()
        };
        self.hold_on(worker, fiber, None);
    }

    #[inline(always)]
    fn lower(&mut self, key: CounterKey)
        requires stands { IsSomeAnd (first_row (counter_of key) self.old.counters) (λ row. 0 < row.left) }
        requires room { length (all self.old.queues.ready) + length (woken (counter_of key) self.old.counters) ≤ length self.old.seats.jobs }
        ensures { self.new ≡ less_one self.old (counter_of key) }
    {
        let Some(waiters) = self.counters.lower(key) else {
            return;
        };
        wake(&mut self.queues, &self.jobs, &waiters);
    }

    /// A worker's Think, Path or Draw is over, and lowers the counter of its kind.
    #[inline(always)]
    pub fn end(&mut self, worker: u32, key: CounterKey)
        requires runs { IsSome (on_fiber self.old.seats (at self.old.seats.workers worker)) }
        requires table { self.old.seats.taken ≡ map is_taken self.old.seats.jobs }
        requires stands { IsSomeAnd (first_row (counter_of key) self.old.counters) (λ row. 0 < row.left) }
        requires room { length (all self.old.queues.ready) + length (woken (counter_of key) self.old.counters) ≤ length self.old.seats.jobs }
        ensures { self.new ≡ core_end self.old worker (counter_of key) }
    {
        let fiber = self.fiber_of(worker);
        self.lower(key);
        self.leave(worker, fiber);
    }

    /// A worker's Logic is over: its draws are queued, and after them the next frame's Logic, if there is one.
    pub fn turn(
        &mut self,
        worker: u32,
        frame: u32,
        bands: u32,
        frames: u32,
    ) -> Result<(), OutOfMemory>
        requires runs { IsSome (on_fiber self.old.seats (at self.old.seats.workers worker)) }
        requires table { self.old.seats.taken ≡ map is_taken self.old.seats.jobs }
        requires key { first_row (Draws frame) self.old.counters ≡ None }
        ensures ok { OnOk result ((s : Setup) → s.frames ≡ frames → s.bands ≡ bands
            → self.new ≡ core_after s self.old (Event.Finish worker (JobName.Logic frame))) }
        ensures unchanged { OnErr result (self.new ≡ self.old) }
    {
        let fiber = self.fiber_of(worker);
        raise(&mut self.counters, CounterKey::Draws { frame }, bands)?;
        let Ok(()) = self.queues.put_followers(frame, bands, frames) else {
            self.counters.cancel(CounterKey::Draws { frame });
            return Err(OutOfMemory);
        };
        self.leave(worker, fiber);
        Ok(())
    }

    /// A frame is shown, and its slot is free.
    pub fn emit(&mut self, frame: u32)
        requires stands { IsSomeAnd (first_row (Shown frame) self.old.counters) (λ row. 0 < row.left) }
        requires room { length (all self.old.queues.ready) + length (woken (Shown frame) self.old.counters) ≤ length self.old.seats.jobs }
        requires slots { 0 < length self.old.slots }
        requires few { self.old.emitted + 1 < 2 ^ 32 }
        ensures { (s : Setup) → s.slots ≡ length self.old.slots → self.new ≡ core_after s self.old (Event.Emit frame) }
    {
        self.lower(CounterKey::Shown { frame });
        self.slots.set(frame, None);
        self.emitted += 1;
    }
}
