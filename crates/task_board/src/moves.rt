ghost use Rattle.std.specs.Prelude.{◌≡◌, ◌==◌, ℕ, suc, ◌≤◌, ◌+◌, None, IfOk, IfSome, OnOk, OnErr, true, false, ◌↔◌, IsTrue};
ghost use Rattle.job_core.specs.declared.names.JobName.TheVariants.{Logic};
ghost use Rattle.job_core.specs.declared.names.Event.TheVariants.{Start, Resume, Emit};
ghost use Rattle.job_core.specs.Core.{Runs, Waits, IsLegal, same};
ghost use Rattle.frame_state.specs.Names.{logic_of};
ghost use Rattle.frame_params.specs.Tasks.{IsTaskAt};
ghost use Rattle.board_model.specs.Lists.{first_place};
ghost use Rattle.board_model.specs.Board.{holds};
ghost use Rattle.job_queues.specs.Picks.{IsFirstAt};
ghost use Rattle.task_board.specs.Boards.{setup_in, state_in, kept_in, Happens};
ghost use Rattle.task_board.specs.Given.{MayBeTakenUp, NothingToShow};

use super::board::TaskBoard;
use frame_params::{Lease, LogicTask, Task};
use job_core::names::JobName;
use job_queues::is_same;
use job_scheduler::{Fiber, Held, OutOfMemory, QueueIndex};

// What is done for a given event, where it is legal.
impl<'t> TaskBoard<'t> {
    /// The task of a job that stands at this step, and may be taken up there.
    pub fn task_of(&self, job: JobName, step: u32) -> Result<Task<'t>, OutOfMemory>
        requires { MayBeTakenUp self.now job step }
        ensures { IfOk result (IsTaskAt self.now.game job step) }
    {
        match self
            .frame_store
            .task(self.alloc, job, step, &mut Lease::new())
        {
            Ok(task) => Ok(task),
            Err(_) => Err(OutOfMemory),
        }
    }

    /// Where a job is queued that a worker may start; None where it may not.
    pub fn may_start(&self, worker: u32, job: JobName) -> Option<QueueIndex>
        ensures some { IfSome result (λ place. IsLegal (setup_in self.now) (state_in self.now) (Start worker job)) }
        ensures place { IfSome result (IsFirstAt (same job) (kept_in self.now).queues.fresh) }
        ensures none { result ≡ None → IsLegal (setup_in self.now) (state_in self.now) (Start worker job) → ⊥ }
    {
        let Some(place) = self.jobs.may_start(worker, job) else {
            return None;
        };
        Some(place)
    }

    /// The fiber on which a worker may go on with this job, how far the job has come, and where the fiber is ready; None where
    /// the worker may not.
    pub fn may_resume(&self, worker: u32, job: JobName) -> Option<(Fiber, Held, QueueIndex)>
        ensures some { IfSome result (λ next. IsLegal (setup_in self.now) (state_in self.now) (Resume worker job)) }
        ensures stands { IfSome result (λ next. (state_in self.now).phase job ≡ Waits next.1.step) }
        ensures holder { IfSome result (λ next. first_place (holds job) (kept_in self.now).seats.jobs ≡ next.0) }
        ensures place { IfSome result (λ next. IsFirstAt (λ other. next.0 == other) (kept_in self.now).queues.ready next.2) }
        ensures none { result ≡ None → IsLegal (setup_in self.now) (state_in self.now) (Resume worker job) → ⊥ }
    {
        let Some(next) = self.jobs.may_resume(worker, job) else {
            return None;
        };
        Some(next)
    }

    /// Whether a worker runs this very job. False on a stopped board.
    pub fn is_run_by(&self, worker: u32, job: JobName) -> bool
        ensures runs { result ≡ true → (step : ℕ) × ((state_in self.now).phase job ≡ Runs worker step) }
        ensures other { result ≡ false → (state_in self.now).stopped ≡ false → (step : ℕ) → (state_in self.now).phase job ≡ Runs worker step → ⊥ }
    {
        let held = match self.jobs.running(worker) {
            Ok(held) => held,
            Err(_) => return false,
        };
        if is_same(job, held.job) {
            return true;
        }
        false
    }

    /// Whether the slot of a frame is free: so many frames are shown that there is one.
    pub fn has_slot(&self, frame: u32) -> bool
        ensures { IsTrue result ↔ (frame ≤ (state_in self.now).emitted + self.now.numbers.slots) }
    {
        self.jobs.has_slot(frame)
    }

    /// The frame that can be shown, if one can.
    pub fn to_emit(&self) -> Option<u32>
        ensures some { IfSome result (λ frame. IsLegal (setup_in self.now) (state_in self.now) (Emit frame)) }
        ensures none { result ≡ None → NothingToShow self.now }
    {
        match self.jobs.to_emit() {
            Ok(frame) => Some(frame),
            Err(_) => None,
        }
    }

    /// A worker starts a job that is queued at this place.
    #[inline(always)]
    pub fn begin(&mut self, worker: u32, job: JobName, place: QueueIndex) -> Result<(), OutOfMemory>
        requires legal { IsLegal (setup_in self.old) (state_in self.old) (Start worker job) }
        requires place { IsFirstAt (same job) (kept_in self.old).queues.fresh place }
        ensures ok { OnOk result (Happens self.old self.new (Start worker job)) }
        ensures unchanged { OnErr result (self.new ≡ self.old) }
    {
        let Ok(()) = self.jobs.start(worker, job, place) else {
            return Err(OutOfMemory);
        };
        Ok(())
    }

    /// The task of a frame's logic that has all thoughts, with which a worker goes on, on the fiber that holds it. The thoughts go
    /// into the task. What may be refused for memory comes before the event.
    pub(crate) fn turn(
        &mut self,
        worker: u32,
        fiber: Fiber,
        frame: u32,
        place: QueueIndex,
    ) -> Result<LogicTask<'t>, OutOfMemory>
        requires legal { IsLegal (setup_in self.old) (state_in self.old) (Resume worker (Logic frame)) }
        requires holder { first_place (holds (Logic frame)) (kept_in self.old).seats.jobs ≡ fiber }
        requires place { IsFirstAt (λ other. fiber == other) (kept_in self.old).queues.ready place }
        requires spread { (k : ℕ) × ((state_in self.old).phase (Logic frame) ≡ Waits (suc k)) }
        ensures happens { OnOk result (Happens self.old self.new (Resume worker (Logic frame))) }
        ensures task { IfOk result (λ task. task ≡ logic_of self.old.game frame true) }
        ensures unchanged { OnErr result (self.new ≡ self.old) }
    {
        let Ok((start, room)) = self.frame_store.ready(self.alloc, frame) else {
            return Err(OutOfMemory);
        };
        let logic = JobName::Logic { frame };
        let Ok(()) = self.jobs.resume(worker, fiber, logic, place) else {
            self.frame_store.keep_room(room);
            return Err(OutOfMemory);
        };
        Ok(self.frame_store.turn(start, room))
    }

    /// A worker goes on with a job, on the fiber that holds it.
    #[inline(always)]
    pub fn go_on(
        &mut self,
        worker: u32,
        fiber: Fiber,
        job: JobName,
        place: QueueIndex,
    ) -> Result<(), OutOfMemory>
        requires legal { IsLegal (setup_in self.old) (state_in self.old) (Resume worker job) }
        requires holder { first_place (holds job) (kept_in self.old).seats.jobs ≡ fiber }
        requires place { IsFirstAt (λ other. fiber == other) (kept_in self.old).queues.ready place }
        ensures ok { OnOk result (Happens self.old self.new (Resume worker job)) }
        ensures unchanged { OnErr result (self.new ≡ self.old) }
    {
        let Ok(()) = self.jobs.resume(worker, fiber, job, place) else {
            return Err(OutOfMemory);
        };
        self.frame_store.go_on(job);
        Ok(())
    }
}
