ghost use Rattle.std.specs.Prelude.{◌≡◌, ℕ, IfSome, IfOk, IfErr, OnErr};
ghost use Rattle.board_model.specs.Lists.{at};
ghost use Rattle.job_queues.specs.Names.{of_level};
ghost use Rattle.job_scheduler.specs.Logged.{kept};
ghost use Rattle.frame_jobs.specs.Boards.{IsTaken, IsTakeRefused};
ghost use Rattle.frame_jobs.specs.Draws.{MayTakeUp};

use super::board::FrameJobs;
use job_core::names::{JobName, Priority};
use job_queues::Fiber;
use job_scheduler::{BoardFault, Held};

// A job that a worker may take up: a new one, or one that waited.
#[derive(Clone, Copy, Drop)]
enum Drawn {
    New(JobName),
    Ready(JobName),
}

// Any item of a list, as the number says.
fn any_of<T: Copy + Drop>(all: &[T], number: u64) -> Option<T> {
    if all.is_empty() {
        return None;
    }
    let place = number as usize % all.len();
    Some(all[place])
}

// Which jobs stand ready, and a job taken up in any order.
impl FrameJobs {
    /// The new jobs of a priority, in the order in which they came; some may lack a fiber.
    pub fn queued(&self, priority: Priority) -> &[JobName]
        ensures { (questions : ℕ → ℕ → ℕ) → result.now ≡ of_level priority (kept self.now.jobs questions).queues.fresh }
    {
        self.jobs.queued(priority)
    }

    /// The fibers of a priority whose jobs waited and may go on, in the order in which they became ready.
    pub fn ready(&self, priority: Priority) -> &[Fiber]
        ensures { (questions : ℕ → ℕ → ℕ) → result.now ≡ of_level priority (kept self.now.jobs questions).queues.ready }
    {
        self.jobs.ready(priority)
    }

    /// The job that a fiber holds, if it holds one.
    pub fn held_by(&self, fiber: Fiber) -> Option<Held>
        ensures { (questions : ℕ → ℕ → ℕ) → result ≡ at (kept self.now.jobs questions).seats.jobs fiber }
    {
        self.jobs.held_by(fiber)
    }

    // A new job of a priority, if the worker may start the one that the number says.
    fn new_of(&self, priority: Priority, worker: u32, number: u64) -> Option<Drawn>
        ensures { IfSome result (MayTakeUp self.now worker) }
    {
        let job = any_of(self.jobs.queued(priority), number)?;
        self.jobs.may_start(worker, job)?;
        Some(Drawn::New(job))
    }

    // The same of the jobs that waited.
    fn ready_of(&self, priority: Priority, worker: u32, number: u64) -> Option<Drawn>
        ensures { IfSome result (MayTakeUp self.now worker) }
    {
        let fiber = any_of(self.jobs.ready(priority), number)?;
        let held = self.jobs.held_by(fiber)?;
        self.jobs.may_resume(worker, held.job)?;
        Some(Drawn::Ready(held.job))
    }

    fn drawn_of(&self, list: u64, worker: u32, number: u64) -> Option<Drawn>
        ensures { IfSome result (MayTakeUp self.now worker) }
    {
        match list {
            0 => self.new_of(Priority::High, worker, number),
            1 => self.new_of(Priority::Normal, worker, number),
            2 => self.new_of(Priority::Low, worker, number),
            3 => self.ready_of(Priority::High, worker, number),
            _ => self.ready_of(Priority::Normal, worker, number),
        }
    }

    // A draw never waits, so there are five lists. One after another is tried from the one that the number says.
    fn drawn(&self, worker: u32, number: u64) -> Option<Drawn>
        ensures { IfSome result (MayTakeUp self.now worker) }
    {
        let from = number % 5;
        'lists: for more in 0..5u64 {
            let found = self.drawn_of((from + more) % 5, worker, number / 5);
            if found.is_some() {
                return found;
            }
        }
        None
    }

    /// Takes up any job that the worker may take up, as the number says; where that one may not be, what `take` gives. None only
    /// where the worker can neither start nor resume a job.
    pub fn take_any(&mut self, worker: u32, number: u64) -> Result<Option<Held>, BoardFault>
        ensures ok { IfOk result (IsTaken self.old self.new worker) }
        ensures refused { IfErr result (IsTakeRefused self.old worker) }
        ensures unchanged { OnErr result (self.new ≡ self.old) }
    {
        match self.drawn(worker, number) {
            Some(Drawn::New(job)) => {
                self.start(worker, job)?;
                Ok(Some(Held {
                    job,
                    step: 0,
                    worker: Some(worker),
                }))
            }
            Some(Drawn::Ready(job)) => {
                let step = self.resume(worker, job)?;
                Ok(Some(Held {
                    job,
                    step,
                    worker: Some(worker),
                }))
            }
            None => self.take(worker),
        }
    }
}
