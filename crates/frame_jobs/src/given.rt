ghost use Rattle.std.specs.Prelude.{◌≡◌, IfOk, IfErr, OnOk, OnErr};
ghost use Rattle.job_core.specs.declared.names.Event.TheVariants.{Start, Resume};
ghost use Rattle.job_core.specs.Core.{Waits};
ghost use Rattle.job_scheduler.specs.Looks.{Always};
ghost use Rattle.frame_jobs.specs.Boards.{IsTaken, IsFirst, Happens, IsTakeRefused, IsBarred};

use super::board::FrameJobs;
use job_core::names::JobName;
use job_scheduler::{BoardFault, Held, Next};

// A worker takes up a job.
impl FrameJobs {
    /// A job for an idle worker: of the highest priority that has one, the job that is ready first, or else the first new one
    /// that may start. None only where the worker can neither start nor resume a job.
    pub fn take(&mut self, worker: u32) -> Result<Option<Held>, BoardFault>
        ensures ok { IfOk result (IsTaken self.old self.new worker) }
        ensures first { IfOk result (IsFirst self.old) }
        ensures refused { IfErr result (IsTakeRefused self.old worker) }
        ensures unchanged { OnErr result (self.new ≡ self.old) }
    {
        let given = match self.jobs.given(worker) {
            Ok(given) => given,
            Err(fault) => return Err(fault),
        };
        let Some(next) = given else {
            return Ok(None);
        };
        match next {
            Next::Start(job, place) => {
                let Ok(()) = self.jobs.start(worker, job, place) else {
                    return Err(BoardFault::OutOfMemory);
                };
                Ok(Some(Held {
                    job,
                    step: 0,
                    worker: Some(worker),
                }))
            }
            Next::Resume(fiber, held, place) => {
                let Ok(()) = self.jobs.resume(worker, fiber, held.job, place) else {
                    return Err(BoardFault::OutOfMemory);
                };
                Ok(Some(Held {
                    job: held.job,
                    step: held.step,
                    worker: Some(worker),
                }))
            }
        }
    }

    /// A worker starts this very job, as a log or a drawn order says.
    pub fn start(&mut self, worker: u32, job: JobName) -> Result<(), BoardFault>
        ensures ok { OnOk result (Happens self.old self.new (Start worker job)) }
        ensures refused { IfErr result (IsBarred self.old (Start worker job)) }
        ensures unchanged { OnErr result (self.new ≡ self.old) }
    {
        let Some(place) = self.jobs.may_start(worker, job) else {
            return Err(BoardFault::Illegal);
        };
        let Ok(()) = self.jobs.start(worker, job, place) else {
            return Err(BoardFault::OutOfMemory);
        };
        Ok(())
    }

    /// A worker goes on with this very job, and learns how far it has come.
    pub fn resume(&mut self, worker: u32, job: JobName) -> Result<u32, BoardFault>
        ensures ok { OnOk result (Happens self.old self.new (Resume worker job)) }
        ensures step { IfOk result (λ step. Always self.old.jobs (λ s st. st.phase job ≡ Waits step)) }
        ensures refused { IfErr result (IsBarred self.old (Resume worker job)) }
        ensures unchanged { OnErr result (self.new ≡ self.old) }
    {
        let Some((fiber, held, place)) = self.jobs.may_resume(worker, job) else {
            return Err(BoardFault::Illegal);
        };
        let Ok(()) = self.jobs.resume(worker, fiber, job, place) else {
            return Err(BoardFault::OutOfMemory);
        };
        Ok(held.step)
    }
}
