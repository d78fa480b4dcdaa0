ghost use Rattle.std.specs.Prelude.{◌≡◌, ◌↔◌, ℕ, IfOk, IfErr, OnErr, IsTrue};
ghost use Rattle.job_core.specs.declared.names.Event.TheVariants.{Ask, Finish, Emit};
ghost use Rattle.frame_jobs.specs.Boards.{IsAsked, IsTurned, SpreadsOrHolds, MayHappen, MaySpreadOrHold, Happens, IsRefused, IsShowRefused, IsStoppedBy};

use super::board::FrameJobs;
use job_core::names::JobName;
use job_scheduler::{BoardFault, Held};

// Whether a job may be over that has come so far, but for what it still wants to ask.
fn is_turned(held: Held) -> bool
    ensures { IsTrue result ↔ IsTurned held.job held.step }
{
    match held.job {
        JobName::Logic { .. } => held.step == 1,
        _ => true,
    }
}

// A worker tells what its job has come to.
impl FrameJobs {
    /// The worker's Think asks its next question: its Path is queued, and the Think waits for it. Refused as Illegal after the
    /// most questions.
    pub fn ask(&mut self, worker: u32) -> Result<JobName, BoardFault>
        ensures ok { IfOk result (IsAsked self.old self.new worker) }
        ensures refused { IfErr result (IsRefused self.old worker (λ job. MayHappen self.old (Ask worker job))) }
        ensures unchanged { OnErr result (self.new ≡ self.old) }
    {
        let held = self.jobs.running(worker)?;
        let JobName::Think { frame, agent } = held.job else {
            return Err(BoardFault::Illegal);
        };
        if held.step >= self.most_questions {
            return Err(BoardFault::Illegal);
        }
        let question = held.step;
        let Ok(()) = self.jobs.ask(worker, frame, agent, question) else {
            return Err(BoardFault::OutOfMemory);
        };
        Ok(JobName::Path {
            frame,
            agent,
            question,
        })
    }

    /// The worker's frame begins: its thinks are queued, or it waits for its slot. Tells whether it has begun.
    pub fn spread(&mut self, worker: u32) -> Result<bool, BoardFault>
        ensures ok { IfOk result (λ spread. (frame : ℕ) × SpreadsOrHolds self.old self.new worker (JobName.Logic frame) spread) }
        ensures refused { IfErr result (IsRefused self.old worker (MaySpreadOrHold self.old worker)) }
        ensures unchanged { OnErr result (self.new ≡ self.old) }
    {
        let held = self.jobs.running(worker)?;
        let JobName::Logic { frame } = held.job else {
            return Err(BoardFault::Illegal);
        };
        if held.step != 0 {
            return Err(BoardFault::Illegal);
        }
        if self.jobs.has_slot(frame) {
            let Ok(()) = self.jobs.spread(worker, frame) else {
                return Err(BoardFault::OutOfMemory);
            };
            Ok(true)
        } else {
            let Ok(()) = self.jobs.hold(worker, frame) else {
                return Err(BoardFault::OutOfMemory);
            };
            Ok(false)
        }
    }

    /// The worker's job is over: a Logic that has all thoughts, a Think that asks no more, a Path or a Draw.
    pub fn finish(&mut self, worker: u32) -> Result<JobName, BoardFault>
        ensures ok { IfOk result (λ job. Happens self.old self.new (Finish worker job)) }
        ensures refused { IfErr result (IsRefused self.old worker (λ job. MayHappen self.old (Finish worker job))) }
        ensures unchanged { OnErr result (self.new ≡ self.old) }
    {
        let held = self.jobs.running(worker)?;
        if !is_turned(held) {
            return Err(BoardFault::Illegal);
        }
        let Ok(()) = self.jobs.finish(worker, held.job) else {
            return Err(BoardFault::OutOfMemory);
        };
        Ok(held.job)
    }

    /// The next frame is shown, and its slot is free.
    pub fn show(&mut self) -> Result<u32, BoardFault>
        ensures ok { IfOk result (λ frame. Happens self.old self.new (Emit frame)) }
        ensures refused { IfErr result (IsShowRefused self.old) }
        ensures unchanged { OnErr result (self.new ≡ self.old) }
    {
        let frame = self.jobs.to_emit()?;
        let Ok(()) = self.jobs.emit(frame) else {
            return Err(BoardFault::OutOfMemory);
        };
        Ok(frame)
    }

    /// Nothing happens any more.
    pub fn stop(&mut self)
        ensures { IsStoppedBy self.old self.new }
    {
        if self.jobs.is_stopped() {
            return;
        }
        self.jobs.stop();
    }
}
