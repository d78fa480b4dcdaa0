ghost use Rattle.std.specs.Prelude.{◌≡◌, ◌<◌, IfSome, None, Some, false, ◌↔◌, IsTrue};
ghost use Rattle.job_core.specs.Core.{IsIdle, IsLegal};
ghost use Rattle.task_board.specs.Boards.{setup_in, state_in};
ghost use Rattle.task_board.specs.Given.{AllBusy, IsGiven, NobodyStarts};

use super::board::TaskBoard;
use job_core::names::Event;
use job_scheduler::Next;

// What comes next, of a board that is not stopped. None of these takes memory.
impl<'t> TaskBoard<'t> {
    fn is_idle(&self, worker: u32) -> bool
        requires on { (state_in self.now).stopped ≡ false }
        requires worker { worker < self.now.numbers.workers }
        ensures { IsTrue result ↔ IsIdle (state_in self.now) worker }
    {
        match self.jobs.running(worker) {
            Ok(_) => false,
            Err(_) => true,
        }
    }

    // The lowest idle worker.
    fn first_idle(&self) -> Option<u32>
        requires { (state_in self.now).stopped ≡ false }
        ensures below { IfSome result (λ worker. worker < self.now.numbers.workers) }
        ensures idle { IfSome result (IsIdle (state_in self.now)) }
        ensures lowest { IfSome result (AllBusy self.now) }
        ensures none { result ≡ None → AllBusy self.now self.now.numbers.workers }
    {
        'workers: for worker in 0..self.settings().workers() {
            if self.is_idle(worker) {
                return Some(worker);
            }
        }
        None
    }

    /// The job that the lowest idle worker starts or goes on with.
    pub fn next_given(&self) -> Option<Event>
        requires { (state_in self.now).stopped ≡ false }
        ensures legal { IfSome result (IsLegal (setup_in self.now) (state_in self.now)) }
        ensures given { IfSome result (IsGiven self.now) }
        ensures none { result ≡ None → NobodyStarts self.now }
    {
        let Some(worker) = self.first_idle() else {
            return None;
        };
        let Ok(given) = self.jobs.given(worker) else {
            return None;
        };
        let Some(next) = given else {
            return None;
        };
        match next {
            Next::Start(job, _) => Some(Event::Start { worker, job }),
            Next::Resume(_, held, _) => Some(Event::Resume {
                worker,
                job: held.job,
            }),
        }
    }
}
