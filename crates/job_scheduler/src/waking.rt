ghost use Rattle.std.specs.Prelude.{◌≡◌, ◌<◌, ◌≤◌, ◌+◌, length, ◌==◌, if◌then◌else◌};
ghost use Rattle.board_model.specs.Lists.{all, at, add, High};
ghost use Rattle.board_model.specs.Board.{priority_on, wake};
ghost use Rattle.job_queues.specs.Names.{level};
ghost use Rattle.job_queues.specs.Waiting.{with_ready};

use super::job_table::JobTable;
use counters::Waiters;
use job_queues::{Fiber, Priority, Queues, job_priority};

#[inline(always)]
fn priority_at(jobs: &JobTable, fiber: Fiber) -> Priority
    ensures { level result ≡ priority_on (at jobs.now fiber) }
{
    match jobs.get(fiber.0) {
        Some(held) => job_priority(held.job),
        None => Priority::High,
    }
}

// Makes a fiber ready, at the priority of the job that it holds.
#[inline(always)]
fn wake_one(queues: &mut Queues, jobs: &JobTable, fiber: Fiber)
    requires { length (all queues.old.queues.ready) < queues.old.fibers }
    ensures { queues.new ≡ with_ready queues.old (add (priority_on (at jobs.now fiber)) fiber queues.old.queues.ready) }
{
    queues.put_ready(priority_at(jobs, fiber), fiber);
}

fn wake_all(queues: &mut Queues, jobs: &JobTable, fibers: &[Fiber])
    requires { length (all queues.old.queues.ready) + length fibers.now ≤ queues.old.fibers }
    ensures { queues.new ≡ with_ready queues.old (wake jobs.now queues.old.queues.ready fibers.now) }
{
    'fibers: for fiber in fibers {
        wake_one(queues, jobs, *fiber);
    }
}

// Makes fibers ready, in order, each at the priority of the job that it holds. Mostly one waits.
#[inline(always)]
pub(crate) fn wake(queues: &mut Queues, jobs: &JobTable, waiters: &Waiters)
    requires { length (all queues.old.queues.ready) + length waiters.now ≤ queues.old.fibers }
    ensures { queues.new ≡ with_ready queues.old (wake jobs.now queues.old.queues.ready waiters.now) }
{
    let Some(first) = waiters.first else {
        wake_all(queues, jobs, &waiters.more);
        return;
    };
    wake_one(queues, jobs, first);
    if waiters.more.is_empty() {
        return;
    }
    wake_all(queues, jobs, &waiters.more);
}

// A fiber that waits for nothing is ready at once.
pub(crate) fn ready_at_once(queues: &mut Queues, awaited: u32, fiber: Fiber)
    requires { awaited ≡ 0 → length (all queues.old.queues.ready) < queues.old.fibers }
    ensures { queues.new ≡ with_ready queues.old (if awaited == 0 then add High fiber queues.old.queues.ready else queues.old.queues.ready) }
{
    if awaited > 0 {
        return;
    }
    queues.put_ready(Priority::High, fiber);
}
