ghost use Rattle.std.specs.Prelude.{◌≡◌, ◌<◌, ◌≤◌, length, replicate, None};
ghost use Rattle.board_model.specs.Lists.{at, write};

use job_queues::Fiber;
use std::marker::Model;

/// The fiber that each worker runs, in a fixed table with room for the 64 that wide settings allow at most. Its front is used and
/// the rest is empty.
#[derive(Drop)]
pub(crate) struct WorkerTable {
    all: [Option<Fiber>; 64],
    workers: usize,
}

impl Model for WorkerTable {
    ghost use Rattle.std.specs.Prelude.{◌≤◌, ℕ, List, Option, take};
    ghost use Rattle.job_scheduler.specs.Fronts.{IsEmptyBehind};

    ghost Value = { List (Option ℕ) };

    ghost view = { λ t. take t.workers t.all };

    ghost invariant = { λ t. (t.workers ≤ 64) × IsEmptyBehind t.workers t.all };
}

impl WorkerTable {
    /// So many workers, all of which are idle.
    pub(crate) fn new(workers: u32) -> WorkerTable
        requires { workers ≤ 64 }
        ensures { result ≡ replicate workers None }
    {
        WorkerTable {
            all: [None; 64],
            workers: workers as usize,
        }
    }

    /// The fiber that a worker runs; none past the last one.
    #[inline(always)]
    pub(crate) fn get(&self, worker: u32) -> Option<Fiber>
        ensures { result ≡ at self.now worker }
    {
        match self.all.get(worker as usize) {
            Some(entry) => *entry,
            None => None,
        }
    }

    #[inline(always)]
    pub(crate) fn set(&mut self, worker: u32, fiber: Option<Fiber>)
        requires { worker < length self.old }
        ensures { self.new ≡ write self.old worker fiber }
    {
        self.all[worker as usize] = fiber;
    }
}
