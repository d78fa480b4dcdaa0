ghost use Rattle.std.specs.Prelude.{◌≡◌, ◌<◌, ◌≤◌, length, position, replicate, None, IfSome};
ghost use Rattle.board_model.specs.Lists.{at, write};
ghost use Rattle.board_model.specs.Board.{holds};

use super::held::Held;
use job_core::names::JobName;
use job_queues::is_same;
use std::marker::Model;

/// What each fiber holds, in a fixed table with room for the 64 small and 64 large ones that wide settings allow at most. Its front
/// is used and the rest is empty, so that `get` need not know how many fibers there are.
#[derive(Drop)]
pub(crate) struct JobTable {
    all: [Option<Held>; 128],
    fibers: usize,
}

impl Model for JobTable {
    ghost use Rattle.std.specs.Prelude.{◌≤◌, List, Option, take};
    ghost use Rattle.board_model.specs.Board.{Held as HeldJob};
    ghost use Rattle.job_scheduler.specs.Fronts.{IsEmptyBehind};

    ghost Value = { List (Option HeldJob) };

    ghost view = { λ t. take t.fibers t.all };

    ghost invariant = { λ t. (t.fibers ≤ 128) × IsEmptyBehind t.fibers t.all };
}

fn is_held(job: JobName, held: Option<Held>) -> bool
    ensures { result ≡ holds job held }
{
    match held {
        Some(held) => is_same(job, held.job),
        None => false,
    }
}

fn position_of(jobs: &[Option<Held>], job: JobName) -> Option<usize>
    ensures value { result ≡ position (holds job) jobs.now }
    ensures bound { IfSome result (λ place. place < length jobs.now) }
{
    jobs.iter().position(|held| is_held(job, *held))
}

impl JobTable {
    /// So many fibers, none of which holds a job.
    pub(crate) fn new(fibers: u32) -> JobTable
        requires { fibers ≤ 128 }
        ensures { result ≡ replicate fibers None }
    {
        JobTable {
            all: [None; 128],
            fibers: fibers as usize,
        }
    }

    /// What a fiber holds; none past the last one.
    #[inline(always)]
    pub(crate) fn get(&self, fiber: u32) -> Option<Held>
        ensures { result ≡ at self.now fiber }
    {
        match self.all.get(fiber as usize) {
            Some(entry) => *entry,
            None => None,
        }
    }

    #[inline(always)]
    pub(crate) fn set(&mut self, fiber: u32, held: Option<Held>)
        requires { fiber < length self.old }
        ensures { self.new ≡ write self.old fiber held }
    {
        self.all[fiber as usize] = held;
    }

    /// The first fiber that holds a job.
    pub(crate) fn holder(&self, job: JobName) -> Option<usize>
        ensures value { result ≡ position (holds job) self.now }
        ensures bound { IfSome result (λ fiber. fiber < length self.now) }
    {
        position_of(&self.all[..self.fibers], job)
    }
}
