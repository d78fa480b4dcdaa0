ghost use Rattle.std.specs.Prelude.{◌≡◌, IfOk, IsOk};
ghost use Rattle.frame_params.specs.Tasks.{game_of, job_of, IsStepOf, IsBeginning};
ghost use Rattle.frame_params.specs.Leases.{IsLeaseOf};

use crate::lease::Lease;
use crate::path_task::PathTask;
use crate::step::Step;
use crate::think_task::ThinkTask;
use frame_state::{DrawTask, LogicTask};
use job_core::names::JobName;
use std::alloc::{AllocError, Allocator, Global};

/// The work that a job stands at.
pub enum Task<'t> {
    Logic(LogicTask<'t>),
    Think(ThinkTask<'t>),
    Path(PathTask<'t>),
    Draw(DrawTask<'t>),
}

impl<'t> Drop for Task<'t> {
    fn drop(self) {
        match self {
            Self::Logic(_) | Self::Think(_) | Self::Path(_) | Self::Draw(_) => {}
        }
    }
}

impl<'t> Task<'t> {
    /// The job whose task it is.
    pub fn name(&self) -> JobName
        ensures { result ≡ job_of self.now }
    {
        match self {
            Task::Logic(task) => task.name(),
            Task::Think(task) => task.name(),
            Task::Path(task) => task.name(),
            Task::Draw(task) => task.name(),
        }
    }

    /// Lets go of the task, whose work is done. What all tasks of its frame share goes into the lease, and what the lease had in
    /// that place is let go too.
    #[inline(always)]
    pub fn give_back(self, lease: &mut Lease<'t>)
        requires { IsLeaseOf (game_of self) lease.old }
        ensures { IsLeaseOf (game_of self.entry) lease.new }
    {
        match self {
            Task::Logic(_task) => {}
            Task::Think(task) => lease.start = Some(task.into_start()),
            Task::Path(task) => lease.start = Some(task.into_start()),
            Task::Draw(task) => lease.world = Some(task.into_world()),
        }
    }

    /// Does the work. The only fault is out of memory; the task is as it was, and may be worked again.
    pub fn work(&self, alloc: Global) -> Result<Step<'t>, AllocError>
        ensures step { IfOk result (λ step. IsStepOf self.now step) }
        ensures begins { IsBeginning self.now → IsOk result }
    {
        self.work_in(alloc, alloc)
    }

    /// The same, where what is kept for the work alone lies in `scratch`, as an arena of the worker's own: of a thought the
    /// open nodes and the wants, of a path question the table and the queue of its search. Nothing of it is left there when
    /// the work is done.
    pub fn work_in<A: Allocator + Clone>(
        &self,
        alloc: Global,
        scratch: A,
    ) -> Result<Step<'t>, AllocError>
        ensures step { IfOk result (λ step. IsStepOf self.now step) }
        ensures begins { IsBeginning self.now → IsOk result }
    {
        match self {
            Task::Logic(task) => Ok(Step::Logic(task.work(alloc)?)),
            Task::Think(task) => Ok(Step::Think(task.work_in(alloc, scratch)?)),
            Task::Path(task) => Ok(Step::Path(task.work_in(alloc, scratch)?)),
            Task::Draw(task) => Ok(Step::Draw(task.work(alloc)?)),
        }
    }
}
