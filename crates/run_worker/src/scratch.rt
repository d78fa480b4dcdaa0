ghost use Rattle.std.specs.Prelude.{IfOk, IsOk};
ghost use Rattle.frame_params.specs.Tasks.{IsStepOf, IsBeginning};

use bumpalo::Bump;
use frame_params::{Step, Task};
use std::alloc::{AllocError, Global};

/// A worker's own arena, which each of its jobs finds empty. It can't leave the thread that made it.
#[derive(Drop)]
pub struct Scratch {
    arena: Bump,
}

impl Scratch {
    /// An empty arena, which takes its blocks from `alloc`.
    pub fn new(alloc: Global) -> Scratch {
        Scratch {
            arena: Bump::new(alloc),
        }
    }

    /// Does the work of a task: what the work alone keeps lies in the arena, and the rest in `alloc`.
    pub fn work<'t>(&mut self, alloc: Global, task: &Task<'t>) -> Result<Step<'t>, AllocError>
        ensures step { IfOk result (λ step. IsStepOf task.now step) }
        ensures begins { IsBeginning task.now → IsOk result }
    {
        let step = task.work_in(alloc, &self.arena);
        if self.arena.reset().is_err() {
            self.arena = Bump::new(alloc);
        }
        step
    }
}
