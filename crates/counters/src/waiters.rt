ghost use Rattle.std.specs.Prelude.{◌≡◌, ◌∷◌, []};

use super::counter::WaitList;
use job_queues::Fiber;
use std::alloc::{AllocError, Global};
use std::marker::Model;

/// The fibers that wait for one counter of a board, in the order in which they came. The first lies in a place of its
/// own, so that one that waits alone takes no memory.
#[derive(Drop)]
pub struct Waiters {
    pub first: Option<Fiber>,
    pub more: Vec<Fiber>,
}

impl Model for Waiters {
    ghost use Rattle.std.specs.Prelude.{ℕ, List};
    ghost use Rattle.counters.specs.Waiting.{listed};

    ghost Value = { List ℕ };

    ghost view = { λ w. listed w.first w.more.items };
}

impl Waiters {
    pub(crate) fn none(alloc: Global) -> Waiters
        ensures { result ≡ [] }
    {
        Waiters {
            first: None,
            more: Vec::new(alloc),
        }
    }

    pub(crate) fn one(alloc: Global, fiber: Fiber) -> Waiters
        ensures { result ≡ fiber ∷ [] }
    {
        Waiters {
            first: Some(fiber),
            more: Vec::new(alloc),
        }
    }
}

impl WaitList for Waiters {
    ghost fibers = { λ list. list };

    /// Only a second fiber and those after it take memory.
    fn put(&mut self, fiber: Fiber) -> Result<(), AllocError> {
        if self.first.is_none() && self.more.is_empty() {
            self.first = Some(fiber);
            return Ok(());
        }
        self.more.push(fiber)?;
        Ok(())
    }
}
