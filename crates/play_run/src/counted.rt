ghost use Rattle.std.specs.Prelude.{◌≡◌, ◌==◌, ℕ, IfOk, IfSome, None, false};
ghost use Rattle.play_run.specs.Reports.{counts_for, AreCountsOf};

use std::alloc::{AllocError, Global};
use task_board::{Event, JobName};

/// What a report counts of each worker.
#[derive(Clone, Copy)]
pub(crate) enum Counted {
    /// The events that name it.
    Steps,
    /// The Draws that it ended.
    Bands,
}

impl Counted {
    // The worker for which the event counts.
    fn counts(self, event: &Event) -> Option<u32>
        ensures some { IfSome result (λ worker. (w : ℕ) → counts_for self w event.now ≡ (worker == w)) }
        ensures none { result ≡ None → (w : ℕ) → counts_for self w event.now ≡ false }
    {
        match self {
            Self::Steps => event.worker(),
            Self::Bands => match event {
                Event::Finish {
                    worker,
                    job: JobName::Draw { .. },
                } => Some(*worker),
                _ => None,
            },
        }
    }

    /// For each worker, how many of the events count for it.
    pub fn of_all(
        self,
        alloc: Global,
        events: &[Event],
        workers: u32,
    ) -> Result<Vec<u64>, AllocError>
        ensures { IfOk result (λ v. AreCountsOf (counts_for self) workers events.now v.items) }
    {
        let mut all = Vec::from_elem(alloc, 0, workers as usize)?;
        'events: for event in events {
            if let Some(worker) = self.counts(event) {
                if let Some(number) = all.get_mut(worker as usize) {
                    *number += 1;
                }
            }
        }
        Ok(all)
    }
}
