ghost use Rattle.std.specs.Prelude.{◌≡◌, ◌<◌, None, Some, length, replicate, slice_set, slice_index_or, option_copied, IfOk, IfSome};

use super::work::Work;
use std::alloc::{AllocError, Global};

/// A place for each worker: the work of the job that it runs, where that is done.
#[derive(Drop)]
pub(crate) struct Works<'t> {
    pub(crate) places: Vec<Option<Work<'t>>>,
}

impl<'t> Works<'t> {
    ghost use Rattle.job_board.specs.Works.{AreNone};

    /// None for any worker.
    pub(crate) fn new(alloc: Global, workers: u32) -> Result<Works<'t>, AllocError>
        ensures { IfOk result (λ works. works.places.items ≡ replicate workers None) }
    {
        let mut places = Vec::with_capacity(alloc, workers as usize)?;
        'workers: for _made in 0..workers {
            places.push(None)?;
        }
        Ok(Works { places })
    }

    /// A worker's work, which is kept no more.
    pub(crate) fn take(&mut self, worker: u32) -> Option<Work<'t>>
        requires { worker < length self.old.places.items }
        ensures work { result ≡ slice_index_or self.old.places.items worker None }
        ensures gone { self.new.places.items ≡ slice_set self.old.places.items worker None }
    {
        self.places[worker as usize].take()
    }

    pub(crate) fn clear(&mut self, worker: u32)
        requires { worker < length self.old.places.items }
        ensures { self.new.places.items ≡ slice_set self.old.places.items worker None }
    {
        self.places[worker as usize] = None;
    }

    pub(crate) fn keep(&mut self, worker: u32, work: Work<'t>)
        requires { worker < length self.old.places.items }
        ensures { self.new.places.items ≡ slice_set self.old.places.items worker (Some work.entry) }
    {
        self.places[worker as usize] = Some(work);
    }

    pub(crate) fn at(&self, worker: u32) -> Option<&Work<'t>>
        requires { worker < length self.now.places.items }
        ensures { option_copied result ≡ slice_index_or self.now.places.items worker None }
    {
        self.places[worker as usize].as_ref()
    }

    /// The lowest worker that has work, and its work.
    pub(crate) fn first(&self, workers: u32) -> Option<(u32, &Work<'t>)>
        requires { length self.now.places.items ≡ workers }
        ensures some { IfSome result (λ found. slice_index_or self.now.places.items found.0 None ≡ Some found.1.now) }
        ensures lowest { IfSome result (λ found. AreNone self.now.places.items found.0) }
        ensures below { IfSome result (λ found. found.0 < workers) }
        ensures none { result ≡ None → AreNone self.now.places.items workers }
    {
        'workers: for worker in 0..workers {
            match self.at(worker) {
                Some(work) => return Some((worker, work)),
                None => {}
            }
        }
        None
    }
}
