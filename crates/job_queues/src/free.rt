ghost use Rattle.std.specs.Prelude.{◌≡◌};
ghost use Rattle.job_core.specs.Core.{size_of};
ghost use Rattle.job_queues.specs.Lanes.{may_start};

use job_core::names::{JobName, Size};

/// How many fibers of each size are free.
#[derive(Clone, Copy, Drop)]
pub(crate) struct Free {
    pub(crate) small: u32,
    pub(crate) large: u32,
}

/// The size of a job's fiber.
#[inline(always)]
pub fn size_of(job: JobName) -> Size
    ensures { result ≡ size_of job }
{
    job.size()
}

impl Free {
    /// Whether a job may start: a fiber of its size is free.
    #[inline(always)]
    pub(crate) fn may_start(self, job: JobName) -> bool
        ensures { result ≡ may_start self job }
    {
        match job.size() {
            Size::Small => self.small > 0,
            Size::Large => self.large > 0,
        }
    }
}
