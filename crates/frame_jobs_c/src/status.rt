// The statuses that calls answer, by their numbers in btjobs.h.
ghost use Rattle.std.specs.Prelude.{◌≡◌, ◌≢◌};
ghost use Rattle.frame_jobs_c.specs.Statuses.{status_of, done, closed, nothing};

use frame_jobs::BoardFault;

pub(crate) const OK: u32 = 0;

pub(crate) const NO_MEMORY: u32 = 1;

pub(crate) const CLOSED: u32 = 2;

pub(crate) const OPEN: u32 = 3;

pub(crate) const STOPPED: u32 = 4;

pub(crate) const NO_WORKER: u32 = 5;

pub(crate) const BUSY: u32 = 6;

pub(crate) const NOT_RUNNING: u32 = 7;

pub(crate) const ILLEGAL: u32 = 8;

pub(crate) const NOTHING: u32 = 9;

pub(crate) const LIMITS: u32 = 10;

pub(crate) const SHORT: u32 = 11;

pub(crate) const LOG_HEAD: u32 = 12;

pub(crate) const LOG_LINE: u32 = 13;

// The number of a board's fault. No call of a board without values answers WrongResult.
pub(crate) fn status_of(fault: BoardFault) -> u32
    ensures value { result ≡ status_of fault }
    ensures refused { result ≢ done }
    ensures held { result ≢ closed }
    ensures something { result ≢ nothing }
{
    match fault {
        BoardFault::Stopped => STOPPED,
        BoardFault::NoWorker => NO_WORKER,
        BoardFault::Busy => BUSY,
        BoardFault::NotRunning => NOT_RUNNING,
        BoardFault::WrongResult | BoardFault::Illegal => ILLEGAL,
        BoardFault::OutOfMemory => NO_MEMORY,
    }
}
