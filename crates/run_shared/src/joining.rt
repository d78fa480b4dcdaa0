ghost use Rattle.std.specs.Prelude.{◌≡◌, OnOk, IfOk, IfErr, Ok, None, Some};
ghost use Rattle.run_shared.specs.Causes.{cause_of};
ghost use Rattle.run_shared.specs.Printed.{frames_of};

use crate::fault::{Cause, RunFault};

/// What a run comes to whose threads are joined, from what the printing of `last` frames came to and the lowest of the
/// causes that workers met. A worker's fault fails a run too whose frames are all printed. Of both causes the lower one
/// is answered.
pub fn joined<T: Drop>(
    printed: Result<T, RunFault>,
    met: Option<Cause>,
    last: u32,
) -> Result<T, RunFault>
    ensures ok { IfOk result (λ value. printed ≡ Ok value) }
    ensures met { OnOk result (met ≡ None) }
    ensures cause { IfErr result (λ e. Some e.cause ≡ cause_of printed met) }
    ensures frames { IfErr result (λ e. e.frames ≡ frames_of printed last) }
{
    match (printed, met) {
        (Ok(value), None) => Ok(value),
        (Err(fault), None) => Err(fault),
        (Ok(_), Some(cause)) => Err(RunFault {
            cause,
            frames: last,
        }),
        (Err(fault), Some(cause)) => Err(RunFault {
            cause: cause.lower(fault.cause),
            frames: fault.frames,
        }),
    }
}
