// What is said of a run that failed.
ghost use Rattle.commands.specs.Faults.{IsOfCause, IsOfPlay};

use command_line::Fault;
use play_run::{Cause, PlayFault};

/// The fault of a run by its cause.
pub(crate) fn cause_fault(cause: Cause) -> Fault
    ensures { IsOfCause cause result }
{
    match cause {
        Cause::OutOfMemory => Fault::OutOfMemory,
        Cause::Spawn => Fault::Spawn,
        Cause::Write => Fault::Write,
        Cause::GateClosed => Fault::GateClosed,
        Cause::Stranger => Fault::Stranger,
    }
}

/// The fault of a level or a script that is played, or of its run.
pub fn play_fault(fault: PlayFault) -> Fault
    ensures { IsOfPlay fault result }
{
    match fault {
        PlayFault::Level(fault) => Fault::from(fault),
        PlayFault::Script(fault) => Fault::from(fault),
        PlayFault::Run(fault) => cause_fault(fault.cause),
    }
}
