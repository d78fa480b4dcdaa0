use crate::ledger::RunLedger;
use crate::run_task::RunTask;

/// What a worker that looks for a task is given.
#[derive(Drop)]
pub enum Given<'t, L: RunLedger> {
    /// A task, and whether the worker asked for it and another one can be taken.
    Task(RunTask<'t, L>, bool),
    /// Others have all that can be done.
    Nothing,
    /// The board is done or stopped: there is no task any more.
    Over,
}
