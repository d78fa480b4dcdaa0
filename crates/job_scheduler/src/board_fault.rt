/// Why a board refuses a call: the first of these that applies.
#[derive(Clone, Copy, Debug, PartialEq, Eq)]
pub enum BoardFault {
    Stopped,
    /// There is no such worker.
    NoWorker,
    /// The worker runs a job already.
    Busy,
    /// The worker runs no job; of an event that is given, also: it runs one that was handed out.
    NotRunning,
    /// The value is of another job, question or session.
    WrongResult,
    /// The event may not happen now.
    Illegal,
    OutOfMemory,
}
