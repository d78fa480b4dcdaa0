use task_board::JobName;

/// Asked by a worker for each task that it is given: once before the work, and once behind it where the work succeeded. It is
/// asked with the board's lock free, so it may wait until other workers have come. A run whose gate answers false ends.
pub trait Gate: Sync {
    /// Whether the worker may go on with this job. `worked` says that it is asked behind the work.
    fn pass(&self, worker: u32, job: JobName, worked: bool) -> bool;
}

/// A gate that lets every job pass.
#[derive(Clone, Copy, Drop)]
pub struct EveryJob;

impl Gate for EveryJob {
    fn pass(&self, _worker: u32, _job: JobName, _worked: bool) -> bool {
        true
    }
}
