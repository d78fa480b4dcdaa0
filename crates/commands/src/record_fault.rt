use play_run::RunFault;

/// Why a run was not recorded to its end.
#[derive(Debug, Drop)]
pub enum RecordFault {
    OutOfMemory,
    Run(RunFault),
    /// A write of what the journal begins with failed.
    Journal,
}
