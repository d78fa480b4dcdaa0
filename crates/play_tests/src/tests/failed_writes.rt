use play_run::{Cause, PlayFault, RunFault, RunReport};
use std::test::Fail;

/// How many frames were written before a write failed.
pub fn frames_before_failed_write(run: Result<RunReport, PlayFault>) -> Result<u32, Fail> {
    match run {
        Err(
            PlayFault::Run(
                RunFault {
                    cause: Cause::Write,
                    frames,
                },
            ),
        ) => Ok(frames),
        _ => Err(Fail::from("no failed write")),
    }
}
