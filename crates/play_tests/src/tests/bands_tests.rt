// How many bands a report says that each worker drew.
use super::levels::{CROWD, THREE_BANDS, WALK};
use play_run::{EveryJob, RunReport, run_bytes};
use std::alloc::Global;
use std::sync::Wait;
use std::test::Fail;
use std::thread::Threads;
use std::time::Clock;
use task_board::Settings;

fn report_of<R: Threads + Wait + Clock + Sync>(
    rt: &R,
    alloc: Global,
    level: &[u8],
    frames: u32,
    workers: u32,
) -> Result<RunReport, Fail> {
    let settings = Settings::new(frames, workers, 8, 8, 3)?;
    let mut out: Vec<u8> = Vec::new(alloc);
    match run_bytes(rt, alloc, level, b"", settings, &mut out, &EveryJob) {
        Ok(report) => Ok(report),
        Err(_) => Err(Fail::from("a fault")),
    }
}

fn sum(bands: &[u64]) -> u64 {
    let mut all = 0u64;
    for drawn in bands {
        all = all.saturating_add(*drawn);
    }
    all
}

#[test]
fn one_worker_draws_all_bands(rt: HostRuntime) -> Result<(), Fail> {
    let report = report_of(&rt, rt.alloc(), THREE_BANDS, 2, 1)?;
    assert_eq!(rt; report.bands.as_slice(), [6u64].as_slice());
    Ok(())
}

#[test]
fn the_bands_of_all_workers_add_up(rt: HostRuntime) -> Result<(), Fail> {
    for workers in 2..17u32 {
        let report = report_of(&rt, rt.alloc(), THREE_BANDS, 2, workers)?;
        assert_eq!(rt; report.bands.len(), workers as usize);
        assert_eq!(rt; sum(&report.bands), 6, "{workers}");
    }
    for workers in [1, 16] {
        let report = report_of(&rt, rt.alloc(), CROWD, 2, workers)?;
        assert_eq!(rt; sum(&report.bands), 2, "{workers}");
    }
    Ok(())
}

#[test]
fn no_worker_draws_where_there_is_no_frame(rt: HostRuntime) -> Result<(), Fail> {
    for workers in [1, 2, 16] {
        let report = report_of(&rt, rt.alloc(), WALK, 0, workers)?;
        assert_eq!(rt; report.bands.len(), workers as usize);
        assert_eq!(rt; sum(&report.bands), 0, "{workers}");
    }
    Ok(())
}
