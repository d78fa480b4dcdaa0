// Two workers share the work of a run, also behind the gate that the program uses.
use play_run::{EveryJob, run_bytes};
use std::alloc::Global;
use std::sync::Wait;
use std::test::Fail;
use std::thread::Threads;
use std::time::Clock;
use task_board::Settings;

const FRAMES: u32 = 100;

// Of a frame's more than fifty events a worker that has some part in it makes one at least.
const SOME: u64 = 100;

// Agents whose ticks are long: each of a tree's 254 conditions is looked at.
fn long_ticks(alloc: Global) -> Result<String, Fail> {
    let mut level = String::new(alloc);
    level.push_str("{\"map\":[\"ABCDEFGHIJKLMNOPQRSTUVWXYZ\"],\"agents\":[\"t\"")?;
    for _agent in 1..26 {
        level.push_str(",\"t\"")?;
    }
    level.push_str("],\"trees\":{\"t\":[\"fallback\"")?;
    for _condition in 0..254 {
        level.push_str(",[\"carrying\"]")?;
    }
    level.push_str("]}}")?;
    Ok(level)
}

// The steps of each of two workers.
fn steps<R: Threads + Wait + Clock + Sync>(
    rt: &R,
    alloc: Global,
    level: &str,
) -> Result<[u64; 2], Fail> {
    let settings = Settings::new(FRAMES, 2, 8, 8, 3)?;
    let mut out: Vec<u8> = Vec::new(alloc);
    let Ok(report) = run_bytes(
        rt,
        alloc,
        level.as_bytes(),
        b"",
        settings,
        &mut out,
        &EveryJob,
    ) else {
        return Err(Fail::from("a fault"));
    };
    match report.steps.as_slice() {
        [first, second] => Ok([*first, *second]),
        _ => Err(Fail::from("another number of workers")),
    }
}

#[test]
fn both_of_two_workers_work(rt: HostRuntime) -> Result<(), Fail> {
    let level = long_ticks(rt.alloc())?;
    for _run in 0..20 {
        let [first, second] = steps(&rt, rt.alloc(), level.as_str())?;
        if first > SOME && second > SOME {
            return Ok(());
        }
    }
    Err(Fail::from("one of them did it all"))
}
