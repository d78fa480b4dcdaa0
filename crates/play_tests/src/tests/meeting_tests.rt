// Jobs that are held until others have come: with workers enough the run comes to its end, with one fewer its gate closes.
use super::gates::{Four, Until};
use super::levels::{
    FOUR_BANDS, FOUR_BANDS_TEXT, FOUR_NEIGHBOURS, FOUR_NEIGHBOURS_TEXT, NEIGHBOURS,
    NEIGHBOURS_TEXT, RACE, RACE_TEXT, WALK, WALK_TEXT_OF_2,
};
use play_run::{Cause, Gate, PlayFault, RunFault, run_bytes};
use std::alloc::Global;
use std::sync::Wait;
use std::sync::atomic::AtomicU64;
use std::test::Fail;
use std::thread::Threads;
use std::time::Clock;
use task_board::{JobName, Settings};

// How often a held job looks for others that come.
const LOOKS: u64 = 1_000_000_000;

// What a gate looks that nobody opens: it comes to the same, and takes a tenth of the time.
const FEWER_LOOKS: u64 = 100_000_000;

// Two jobs of a level, of which the first is held until the second has come.
struct Meeting {
    level: &'static [u8],
    frames: u32,
    held: JobName,
    other: JobName,
    worked: bool,
    text: &'static [u8],
}

static MEETINGS: [Meeting; 4] = [
    Meeting {
        level: NEIGHBOURS,
        frames: 1,
        held: JobName::Think { frame: 1, agent: 0 },
        other: JobName::Think { frame: 1, agent: 1 },
        worked: false,
        text: NEIGHBOURS_TEXT,
    },
    Meeting {
        level: NEIGHBOURS,
        frames: 1,
        held: JobName::Think { frame: 1, agent: 0 },
        other: JobName::Think { frame: 1, agent: 1 },
        worked: true,
        text: NEIGHBOURS_TEXT,
    },
    Meeting {
        level: RACE,
        frames: 1,
        held: JobName::Path {
            frame: 1,
            agent: 0,
            question: 0,
        },
        other: JobName::Path {
            frame: 1,
            agent: 1,
            question: 0,
        },
        worked: false,
        text: RACE_TEXT,
    },
    Meeting {
        level: WALK,
        frames: 2,
        held: JobName::Think { frame: 2, agent: 0 },
        other: JobName::Draw { frame: 1, band: 0 },
        worked: false,
        text: WALK_TEXT_OF_2,
    },
];

impl Meeting {
    fn gate(&self, looks: u64) -> Until {
        Until {
            held: self.held,
            other: self.other,
            worked: self.worked,
            looks,
            come: AtomicU64::new(0),
        }
    }
}

// What a run of a level writes, where it comes to its end, and none where its gate closes at once.
fn written<G: Gate, R: Threads + Wait + Clock + Sync>(
    rt: &R,
    alloc: Global,
    level: &[u8],
    frames: u32,
    workers: u32,
    gate: &G,
) -> Result<Option<Vec<u8>>, Fail> {
    let settings = Settings::new(frames, workers, 8, 8, 3)?;
    let mut out: Vec<u8> = Vec::new(alloc);
    match run_bytes(rt, alloc, level, b"", settings, &mut out, gate) {
        Ok(_) => Ok(Some(out)),
        Err(
            PlayFault::Run(
                RunFault {
                    cause: Cause::GateClosed,
                    frames: 0,
                },
            ),
        ) if out.is_empty() => Ok(None),
        Err(_) => Err(Fail::from("another fault")),
    }
}

fn is_text(written: &Option<Vec<u8>>, text: &[u8]) -> bool {
    match written {
        Some(bytes) => bytes.as_slice() == text,
        None => false,
    }
}

#[test]
fn two_workers_work_two_jobs_at_once(rt: HostRuntime) -> Result<(), Fail> {
    for meeting in &MEETINGS {
        for workers in [2, 16] {
            let gate = meeting.gate(LOOKS);
            let ended = written(
                &rt,
                rt.alloc(),
                meeting.level,
                meeting.frames,
                workers,
                &gate,
            )?;
            assert!(rt; is_text(&ended, meeting.text), "{workers}");
        }
    }
    Ok(())
}

#[test]
fn one_worker_works_one_job_at_a_time(rt: HostRuntime) -> Result<(), Fail> {
    for meeting in &MEETINGS {
        let gate = meeting.gate(FEWER_LOOKS);
        let ended = written(&rt, rt.alloc(), meeting.level, meeting.frames, 1, &gate)?;
        assert!(rt; ended.is_none());
    }
    Ok(())
}

#[test]
fn four_workers_work_four_jobs_at_once(rt: HostRuntime) -> Result<(), Fail> {
    for (level, draws, text) in [
        (FOUR_NEIGHBOURS, false, FOUR_NEIGHBOURS_TEXT),
        (FOUR_BANDS, true, FOUR_BANDS_TEXT),
    ] {
        for workers in [4, 16] {
            let gate = Four::new(draws, LOOKS);
            let ended = written(&rt, rt.alloc(), level, 2, workers, &gate)?;
            assert!(rt; is_text(&ended, text), "{workers}");
        }
    }
    Ok(())
}

#[test]
fn three_workers_work_three_jobs_at_once(rt: HostRuntime) -> Result<(), Fail> {
    for (level, draws) in [(FOUR_NEIGHBOURS, false), (FOUR_BANDS, true)] {
        let gate = Four::new(draws, FEWER_LOOKS);
        let ended = written(&rt, rt.alloc(), level, 2, 3, &gate)?;
        assert!(rt; ended.is_none());
    }
    Ok(())
}
