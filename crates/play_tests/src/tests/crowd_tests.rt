// A crowd with one worker and one slot: its events, and what a run that is refused memory tells.
//
// No growth is refused where this is run as it is; `scripts/runs/refused_growths.py` refuses each in turn.
use super::levels::{CROWD, CROWD_TEXT};
use play_run::{Cause, EveryJob, PlayFault, RunReport, run_bytes};
use std::alloc::Global;
use std::io;
use std::io::Write;
use std::sync::Wait;
use std::test::Fail;
use std::thread::Threads;
use std::time::Clock;
use task_board::{Event, JobName, Settings};

// The bytes of each frame's text.
const FIRST: usize = 312;

const BOTH: usize = 624;

/// Takes the bytes of a text and no others, without taking memory.
#[derive(Drop)]
struct Follower {
    left: &'static [u8],
    has_strayed: bool,
}

impl Write for Follower {
    fn write(&mut self, buf: &[u8]) -> io::Result<usize> {
        let text = self.left;
        if let Some(left) = text.strip_prefix(buf) {
            self.left = left;
        } else {
            self.has_strayed = true;
        }
        Ok(buf.len())
    }

    fn flush(&mut self) -> io::Result<()> {
        Ok(())
    }
}

fn played<R: Threads + Wait + Clock + Sync>(
    rt: &R,
    alloc: Global,
    out: &mut Follower,
) -> Result<Result<RunReport, PlayFault>, Fail> {
    let settings = Settings::new(2, 1, 16, 16, 1)?;
    Ok(run_bytes(rt, alloc, CROWD, b"", settings, out, &EveryJob))
}

// How many whole frames have been taken.
fn whole_frames(out: &Follower) -> u32 {
    if out.left.is_empty() {
        2
    } else if out.left.len() <= BOTH - FIRST {
        1
    } else {
        0
    }
}

// Whether this is what comes of a refused growth: a thread that can't be started for it has a cause of its own.
fn is_of_memory(cause: Cause) -> bool {
    match cause {
        Cause::OutOfMemory => true,
        Cause::Spawn => true,
        _ => false,
    }
}

fn is_hold(event: &Event) -> bool {
    match event {
        Event::Hold { .. } => true,
        _ => false,
    }
}

#[test]
fn the_second_frame_holds_once(rt: HostRuntime) -> Result<(), Fail> {
    let mut out = Follower {
        left: CROWD_TEXT,
        has_strayed: false,
    };
    let Ok(report) = played(&rt, rt.alloc(), &mut out)? else {
        return Err(Fail::from("a fault"));
    };
    let held = Event::Hold {
        worker: 0,
        job: JobName::Logic { frame: 2 },
    };
    assert!(rt; !out.has_strayed && out.left.is_empty());
    assert_eq!(rt; report.events.len(), 328);
    assert_eq!(rt;
        report.events.iter().filter(|event| is_hold(event)).count(),
        1
    );
    assert_eq!(rt;
        report.events.iter().filter(|event| **event == held).count(),
        1
    );
    Ok(())
}

#[test]
fn a_fault_tells_how_many_frames_are_written(rt: HostRuntime) -> Result<(), Fail> {
    let mut out = Follower {
        left: CROWD_TEXT,
        has_strayed: false,
    };
    match played(&rt, rt.alloc(), &mut out)? {
        Ok(report) => {
            assert_eq!(rt; report.frames, 2);
        }
        Err(PlayFault::Run(fault)) => {
            assert!(rt; is_of_memory(fault.cause));
            assert_eq!(rt; fault.frames, whole_frames(&out));
        }
        Err(PlayFault::Level(_fault)) => {
            assert_eq!(rt; out.left.len(), BOTH);
        }
        Err(_other) => return Err(Fail::from("another fault")),
    }
    assert!(rt; !out.has_strayed);
    Ok(())
}
