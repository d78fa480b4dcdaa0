// What the journal of a run is given, and when.
use super::failed_writes::frames_before_failed_write;
use super::levels::{CROWD, CROWD_TEXT, WALK, WALK_TEXT};
use log_text::write_log;
use play_run::{
    EveryJob, Journal, JournalFault, LogJournal, PlayFault, RunReport, run_bytes_journalled,
};
use std::alloc::Global;
use std::sync::Wait;
use std::test::Fail;
use std::thread::Threads;
use std::time::Clock;
use task_board::{Event, Settings};

/// Keeps what it is given, and how many events it then has, each time; refuses more than so many times.
#[derive(Drop)]
struct Kept {
    follows: bool,
    times: usize,
    events: Vec<Event>,
    ends: Vec<usize>,
}

impl Kept {
    fn new(alloc: Global, follows: bool, times: usize) -> Kept {
        Kept {
            follows,
            times,
            events: Vec::new(alloc),
            ends: Vec::new(alloc),
        }
    }
}

impl Journal for Kept {
    ghost is_follower = { λ kept. kept.follows };

    fn follows(&self) -> bool {
        self.follows
    }

    fn append(&mut self, events: &[Event]) -> Result<(), JournalFault> {
        if self.ends.len() >= self.times {
            return Err(JournalFault::Write);
        }
        let Ok(()) = self.events.extend_from_slice(events) else {
            return Err(JournalFault::OutOfMemory);
        };
        match self.ends.push(self.events.len()) {
            Ok(()) => Ok(()),
            Err(_) => Err(JournalFault::OutOfMemory),
        }
    }
}

fn played<J: Journal, R: Threads + Wait + Clock + Sync>(
    rt: &R,
    alloc: Global,
    level: &[u8],
    settings: Settings,
    out: &mut Vec<u8>,
    journal: &mut J,
) -> Result<RunReport, PlayFault> {
    run_bytes_journalled(rt, alloc, level, b"", settings, out, journal, &EveryJob)
}

// Whether behind each frame the journal had the event that shows it.
fn has_each_frame(kept: &Kept, frames: u32) -> bool {
    for frame in 1..=frames {
        let Some(end) = kept.ends.get((frame - 1) as usize) else {
            return false;
        };
        let Some(so_far) = kept.events.get(..*end) else {
            return false;
        };
        if !so_far.contains(&Event::Emit { frame }) {
            return false;
        }
    }
    true
}

#[test]
fn a_journal_has_the_events_of_the_run(rt: HostRuntime) -> Result<(), Fail> {
    let alloc = rt.alloc();
    for workers in [1, 2, 16] {
        let mut out: Vec<u8> = Vec::new(alloc);
        let mut kept = Kept::new(alloc, true, 3);
        let settings = Settings::new(2, workers, 16, 63, 3)?;
        let report = played(&rt, alloc, CROWD, settings, &mut out, &mut kept)?;
        assert_eq!(rt; out.as_slice(), CROWD_TEXT);
        assert_eq!(rt; kept.events.as_slice(), report.events.as_slice());
        // Once behind each frame, and once at the end.
        assert_eq!(rt; kept.ends.len(), 3);
        assert!(rt; has_each_frame(&kept, 2));
    }
    Ok(())
}

#[test]
fn one_that_does_not_follow_is_given_all_at_the_end(rt: HostRuntime) -> Result<(), Fail> {
    let alloc = rt.alloc();
    let mut out: Vec<u8> = Vec::new(alloc);
    let mut kept = Kept::new(alloc, false, 1);
    let settings = Settings::new(3, 2, 8, 8, 3)?;
    let report = played(&rt, alloc, WALK, settings, &mut out, &mut kept)?;
    assert_eq!(rt; out.as_slice(), WALK_TEXT);
    assert_eq!(rt; kept.events.as_slice(), report.events.as_slice());
    assert_eq!(rt; kept.ends.len(), 1);
    Ok(())
}

// After how many frames a run of a walk fails whose journal takes so many times.
fn failed_after<R: Threads + Wait + Clock + Sync>(
    rt: &R,
    alloc: Global,
    workers: u32,
    out: &mut Vec<u8>,
    kept: &mut Kept,
) -> Result<u32, Fail> {
    let settings = Settings::new(3, workers, 8, 8, 3)?;
    frames_before_failed_write(played(rt, alloc, WALK, settings, out, kept))
}

#[test]
fn a_journal_that_refuses_ends_the_run(rt: HostRuntime) -> Result<(), Fail> {
    let alloc = rt.alloc();
    for workers in [1, 2, 16] {
        for times in 0..4usize {
            let mut out: Vec<u8> = Vec::new(alloc);
            let mut kept = Kept::new(alloc, true, times);
            let frames = failed_after(&rt, alloc, workers, &mut out, &mut kept)?;
            // The fourth time is behind the last frame, when the threads are joined.
            assert_eq!(rt; frames as usize, (times + 1).min(3), "{times}");
            assert_eq!(rt;
                out.as_slice(),
                &WALK_TEXT[..22 * frames as usize],
                "{times}"
            );
            assert!(rt; has_each_frame(&kept, times as u32), "{times}");
        }
    }
    Ok(())
}

#[test]
fn a_log_journal_writes_the_lines_of_a_log(rt: HostRuntime) -> Result<(), Fail> {
    let alloc = rt.alloc();
    for workers in [1, 2, 16] {
        let mut out: Vec<u8> = Vec::new(alloc);
        let settings = Settings::new(2, workers, 16, 63, 3)?;
        let mut lines: Vec<u8> = Vec::new(alloc);
        lines.extend_from_slice(&write_log(alloc, settings, &[])?)?;
        let mut journal = LogJournal::new(alloc, lines);
        let report = played(&rt, alloc, CROWD, settings, &mut out, &mut journal)?;
        let log = write_log(alloc, settings, &report.events)?;
        assert_eq!(rt; journal.out.as_slice(), log.as_slice());
    }
    Ok(())
}
