use crate::wakeups::Wakeups;
use std::time::{Clock, Instant};

// A slice of a run has so many frames, or so many nanoseconds where frames take long: frames differ, so many are compared with many.
const FRAMES: u64 = 64;

const NANOS: u64 = 16_000_000;

// A trial ends at once where so many frames have taken so many percent of the usual time.
const FEW: u64 = 8;

const TOO_MUCH: u64 = 125;

// More workers are kept where a frame takes less than so many percent of the usual time, and fewer where it takes less than so many:
// where it comes to the same, fewer leave processors to others.
const FASTER: u64 = 97;

const AS_FAST: u64 = 103;

// How many slices come between two trials, at first and at most; the first trial comes behind one. A trial that fails makes it four
// times as many, so that trials are a small part of a run.
const PAUSE: u64 = 4;

const LONGEST_PAUSE: u64 = 256;

/// Finds out how many workers a run should have awake, by trying. Whoever shows the frames measures how long one takes.
///
/// More workers do more where jobs are long. Where jobs are brief fewer do: each event moves the board to another processor, and to
/// wake a thread takes longer than many jobs. What holds depends on the level, on the machine and on what else it does. So a run
/// begins with one worker awake, and now and then plays a slice with twice as many, or with half.
#[derive(Drop)]
pub struct WorkerTuner {
    // When the slice began, at a shown frame; none before the first.
    began: Option<Instant>,
    // The frames shown since.
    frames: u64,
    // How many workers are kept awake, and how many are awake in this slice: where that differs it is a trial.
    kept: u64,
    awake: u64,
    // Nanoseconds of a frame with those that are kept, in the fastest of the last slices: the others may have been disturbed.
    usual: u64,
    // Whether the next trial is with more.
    is_upwards: bool,
    // How many slices come before the next trial, and how many behind it if it fails.
    left: u64,
    pause: u64,
}

impl WorkerTuner {
    /// A run begins, with one worker awake.
    pub fn new() -> WorkerTuner {
        WorkerTuner {
            began: None,
            frames: 0,
            kept: 1,
            awake: 1,
            usual: u64::MAX,
            is_upwards: true,
            left: 1,
            pause: PAUSE,
        }
    }

    /// Takes into account that a frame is shown. Where the clock can't be read, as many workers stay awake as were.
    pub fn count_frame<R: Clock>(&mut self, rt: &R, wakeups: &Wakeups) {
        wakeups.count_shown();
        if wakeups.most_awake() < 2 {
            return;
        }
        let Ok(now) = Instant::now(rt) else {
            return;
        };
        let Some(began) = self.began else {
            self.began = Some(now);
            return;
        };
        self.frames = self.frames.saturating_add(1);
        let nanos = u64::try_from(now.duration_since(began).as_nanos()).unwrap_or(u64::MAX);
        let time = nanos / self.frames.max(1);
        if FRAMES <= self.frames || NANOS <= nanos || self.is_failing(time) {
            self.end_slice(time, wakeups.most_awake());
            wakeups.keep_awake(self.awake);
            self.began = Some(now);
            self.frames = 0;
        }
    }

    // Whether a frame takes less than so many percent of the usual time.
    fn takes_less(&self, time: u64, percent: u64) -> bool {
        time.saturating_mul(100) < self.usual.saturating_mul(percent)
    }

    // Whether this slice is a trial whose frames take far too long.
    fn is_failing(&self, time: u64) -> bool {
        self.awake != self.kept && FEW <= self.frames && !self.takes_less(time, TOO_MUCH)
    }

    // What follows from a slice in which a frame took this time.
    fn end_slice(&mut self, time: u64, most: u64) {
        let enough = if self.is_upwards { FASTER } else { AS_FAST };
        if self.awake == self.kept {
            self.learn(time);
            if self.left == 0 {
                self.try_others(most);
            }
        } else if self.takes_less(time, enough) {
            self.keep(time, most);
        } else {
            self.turn();
        }
    }

    // Learns the usual time of the last slices before a trial.
    fn learn(&mut self, time: u64) {
        self.usual = if PAUSE <= self.left {
            time
        } else {
            self.usual.min(time)
        };
        self.left = self.left.saturating_sub(1);
    }

    // How many workers are tried in this direction.
    fn next(&self, most: u64) -> u64 {
        if self.is_upwards {
            self.kept.saturating_mul(2).min(most)
        } else {
            (self.kept / 2).max(1)
        }
    }

    // Begins a trial, in the other direction where there are no more or no fewer in this one.
    fn try_others(&mut self, most: u64) {
        self.awake = self.next(most);
        if self.awake == self.kept {
            self.is_upwards = !self.is_upwards;
            self.awake = self.next(most);
        }
    }

    // Keeps the number that was tried, and goes on in the same direction.
    fn keep(&mut self, time: u64, most: u64) {
        self.kept = self.awake;
        self.usual = time;
        self.pause = PAUSE;
        self.awake = self.next(most);
        if self.awake == self.kept {
            self.turn();
        }
    }

    // Goes back to the number that is kept; the next trial is in the other direction, and later.
    fn turn(&mut self) {
        self.awake = self.kept;
        self.is_upwards = !self.is_upwards;
        self.left = self.pause;
        self.pause = self.pause.saturating_mul(4).min(LONGEST_PAUSE);
    }
}
