//! Who waits in a run, and who calls whom.
//!
//! | Who waits | For | Who calls it |
//! |---|---|---|
//! | an idle worker | a job that it can take | who took a job, or showed a frame, and sees another job that can be taken; nobody looks for one while enough are awake |
//! | a worker that rests | that more are to be awake (`WorkerTuner`), or that no frame is shown | the same, where no worker is idle; else it looks whether frames are shown, every few milliseconds |
//! | a worker whose queue of the mail is full | room in the mail | the printer, when it took bands; then who found room |
//! | the printer | a frame that is all drawn | who finished a Draw and sees that a frame can be shown; who found no room |
//!
//! Nobody sleeps for ever. Who waits has looked for what it waits for, and who makes that possible calls behind it; a call that
//! comes between the look and the sleep is kept, so the sleep ends at once. A job that can be taken is seen by the worker that
//! made it possible, since it takes the next job itself and looks whether there is another. Where it doesn't look, enough were
//! awake behind the event that made it possible, and whoever waits since then found it. Whoever rests counts itself out first
//! and then finds others awake, so one at least stays, and looks once more before it sleeps. Where that one is held up, no
//! frame is shown, and those that rest take its jobs. Who fails stops the board and calls all, and the printer calls all workers
//! behind the last frame. Besides each sleep ends by itself after a second at most.
use crate::parking::Parking;
use crossbeam_utils::CachePadded;
use std::sync::Wait;
use std::sync::atomic::{AtomicU64, Ordering};
use std::thread::{Threads, available_parallelism};
use std::time::Duration;

// How long a worker rests before it looks whether frames are shown without it: milliseconds.
const REST: u64 = 16;

/// Where the threads of a run wait for one another.
pub struct Wakeups {
    /// Idle workers.
    pub workers: Parking,
    // Workers that rest, since enough others are awake.
    resting: Parking,
    /// Workers whose queue of the mail is full.
    pub room: Parking,
    /// The printer.
    pub printer: Parking,
    workers_count: u64,
    most_awake: u64,
    // How many workers are to be awake.
    wanted: CachePadded<AtomicU64>,
    // How many frames are shown.
    shown: CachePadded<AtomicU64>,
}

impl Drop for Wakeups {
    fn drop(self) {
        let Self {
            workers: _,
            resting: _,
            room: _,
            printer: _,
            workers_count: _,
            most_awake: _,
            wanted: _,
            shown: _,
        } = self;
    }
}

impl Wakeups {
    /// Nobody waits yet of so many workers, of which one is to be awake.
    pub fn new<R: Threads>(rt: &R, workers: u32) -> Wakeups {
        let workers_count = u64::from(workers);
        let most_awake = match available_parallelism(rt) {
            Ok(processors) => workers_count.min(processors.get() as u64),
            Err(_) => workers_count,
        };
        Wakeups {
            workers: Parking::new(),
            resting: Parking::new(),
            room: Parking::new(),
            printer: Parking::new(),
            workers_count,
            most_awake,
            wanted: CachePadded::new(AtomicU64::new(1)),
            shown: CachePadded::new(AtomicU64::new(0)),
        }
    }

    /// How many workers can be awake at most: as many as there are, or as the machine has processors, if it says so.
    pub fn most_awake(&self) -> u64 {
        self.most_awake
    }

    /// From here on so many workers are to be awake.
    pub fn keep_awake(&self, workers: u64) {
        self.wanted.store(workers, Ordering::SeqCst);
    }

    /// One more frame is shown.
    pub fn count_shown(&self) {
        self.shown.fetch_add(1, Ordering::SeqCst);
    }

    // How many workers neither wait for a task nor rest.
    fn awake(&self) -> u64 {
        let waiting = self
            .workers
            .waiting()
            .saturating_add(self.resting.waiting());
        self.workers_count.saturating_sub(waiting)
    }

    /// Whether as many workers are awake as are to be.
    pub fn are_enough(&self) -> bool {
        self.wanted.load(Ordering::SeqCst) <= self.awake()
    }

    /// Whether more workers are awake than are to be.
    pub fn are_too_many(&self) -> bool {
        self.wanted.load(Ordering::SeqCst) < self.awake()
    }

    /// Calls a worker for a job that can be taken, unless enough are awake: these take it sooner. An idle one may still look for
    /// a call, so it goes before those that rest.
    pub fn call_worker(&self) {
        if self.are_enough() {
            return;
        }
        if self.workers.waiting() != 0 {
            self.workers.call_one();
        } else if self.resting.waiting() != 0 {
            self.resting.call_one();
        }
    }

    /// A worker rests while enough others are awake and frames are shown, or until it is called.
    pub fn rest<R: Wait>(&self, rt: &R) {
        self.resting.enter();
        for _ in rt.forever() {
            let shown = self.shown.load(Ordering::SeqCst);
            if !self.are_enough()
                || self.resting.sleep(rt, Duration::from_millis(REST))
                || self.shown.load(Ordering::SeqCst) == shown
            {
                break;
            }
        }
        self.resting.leave();
    }

    /// Calls all workers that wait for a task or rest, for good.
    pub fn call_workers(&self) {
        self.workers.call_all();
        self.resting.call_all();
    }

    /// Calls a worker that waits for room in the mail, where one does.
    pub fn call_for_room(&self) {
        if self.room.waiting() != 0 {
            self.room.call_one();
        }
    }

    /// Calls all that wait, for good.
    pub fn call_all(&self) {
        self.call_workers();
        self.room.call_all();
        self.printer.call_all();
    }
}
