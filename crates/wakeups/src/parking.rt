use crate::backoff::Backoff;
use crossbeam_utils::CachePadded;
use std::hint;
use std::sync::Wait;
use std::sync::atomic::{AtomicU64, Ordering};
use std::time::Duration;

// What a call leaves: nothing, something for one thread, or for every thread from then on.
const NONE: u64 = 0;

const ONE: u64 = 1;

const ALL: u64 = 2;

// How often a thread looks for a call before it sleeps: some microseconds, as long as it takes to be woken.
const LOOKS: u32 = 2_000;

/// Where threads wait until they are called. A call that comes while nobody waits is kept for the next one that does, so a
/// thread that looks for something to do, finds nothing and then waits here misses nothing: who makes something for it to
/// do calls afterwards.
///
/// A call is one word, which the kernel compares before it lets a thread sleep.
#[derive(Drop)]
pub struct Parking {
    call: CachePadded<AtomicU64>,
    waiting: CachePadded<AtomicU64>,
    asleep: CachePadded<AtomicU64>,
}

impl Parking {
    /// Nobody waits, and nobody is called.
    pub fn new() -> Parking {
        Parking {
            call: CachePadded::new(AtomicU64::new(NONE)),
            waiting: CachePadded::new(AtomicU64::new(0)),
            asleep: CachePadded::new(AtomicU64::new(0)),
        }
    }

    /// How many threads have entered and not left.
    pub fn waiting(&self) -> u64 {
        self.waiting.load(Ordering::SeqCst)
    }

    /// A thread counts as waiting from here on.
    pub fn enter(&self) {
        self.waiting.fetch_add(1, Ordering::SeqCst);
    }

    /// A thread that entered waits no more.
    pub fn leave(&self) {
        self.waiting.fetch_sub(1, Ordering::SeqCst);
    }

    /// Whether all threads were called, for good.
    pub fn is_over(&self) -> bool {
        self.call.load(Ordering::SeqCst) == ALL
    }

    // Takes a call, if there is one. A call of all stays for the others.
    fn take_call(&self) -> bool {
        match self.call.load(Ordering::SeqCst) {
            NONE => false,
            ONE => self
                .call
                .compare_exchange(ONE, NONE, Ordering::SeqCst, Ordering::SeqCst)
                .is_ok(),
            _ => true,
        }
    }

    /// Waits until the thread is called, or for a while: it looks for a call first, and then sleeps.
    pub fn wait<R: Wait>(&self, rt: &R, backoff: &mut Backoff) {
        for _ in 0..LOOKS {
            if self.take_call() {
                backoff.learn(true);
                return;
            }
            hint::spin_loop();
        }
        let is_called = self.sleep(rt, backoff.length());
        backoff.learn(is_called);
    }

    /// Sleeps until the thread is called, or for a while. Whether it was called.
    pub fn sleep<R: Wait>(&self, rt: &R, length: Duration) -> bool {
        self.asleep.fetch_add(1, Ordering::SeqCst);
        self.call.park_timeout(rt, NONE as u32, length);
        self.asleep.fetch_sub(1, Ordering::SeqCst);
        self.take_call()
    }

    /// Calls one thread. It wakes one where one sleeps, which is a call of the system, so it is made with no lock held.
    pub fn call_one(&self) {
        if self.call.load(Ordering::SeqCst) != NONE {
            return;
        }
        let is_new = self
            .call
            .compare_exchange(NONE, ONE, Ordering::SeqCst, Ordering::SeqCst)
            .is_ok();
        if is_new && self.asleep.load(Ordering::SeqCst) != 0 {
            self.call.wake_one();
        }
    }

    /// Calls all threads, those too that come later.
    pub fn call_all(&self) {
        self.call.store(ALL, Ordering::SeqCst);
        self.call.wake_all();
    }
}
