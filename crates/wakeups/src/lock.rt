use crossbeam_utils::Backoff;
use std::sync::{Mutex, MutexGuard, Wait};
use std::thread;

// How often a thread tries for a lock before it sleeps for it: some tens of microseconds.
const TRIES: u32 = 64;

// Behind how many tries it lets other threads run in between: the holder may have lost its processor to this one.
const YIELDS: u32 = 32;

/// Takes a lock that is held for less than a microsecond at a time. Whoever sleeps for a lock makes the holder wake it, which takes
/// longer than many holds, so a thread tries for a while first.
pub fn lock_soon<'m, T, R: Wait>(rt: &R, lock: &'m Mutex<T>) -> MutexGuard<'m, T> {
    let backoff = Backoff::new();
    for number in 0..TRIES {
        if let Some(guard) = lock.try_lock() {
            return guard;
        }
        if number < YIELDS {
            backoff.spin();
        } else {
            thread::yield_now();
        }
    }
    lock.lock(rt)
}
