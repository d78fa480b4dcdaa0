//! Who of a run's threads sleeps, when and for how long: policy, of which nothing is promised but that no sleep is longer than a second.
//! What a run writes doesn't depend on it. README.md beside this says how each of its numbers was found.
#![tactic(auto)]

mod backoff;
mod lock;
mod parking;
mod wakeups;
mod worker_tuner;

pub use backoff::Backoff;
pub use lock::lock_soon;
pub use parking::Parking;
pub use wakeups::Wakeups;
pub use worker_tuner::WorkerTuner;
