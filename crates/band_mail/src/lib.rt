//! The mail by which workers hand bands to the printer: a queue for each worker, and one taker of all.
#![tactic(auto)]

mod mail;
mod putter;
mod queue;
mod queues;
mod relay;
mod taker;

pub use mail::BandMail;
pub use putter::Putter;
pub use taker::Taker;
