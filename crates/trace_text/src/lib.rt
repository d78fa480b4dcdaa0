//! The stretches in which workers run jobs, read off the events of a log, and such a list in Chrome's trace format.
#![tactic(auto)]

mod arrows;
mod board;
mod emits;
mod lanes;
mod parts;
mod slice;
pub mod slice_laws;
mod slices;
mod span;
mod whole;
mod worker_slices;

pub use board::Board;
pub use slice::Slice;
pub use span::FrameSpan;
pub use whole::trace;
pub use worker_slices::{begun_at, slices_of};
