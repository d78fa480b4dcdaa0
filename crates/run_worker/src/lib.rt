//! A worker of a run: it takes tasks, works on them in its own arena, puts the bands that it draws into the mail, and tells
//! the board what its work came to.
#![tactic(auto)]

mod delivered;
mod gate;
mod scratch;
mod worker;

pub use gate::{EveryJob, Gate};
pub use worker::work;
