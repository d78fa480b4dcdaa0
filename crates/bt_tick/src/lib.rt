//! Ticks of behaviour trees that can be cut at any path question.
#![tactic(auto)]

mod ascend;
mod at_once;
mod descend;
mod fits;
mod frames;
mod leaf_result;
mod machine;
mod memory;
mod nearest;
mod open;
mod passing;
mod pending;
mod run;
mod tick;
mod tick_fault;
mod view;
mod waits;

pub use memory::Memory;
pub use run::{begin, resume};
pub use tick::{Outcome, Pending};
pub use tick_fault::TickFault;
pub use view::View;
