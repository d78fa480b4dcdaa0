//! Stacks of the nodes that a suspended tick has open.
#![tactic(auto)]

mod eight;
mod frame;
mod link;
mod pile;

pub use frame::Frame;
pub use pile::{Pile, Stack};
