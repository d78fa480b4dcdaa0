//! What is told of an agent's tick in a game's next frame: the frame's number, the agent's line of the frame, and a line for each node
//! of its tree.
#![tactic(auto)]

mod lines;
mod seen_tick;
mod telling;

pub use lines::{push_indent, push_node};
pub use telling::next_tick_text;
