//! What is played: a level, a script of signals, and both as a game.
#![tactic(auto)]

mod level;
mod named_tree;
mod script;
mod session;

pub use level::Level;
pub use named_tree::NamedTree;
pub use script::Script;
pub use session::Session;
