//! Path questions: the way from a cell to a place.
#![tactic(auto)]

mod around;
mod distances;
mod marks;
mod path_fault;
mod question;
mod search;
mod table;

pub use distances::Distances;
pub use grid_world::Answer;
pub use path_fault::PathFault;
pub use question::ask;
