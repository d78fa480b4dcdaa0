ghost use Rattle.std.specs.Prelude.{◌≡◌, ◌≤◌, [], IfOk, box_value, vec_capacity};

use crate::thought::Thought;
use frame_parts::DistanceField;
use std::alloc::{AllocError, Global};

/// What is gathered in a frame for its logic: the thoughts of its agents, by agent number, and the distances that were found.
#[derive(Drop)]
pub struct Gathering<'t> {
    pub thoughts: Vec<Thought<'t>>,
    pub found: Vec<DistanceField>,
}

impl<'t> Gathering<'t> {
    /// Nothing yet, with room for the thoughts of so many agents. Takes memory twice.
    pub fn with_room(alloc: Global, agents: usize) -> Result<Box<Gathering<'t>>, AllocError>
        ensures empty { IfOk result (λ g. (box_value g).thoughts.items ≡ []) }
        ensures room { IfOk result (λ g. agents ≤ vec_capacity (box_value g).thoughts) }
    {
        let gathering = Gathering {
            thoughts: Vec::with_capacity(alloc, agents)?,
            found: Vec::new(alloc),
        };
        Ok(Box::new(alloc, gathering)?)
    }
}
