use bt_nodes::Status;
use grid_world::Agent;

/// An agent after a frame: where it stands and what it carries, and the answer of its tick in that frame.
#[derive(Clone, Copy, Debug, PartialEq, Eq, Drop)]
pub struct AgentState {
    pub agent: Agent,
    pub status: Status,
}
