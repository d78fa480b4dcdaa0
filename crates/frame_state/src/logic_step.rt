use crate::turn::Turn;

/// What the work of a frame's logic comes to.
#[derive(Drop)]
pub enum LogicStep<'t> {
    /// The frame begins: its thinks are to be spread.
    Begins,
    /// All agents have thought, and the frame is turned.
    Turned(Turn<'t>),
}
