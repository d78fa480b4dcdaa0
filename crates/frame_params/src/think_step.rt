use crate::parked::Parked;
use frame_state::Thought;

/// What the work of an agent's thought comes to.
#[derive(Drop)]
pub enum ThinkStep<'t> {
    /// The tick has ended: all its questions are answered.
    Ended(Thought<'t>),
    /// The tick stands at its next question.
    Asks(Parked<'t>),
}
