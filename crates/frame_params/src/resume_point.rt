use crate::parked::ParkedTick;
use grid_world::Answer;
use std::sync::Arc;

// Where a tick stands that is to go on: at its start, or at a question that has its answer. The tick is shared with the one
// that was parked.
#[derive(Drop)]
pub(crate) enum ResumePoint<'t> {
    Start,
    Answered {
        tick: Arc<ParkedTick<'t>>,
        answer: Answer,
    },
}
