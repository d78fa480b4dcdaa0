use crate::think_step::ThinkStep;
use frame_state::{BandMark, LogicStep, Way};

/// What a board is told of a task's work: of a drawn band its mark alone.
#[derive(Drop)]
pub enum BoardStep<'t> {
    Logic(LogicStep<'t>),
    Think(ThinkStep<'t>),
    Path(Way<'t>),
    Draw(BandMark<'t>),
}
