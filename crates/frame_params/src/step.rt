ghost use Rattle.std.specs.Prelude.{◌≡◌};
ghost use Rattle.frame_params.specs.BoardSteps.{told, band_drawn};

use crate::board_step::BoardStep;
use crate::think_step::ThinkStep;
use frame_state::{BandOut, LogicStep, Way};

/// What the work of a task comes to.
pub enum Step<'t> {
    Logic(LogicStep<'t>),
    Think(ThinkStep<'t>),
    Path(Way<'t>),
    Draw(BandOut<'t>),
}

impl<'t> Drop for Step<'t> {
    fn drop(self) {
        match self {
            Self::Logic(_) | Self::Think(_) | Self::Path(_) | Self::Draw(_) => {}
        }
    }
}

impl<'t> Step<'t> {
    /// What a board is told of the work, and the band beside it where one was drawn.
    pub fn deliver(self) -> (BoardStep<'t>, Option<BandOut<'t>>)
        ensures step { result.0 ≡ told self.entry }
        ensures band { result.1 ≡ band_drawn self.entry }
    {
        match self {
            Step::Logic(step) => (BoardStep::Logic(step), None),
            Step::Think(step) => (BoardStep::Think(step), None),
            Step::Path(way) => (BoardStep::Path(way), None),
            Step::Draw(band) => (BoardStep::Draw(band.mark()), Some(band)),
        }
    }
}
