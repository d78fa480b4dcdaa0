ghost use Rattle.std.specs.Prelude.{◌≡◌};

use game_session::Session;
use grid_world::World;
use std::marker::Model;
use std::sync::Arc;

/// The world after a turned frame, which all draws of the frame share.
#[derive(Drop)]
pub struct TurnedWorld<'t> {
    pub(crate) session: &'t Session,
    pub(crate) frame: u32,
    pub(crate) world: Arc<World>,
}

impl<'t> Model for TurnedWorld<'t> {
    ghost use Rattle.std.specs.Prelude.{◌≡◌};
    ghost use Rattle.std.specs.Arc.{arc_value};
    ghost use Rattle.frame_state.specs.Names.{FrameOf, frame_code};
    ghost use Rattle.frame_state.specs.Contents.{world_after};

    ghost Value = { FrameOf };

    ghost coded = { frame_code };

    ghost view = { λ w. record { game = w.session.now; frame = w.frame } };

    ghost invariant = { λ w. arc_value w.world ≡ world_after w.session.now w.frame };
}

impl<'t> TurnedWorld<'t> {
    /// Frames count from 1.
    pub fn frame(&self) -> u32
        ensures { result ≡ self.now.frame }
    {
        self.frame
    }
}
