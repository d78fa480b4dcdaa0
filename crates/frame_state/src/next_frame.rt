ghost use Rattle.std.specs.Prelude.{◌≡◌, ◌≤◌, ◌+◌, ◌^◌, ◌<◌, [], IfOk, box_value, length, vec_capacity};

use crate::gathering::Gathering;
use crate::params::FrameParams;
use crate::turn::Turn;
use std::alloc::{AllocError, Global};
use std::marker::Model;

/// What a turn brings for the frame after it: the parameters of that frame, and room for the thoughts of its agents.
pub struct NextFrame<'t> {
    params: FrameParams<'t>,
    room: Box<Gathering<'t>>,
}

impl<'t> Drop for NextFrame<'t> {
    fn drop(self) {
        let Self { params: _, room: _ } = self;
    }
}

impl<'t> Model for NextFrame<'t> {
    ghost use Rattle.std.specs.Prelude.{◌≡◌, ◌≤◌, [], box_value, length, vec_capacity};
    ghost use Rattle.frame_state.specs.Names.{FrameOf, frame_code};

    ghost Value = { FrameOf };

    ghost coded = { frame_code };

    ghost view = { λ n. n.params };

    ghost invariant = { λ n. ((box_value n.room).thoughts.items ≡ []) × (length n.params.game.trees ≤ vec_capacity (box_value n.room).thoughts) };
}

impl<'t> NextFrame<'t> {
    // The frame after a turn's.
    pub(crate) fn after(alloc: Global, turn: &Turn<'t>) -> Result<NextFrame<'t>, AllocError>
        requires { turn.now.frame + 1 < 2 ^ 32 }
        ensures { IfOk result (λ n. n ≡ record { game = turn.now.game; frame = turn.now.frame + 1 }) }
    {
        Ok(NextFrame {
            params: FrameParams::after(alloc, turn)?,
            room: Gathering::with_room(alloc, turn.statuses().len())?,
        })
    }

    /// The parameters, and the room, which is empty.
    pub fn into_parts(self) -> (FrameParams<'t>, Box<Gathering<'t>>)
        ensures params { result.0 ≡ self.entry }
        ensures empty { (box_value result.1).thoughts.items ≡ [] }
        ensures room { length self.entry.game.trees ≤ vec_capacity (box_value result.1).thoughts }
    {
        let Self { params, room } = self;
        (params, room)
    }
}
