ghost use Rattle.std.specs.Prelude.{◌≡◌, ◌<◌, length, IfOk};
ghost use Rattle.game_rules.specs.Text.{frame_text};

use bt_nodes::Status;
use draw_list::draw_frame;
use frame_params::Turn;
use grid_world::{Signals, World};
use std::alloc::{AllocError, Global};
use std::marker::Model;

/// A frame that is shown: the world after it, its signals, and the answers of the agents' ticks.
pub struct Shown<'t> {
    pub(crate) turn: Turn<'t>,
}

impl<'t> Drop for Shown<'t> {
    fn drop(self) {
        let Self { turn: _ } = self;
    }
}

impl<'t> Model for Shown<'t> {
    ghost use Rattle.frame_state.specs.Names.{FrameOf, frame_code};

    ghost Value = { FrameOf };

    ghost coded = { frame_code };

    ghost view = { λ s. s.turn };
}

impl<'t> Shown<'t> {
    ghost use Rattle.frame_state.specs.Contents.{signals_in, world_after, statuses_in};

    /// Its number; frames count from 1.
    pub fn frame(&self) -> u32
        ensures { result ≡ self.now.frame }
    {
        self.turn.frame()
    }

    /// The signals of the frame.
    pub fn signals(&self) -> Signals
        ensures { result ≡ signals_in self.now.game self.now.frame }
    {
        self.turn.session().script().signals(self.turn.frame())
    }

    /// The world after the frame.
    pub fn world(&self) -> &World
        ensures value { result.now ≡ world_after self.now.game self.now.frame }
        ensures agents { length result.now.agents ≡ length self.now.game.trees }
    {
        self.turn.world()
    }

    /// The answer of each agent's tick, by agent number.
    pub fn statuses(&self) -> &[Status]
        ensures value { result.now ≡ statuses_in self.now.game self.now.frame }
        ensures agents { length result.now ≡ length self.now.game.trees }
    {
        self.turn.statuses()
    }

    /// Its text, drawn in bands one after another.
    pub fn text(&self, alloc: Global) -> Result<Vec<u8>, AllocError>
        requires { 0 < self.now.frame }
        ensures { IfOk result (λ text. text.items ≡ frame_text self.now.game self.now.frame) }
    {
        draw_frame(
            alloc,
            self.frame(),
            self.world(),
            self.signals(),
            self.statuses(),
        )
    }

    /// The turn of the frame, which it is made of.
    pub fn into_turn(self) -> Turn<'t>
        ensures { result ≡ self.entry }
    {
        let Self { turn } = self;
        turn
    }
}
