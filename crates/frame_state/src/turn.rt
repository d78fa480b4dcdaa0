ghost use Rattle.std.specs.Prelude.{◌≡◌, ◌+◌, ◌^◌, ◌<◌, IfOk, IfSome, OnOk, length};
ghost use Rattle.frame_state.specs.Contents.{world_after, statuses_in, bands_in};

use crate::kept_memory::KeptMemory;
use crate::next_frame::NextFrame;
use crate::turned_world::TurnedWorld;
use bt_nodes::Status;
use draw_list::band_count;
use frame_parts::DistanceCache;
use game_session::Session;
use grid_world::World;
use job_core::names::JobName;
use std::alloc::{AllocError, Global};
use std::marker::Model;
use std::sync::Arc;

// What came of a frame: the world and the memories after it, and the answers of the agents' ticks.
#[derive(Drop)]
pub(crate) struct Turned<'t> {
    pub(crate) session: &'t Session,
    pub(crate) frame: u32,
    // Shared with the parameters of the next frame and the draws of this one.
    pub(crate) world: Arc<World>,
    pub(crate) memories: Arc<Vec<KeptMemory>>,
    pub(crate) statuses: Arc<Vec<Status>>,
    // What was found under the signals of the frame.
    pub(crate) known: DistanceCache,
    // Made with the turn, so that whoever keeps the turn makes nothing.
    pub(crate) next: Option<NextFrame<'t>>,
}

impl<'t> Model for Turned<'t> {
    ghost use Rattle.std.specs.Prelude.{◌≡◌, ◌<◌, ◌+◌, IfSome};
    ghost use Rattle.std.specs.Arc.{arc_value};
    ghost use Rattle.frame_state.specs.Names.{FrameOf, frame_of, frame_code};
    ghost use Rattle.frame_state.specs.Contents.{IsAfter, statuses_in};

    ghost Value = { FrameOf };

    ghost coded = { frame_code };

    ghost view = { λ t. record { game = t.session.now; frame = t.frame } };

    ghost invariant = { λ t. (0 < t.frame)
        × IsAfter t.session.now t.frame (arc_value t.world) (arc_value t.memories).items
        × ((arc_value t.statuses).items ≡ statuses_in t.session.now t.frame)
        × (t.known.ground ≡ t.session.now.world)
        × IfSome t.next (λ n. n ≡ frame_of t.session.now (t.frame + 1)) };
}

impl<'t> Turned<'t> {
    // The session itself, as it was lent.
    pub(crate) fn session(&self) -> &'t Session
        ensures { result.now ≡ self.now.game }
    {
        self.session
    }

    // Frames count from 1.
    pub(crate) fn frame(&self) -> u32
        ensures { result ≡ self.now.frame }
    {
        self.frame
    }

    // The world after the frame.
    pub(crate) fn world(&self) -> &World
        ensures value { result.now ≡ world_after self.now.game self.now.frame }
        ensures agents { length result.now.agents ≡ length self.now.game.trees }
    {
        &self.world
    }

    // The same, once more.
    fn clone_world(&self) -> Result<TurnedWorld<'t>, AllocError>
        ensures { IfOk result (λ w. w ≡ self.now) }
    {
        Ok(TurnedWorld {
            session: self.session,
            frame: self.frame,
            world: Arc::try_clone(&self.world)?,
        })
    }

    // How many bands the frame has.
    #[tactic(auto, using(crate::proofs::Turning::height_stays))]
    fn bands(&self) -> u32
        ensures { result ≡ bands_in self.now.game }
    {
        band_count(self.world.height())
    }

    // The answer of each agent's tick, by agent number.
    #[tactic(auto, using(crate::proofs::Turning::as_many_statuses))]
    fn statuses(&self) -> &[Status]
        ensures value { result.now ≡ statuses_in self.now.game self.now.frame }
        ensures agents { length result.now ≡ length self.now.game.trees }
    {
        &self.statuses
    }

    // What it brings for the frame after it, if that wasn't taken out yet.
    fn take_next(&mut self) -> Option<NextFrame<'t>>
        ensures next { IfSome result (λ n. n ≡ record { game = self.old.game; frame = self.old.frame + 1 }) }
        ensures turned { self.new ≡ self.old }
    {
        self.next.take()
    }

    fn set_next(&mut self, next: NextFrame<'t>)
        requires { next ≡ record { game = self.old.game; frame = self.old.frame + 1 } }
        ensures { self.new ≡ self.old }
    {
        self.next = Some(next);
    }
}

/// What came of a frame: the world and the memories after it, and the answers of the agents' ticks.
pub struct Turn<'t> {
    turned: Box<Turned<'t>>,
}

impl<'t> Drop for Turn<'t> {
    fn drop(self) {
        let Self { turned: _ } = self;
    }
}

impl<'t> Model for Turn<'t> {
    ghost use Rattle.std.specs.Prelude.{box_value};
    ghost use Rattle.frame_state.specs.Names.{FrameOf, frame_code};

    ghost Value = { FrameOf };

    ghost coded = { frame_code };

    ghost view = { λ t. box_value t.turned };
}

impl<'t> Turn<'t> {
    // What came of a frame, as one word. Takes memory once.
    pub(crate) fn new(alloc: Global, turned: Turned<'t>) -> Result<Turn<'t>, AllocError>
        ensures { IfOk result (λ turn. turn ≡ turned.entry) }
    {
        Ok(Turn {
            turned: Box::new(alloc, turned)?,
        })
    }

    // Makes what it brings for the frame after it, where there can be one.
    pub(crate) fn prepare(&mut self, alloc: Global) -> Result<(), AllocError>
        ensures { OnOk result (self.new ≡ self.old) }
    {
        if self.frame() < u32::MAX {
            let next = NextFrame::after(alloc, self)?;
            self.turned.set_next(next);
        }
        Ok(())
    }

    /// What it brings for the frame after it. That came with it, so this takes no memory but where it was taken out before.
    pub fn take_next(&mut self, alloc: Global) -> Result<NextFrame<'t>, AllocError>
        requires { self.old.frame + 1 < 2 ^ 32 }
        ensures next { IfOk result (λ n. n ≡ record { game = self.old.game; frame = self.old.frame + 1 }) }
        ensures turn { self.new ≡ self.old }
    {
        match self.turned.take_next() {
            Some(next) => Ok(next),
            None => Ok(NextFrame::after(alloc, self)?),
        }
    }

    // What it is a word for.
    pub(crate) fn turned(&self) -> &Turned<'t>
        ensures { result.now ≡ self.now }
    {
        &self.turned
    }

    /// The session itself, as it was lent.
    pub fn session(&self) -> &'t Session
        ensures { result.now ≡ self.now.game }
    {
        self.turned.session()
    }

    /// The job whose work it is.
    pub fn name(&self) -> JobName
        ensures { result ≡ JobName.Logic self.now.frame }
    {
        JobName::Logic {
            frame: self.frame(),
        }
    }

    /// Frames count from 1.
    pub fn frame(&self) -> u32
        ensures { result ≡ self.now.frame }
    {
        self.turned.frame()
    }

    /// The world after the frame.
    pub fn world(&self) -> &World
        ensures value { result.now ≡ world_after self.now.game self.now.frame }
        ensures agents { length result.now.agents ≡ length self.now.game.trees }
    {
        self.turned.world()
    }

    /// The same, once more; nothing is copied.
    pub fn clone_world(&self) -> Result<TurnedWorld<'t>, AllocError>
        ensures { IfOk result (λ w. w ≡ self.now) }
    {
        self.turned.clone_world()
    }

    /// How many bands the frame has.
    pub fn bands(&self) -> u32
        ensures { result ≡ bands_in self.now.game }
    {
        self.turned.bands()
    }

    /// The answer of each agent's tick, by agent number.
    pub fn statuses(&self) -> &[Status]
        ensures value { result.now ≡ statuses_in self.now.game self.now.frame }
        ensures agents { length result.now ≡ length self.now.game.trees }
    {
        self.turned.statuses()
    }
}
