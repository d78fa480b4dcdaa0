ghost use Rattle.std.specs.Prelude.{◌≡◌, IfSome, option_map};
ghost use Rattle.std.specs.Arc.{arc_value};
ghost use Rattle.game_rules.specs.Game.{Game};
ghost use Rattle.frame_state.specs.Names.{frame_of};
ghost use Rattle.frame_params.specs.Leases.{IsLeaseOf, start_for, world_for};

use frame_state::{FrameStart, TurnedWorld};
use std::sync::Arc;

/// What a worker keeps of the tasks that it has done, for its next ones of the same frames. All workers share what the tasks of
/// a frame read: who counts another share of it takes the count's cache line from the others.
#[derive(Drop)]
pub struct Lease<'t> {
    // Of the last Think or Path.
    pub(crate) start: Option<Arc<FrameStart<'t>>>,
    // Of the last Draw.
    pub(crate) world: Option<TurnedWorld<'t>>,
}

impl<'t> Lease<'t> {
    /// One with nothing in it. Takes no memory.
    pub fn new() -> Lease<'t>
        ensures { (g : Game) → IsLeaseOf g result }
    {
        Lease {
            start: None,
            world: None,
        }
    }

    /// Takes out what a frame starts from, where that is kept.
    #[inline(always)]
    pub fn take_start(&mut self, frame: u32) -> Option<Arc<FrameStart<'t>>>
        ensures found { option_map (λ s. arc_value s) result ≡ start_for self.old frame }
        ensures start { (g : Game) → IsLeaseOf g self.old → IfSome result (λ s. arc_value s ≡ frame_of g frame) }
        ensures lease { (g : Game) → IsLeaseOf g self.old → IsLeaseOf g self.new }
    {
        match &self.start {
            Some(start) => if start.frame() == frame {
                self.start.take()
            } else {
                None
            },
            None => None,
        }
    }

    /// Takes out the world after a frame, where that is kept.
    #[inline(always)]
    pub fn take_world(&mut self, frame: u32) -> Option<TurnedWorld<'t>>
        ensures found { result ≡ world_for self.old frame }
        ensures world { (g : Game) → IsLeaseOf g self.old → IfSome result (λ w. w ≡ frame_of g frame) }
        ensures lease { (g : Game) → IsLeaseOf g self.old → IsLeaseOf g self.new }
    {
        match &self.world {
            Some(world) => if world.frame() == frame {
                self.world.take()
            } else {
                None
            },
            None => None,
        }
    }
}
