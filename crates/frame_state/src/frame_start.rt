ghost use Rattle.std.specs.Prelude.{◌≡◌, ◌+◌, ◌-◌, ◌^◌, ◌<◌, IfOk, Some, length};
ghost use Rattle.bt_nodes.specs.Bounds.{Fits};
ghost use Rattle.game_jobs.specs.Instance.{tree_of};
ghost use Rattle.frame_parts.specs.Distances.{known_of, IsGivenIf, IsUnderIf};
ghost use Rattle.frame_state.specs.Contents.{signals_in, world_after, memory_before, way_to_in};

use crate::kept_memory::KeptMemory;
use crate::turn::Turn;
use bt_tick::Memory;
use frame_parts::{DistanceCache, DistanceField, cell_on, zero_memories};
use game_session::Session;
use grid_world::{Answer, Place, Signals, World};
use std::alloc::{AllocError, Allocator, Global};
use std::marker::Model;
use std::sync::Arc;

/// What a frame starts from: its signals, and the world and the memories of the frame before. All tasks of the frame share
/// one. The world lies apart from it, so that who counts the shares disturbs nobody who reads the world.
pub struct FrameStart<'t> {
    session: &'t Session,
    frame: u32,
    signals: Signals,
    world: Arc<World>,
    memories: Arc<Vec<KeptMemory>>,
    // What was found under these signals before the frame.
    known: DistanceCache,
}

impl<'t> Drop for FrameStart<'t> {
    fn drop(self) {
        let Self {
            session: _,
            frame: _,
            signals: _,
            world: _,
            memories: _,
            known: _,
        } = self;
    }
}

impl<'t> Model for FrameStart<'t> {
    ghost use Rattle.std.specs.Prelude.{◌≡◌, ◌<◌, ◌-◌};
    ghost use Rattle.std.specs.Arc.{arc_value};
    ghost use Rattle.frame_state.specs.Names.{FrameOf, frame_code};
    ghost use Rattle.frame_state.specs.Contents.{signals_in, IsAfter};
    ghost use Rattle.frame_parts.specs.Distances.{known_of};

    ghost Value = { FrameOf };

    ghost coded = { frame_code };

    ghost view = { λ s. record { game = s.session.now; frame = s.frame } };

    ghost invariant = { λ s. (0 < s.frame) × (s.signals ≡ signals_in s.session.now s.frame)
        × IsAfter s.session.now (s.frame - 1) (arc_value s.world) (arc_value s.memories).items
        × (s.known ≡ known_of s.session.now.world s.signals) };
}

// These memories, each of which can be shared from now on.
fn kept(alloc: Global, memories: Vec<Memory>) -> Result<Vec<KeptMemory>, AllocError>
    ensures { IfOk result (λ them. them.items ≡ memories.items) }
{
    let mut them = Vec::with_capacity(alloc, memories.len())?;
    'memories: for memory in memories {
        them.push(KeptMemory::new(alloc, memory)?)?;
    }
    Ok(them)
}

impl<'t> FrameStart<'t> {
    #[tactic(auto, unfolding(crate::specs::Contents::world_after, crate::specs::Contents::memories_after))]
    // That of frame 1: the session's world, and memories of zeros.
    pub(crate) fn first(alloc: Global, session: &'t Session) -> Result<FrameStart<'t>, AllocError>
        ensures { IfOk result (λ s. s ≡ record { game = session.now; frame = 1 }) }
    {
        let world = Arc::new(alloc, session.world().copy(alloc)?)?;
        let memories = kept(alloc, zero_memories(alloc, session.level())?)?;
        let signals = session.script().signals(1);
        Ok(FrameStart {
            session,
            frame: 1,
            signals,
            known: DistanceCache::none(alloc, Arc::try_clone(&world)?, signals)?,
            world,
            memories: Arc::new(alloc, memories)?,
        })
    }

    // That of the frame after a turn's. The world, the memories and the distances, those that were found under its signals,
    // are the turn's own, so nothing is copied.
    pub(crate) fn after(turn: &Turn<'t>) -> Result<FrameStart<'t>, AllocError>
        requires { turn.now.frame + 1 < 2 ^ 32 }
        ensures { IfOk result (λ s. s ≡ record { game = turn.now.game; frame = turn.now.frame + 1 }) }
    {
        let turned = turn.turned();
        let frame = turned.frame + 1;
        let signals = turned.session.script().signals(frame);
        Ok(FrameStart {
            session: turned.session,
            frame,
            signals,
            world: Arc::try_clone(&turned.world)?,
            memories: Arc::try_clone(&turned.memories)?,
            known: turned.known.under(signals)?,
        })
    }

    /// The session itself, as it was lent.
    pub fn session(&self) -> &'t Session
        ensures { result.now ≡ self.now.game }
    {
        self.session
    }

    /// Frames count from 1.
    pub fn frame(&self) -> u32
        ensures value { result ≡ self.now.frame }
        ensures positive { 0 < result }
    {
        self.frame
    }

    /// The signals of the frame.
    pub fn signals(&self) -> Signals
        ensures { result ≡ signals_in self.now.game self.now.frame }
    {
        self.signals
    }

    /// The world after the frame before.
    pub fn world(&self) -> &World
        ensures value { result.now ≡ world_after self.now.game (self.now.frame - 1) }
        ensures agents { length result.now.agents ≡ length self.now.game.trees }
    {
        &self.world
    }

    /// An agent's memory after the frame before.
    pub fn memory_of(&self, agent: u32) -> &Memory
        requires { agent < length self.now.game.trees }
        ensures value { result.now ≡ memory_before self.now.game self.now.frame agent }
        ensures fits { Fits (tree_of self.now.game agent) result.now }
    {
        self.memories[agent as usize].memory()
    }

    // The distances that were found under these signals before the frame.
    pub(crate) fn known(&self) -> &DistanceCache
        ensures { result.now ≡ known_of self.now.game.world (signals_in self.now.game self.now.frame) }
    {
        &self.known
    }

    /// An agent's way to the place of these distances.
    pub fn way_by(&self, distances: &DistanceField, place: Place, agent: u32) -> Answer
        requires there { agent < length self.now.game.trees }
        requires place { IsGivenIf self.now.game.world (signals_in self.now.game self.now.frame) place (Some distances.now) }
        ensures { result ≡ way_to_in self.now.game self.now.frame agent place }
    {
        let _ = place;
        distances.way(cell_on(self.world(), agent))
    }

    /// An agent's way to a place, and the distances that were found for it: none where they were known before the frame, and
    /// else those of one search, whose own table and queue lie in `scratch`.
    pub fn way_to<A: Allocator + Clone>(
        &self,
        alloc: Global,
        scratch: A,
        place: Place,
        agent: u32,
    ) -> Result<(Answer, Option<DistanceField>), AllocError>
        requires { agent < length self.now.game.trees }
        ensures way { IfOk result (λ parts. parts.0 ≡ way_to_in self.now.game self.now.frame agent place) }
        ensures found { IfOk result (λ parts. IsUnderIf self.now.game.world (signals_in self.now.game self.now.frame) parts.1) }
    {
        let from = cell_on(self.world(), agent);
        Ok(self.known().way(alloc, scratch, place, from)?)
    }
}
