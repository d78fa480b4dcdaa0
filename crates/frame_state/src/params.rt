ghost use Rattle.std.specs.Prelude.{◌≡◌, ◌+◌, ◌^◌, ◌<◌, IfOk, IfSome};
ghost use Rattle.std.specs.Arc.{arc_value};
ghost use Rattle.frame_state.specs.Contents.{signals_in};
ghost use Rattle.frame_parts.specs.Distances.{IsGivenIf, IsUnder, AllUnder};

use crate::frame_start::FrameStart;
use crate::turn::Turn;
use crate::way::Way;
use frame_parts::{DistanceField, shared, to_place};
use game_session::Session;
use grid_world::Place;
use std::alloc::{AllocError, Global};
use std::marker::Model;
use std::sync::Arc;

// How many places a map has at most.
const PLACES: usize = 10;

// What a frame starts from, and the distances that were found since under its signals.
#[derive(Drop)]
struct Params<'t> {
    start: Arc<FrameStart<'t>>,
    // To a place once at most; there is room for those to all places.
    found: Vec<DistanceField>,
}

impl<'t> Model for Params<'t> {
    ghost use Rattle.std.specs.Prelude.{◌≤◌, vec_capacity};
    ghost use Rattle.std.specs.Arc.{arc_value};
    ghost use Rattle.frame_state.specs.Names.{FrameOf, frame_code};
    ghost use Rattle.frame_state.specs.Contents.{signals_in};
    ghost use Rattle.frame_parts.specs.Distances.{AllUnder};

    ghost Value = { FrameOf };

    ghost coded = { frame_code };

    ghost view = { λ p. arc_value p.start };

    ghost invariant = { λ p. (10 ≤ vec_capacity p.found)
        × AllUnder (arc_value p.start).game.world (signals_in (arc_value p.start).game (arc_value p.start).frame) p.found.items };
}

impl<'t> Params<'t> {
    ghost use Rattle.frame_parts.specs.Distances.{distances_of};

    // Those of a frame that starts so.
    fn of(alloc: Global, start: FrameStart<'t>) -> Result<Params<'t>, AllocError>
        ensures { IfOk result (λ p. p ≡ start.entry) }
    {
        Ok(Params {
            start: Arc::new(alloc, start)?,
            found: Vec::with_capacity(alloc, PLACES)?,
        })
    }

    fn session(&self) -> &'t Session
        ensures { result.now ≡ self.now.game }
    {
        self.start.session()
    }

    fn frame(&self) -> u32
        ensures value { result ≡ self.now.frame }
        ensures positive { 0 < result }
    {
        self.start.frame()
    }

    fn share(&self) -> Result<Arc<FrameStart<'t>>, AllocError>
        ensures { IfOk result (λ start. arc_value start ≡ self.now) }
    {
        Ok(Arc::try_clone(&self.start)?)
    }

    // The distances that were found in the frame, by the one that was found first.
    fn found(&self) -> &[DistanceField]
        ensures { AllUnder self.now.game.world (signals_in self.now.game self.now.frame) result.now }
    {
        &self.found
    }

    // Those to a place, where they were found.
    fn to(&self, place: Place) -> Option<&DistanceField>
        ensures { IfSome result (λ d. d.now ≡ distances_of self.now.game.world (signals_in self.now.game self.now.frame) place) }
    {
        to_place(&self.found, self.start.signals(), place)
    }

    // Keeps these, where none to their place are kept.
    fn learn(&mut self, found: DistanceField)
        requires { IsUnder self.old.game.world (signals_in self.old.game self.old.frame) found }
        ensures { self.new ≡ self.old }
    {
        if self.to(found.place()).is_none() && self.found.len() < PLACES {
            self.found.push_reserved(found);
        }
    }
}

/// What the jobs of a frame read: the frame's signals, the world and the memories of the frame before, and the distances
/// that were found so far under these signals. The tasks that are made of it share these with it.
pub struct FrameParams<'t> {
    params: Box<Params<'t>>,
}

impl<'t> Drop for FrameParams<'t> {
    fn drop(self) {
        let Self { params: _ } = self;
    }
}

impl<'t> Model for FrameParams<'t> {
    ghost use Rattle.std.specs.Prelude.{box_value};
    ghost use Rattle.frame_state.specs.Names.{FrameOf, frame_code};

    ghost Value = { FrameOf };

    ghost coded = { frame_code };

    ghost view = { λ p. box_value p.params };
}

impl<'t> FrameParams<'t> {
    /// Those of frame 1: the session's world, and memories of zeros.
    pub fn first(alloc: Global, session: &'t Session) -> Result<FrameParams<'t>, AllocError>
        ensures { IfOk result (λ p. p ≡ record { game = session.now; frame = 1 }) }
    {
        let params = Params::of(alloc, FrameStart::first(alloc, session)?)?;
        Ok(FrameParams {
            params: Box::new(alloc, params)?,
        })
    }

    /// Those of the frame after a turn's. The world and the memories are the turn's own, so nothing is copied; and so are the
    /// distances, those that were found under the frame's signals.
    pub fn after(alloc: Global, turn: &Turn<'t>) -> Result<FrameParams<'t>, AllocError>
        requires { turn.now.frame + 1 < 2 ^ 32 }
        ensures { IfOk result (λ p. p ≡ record { game = turn.now.game; frame = turn.now.frame + 1 }) }
    {
        let params = Params::of(alloc, FrameStart::after(turn)?)?;
        Ok(FrameParams {
            params: Box::new(alloc, params)?,
        })
    }

    /// The session itself, as it was lent.
    pub fn session(&self) -> &'t Session
        ensures { result.now ≡ self.now.game }
    {
        self.params.session()
    }

    /// Frames count from 1.
    pub fn frame(&self) -> u32
        ensures value { result ≡ self.now.frame }
        ensures positive { 0 < result }
    {
        self.params.frame()
    }

    /// What the frame starts from, once more; nothing is copied.
    pub fn share(&self) -> Result<Arc<FrameStart<'t>>, AllocError>
        ensures { IfOk result (λ start. arc_value start ≡ self.now) }
    {
        Ok(self.params.share()?)
    }

    /// The distances that were found in the frame, once more; nothing is copied.
    pub fn found(&self, alloc: Global) -> Result<Vec<DistanceField>, AllocError>
        ensures { IfOk result (λ found. AllUnder self.now.game.world (signals_in self.now.game self.now.frame) found.items) }
    {
        Ok(shared(alloc, self.params.found())?)
    }

    /// The distances to a place that a search of the frame found once more, where one did by now; nothing is copied. They
    /// save a search and change no way, so the contract lets None come always.
    pub fn known_to(&self, place: Place) -> Result<Option<DistanceField>, AllocError>
        ensures { IfOk result (IsGivenIf self.now.game.world (signals_in self.now.game self.now.frame) place) }
    {
        match self.params.to(place) {
            None => Ok(None),
            Some(found) => Ok(Some(found.share()?)),
        }
    }

    /// Keeps the distances that the search for a way of the frame found, for the tasks that are made later and for the
    /// frames that follow under the same signals. Of all that are found forty are kept, those under the latest states of the
    /// signals before others. The way has none then. It takes no memory: room for them came with the parameters.
    pub fn learn(&mut self, way: &mut Way<'t>)
        requires game { way.old.game ≡ self.old.game }
        requires frame { way.old.frame ≡ self.old.frame }
        ensures params { self.new ≡ self.old }
        ensures way { way.new ≡ way.old }
    {
        if let Some(found) = way.take_found() {
            self.params.learn(found);
        }
    }
}
