ghost use Rattle.std.specs.Prelude.{◌≡◌, true, Contains, IfOk, IfSome, OnOk, OnErr};
ghost use Rattle.std.specs.List.Sorted.{IsPermutation};
ghost use Rattle.std.specs.Arc.{arc_value};
ghost use Rattle.grid_world.specs.Grid.{Grid, is_on_map};
ghost use Rattle.grid_world.specs.Way.{way};
ghost use Rattle.grid_world.specs.World.{point};
ghost use Rattle.frame_parts.specs.Distances.{AllOn, IsUnderIf};

use crate::distance_field::DistanceField;
use grid_world::{Answer, Place, Signals, World};
use std::alloc::{AllocError, Allocator, Global};
use std::marker::Model;
use std::sync::Arc;

// How many are kept at most: those to ten places under four states of the signals. Doors that go on and off mostly come
// back to a state that they had.
const MOST: usize = 40;

/// The distances that were found on the ground of a game: under the signals of now for a place once at most, and behind
/// them those under the states before, the latest first.
#[derive(Drop)]
pub struct DistanceCache {
    ground: Arc<World>,
    signals: Signals,
    all: Arc<Vec<DistanceField>>,
}

impl Model for DistanceCache {
    ghost use Rattle.std.specs.Arc.{arc_value};
    ghost use Rattle.frame_parts.specs.Distances.{DistanceCacheOf, distance_cache_code, AllOn};

    ghost Value = { DistanceCacheOf };

    ghost coded = { distance_cache_code };

    ghost view = { λ k. record { ground = arc_value k.ground; signals = k.signals } };

    ghost invariant = { λ k. AllOn (arc_value k.ground) (arc_value k.all).items };
}

/// Those to a place under these signals.
pub fn to_place(all: &[DistanceField], signals: Signals, place: Place) -> Option<&DistanceField>
    ensures place { IfSome result (λ d. d.now.place ≡ place) }
    ensures signals { IfSome result (λ d. d.now.signals ≡ signals) }
    ensures one { IfSome result (λ d. Contains all.now d.now) }
{
    all.iter()
        .find(|d| d.place() == place && d.is_under(signals))
}

/// The same ones once more; no distance is copied.
pub fn shared(alloc: Global, all: &[DistanceField]) -> Result<Vec<DistanceField>, AllocError>
    ensures { IfOk result (λ them. them.items ≡ all.now) }
{
    let mut them = Vec::with_capacity(alloc, all.len())?;
    'all: for one in all {
        them.push(one.share()?)?;
    }
    Ok(them)
}

// Moves those under these signals before the others; both keep their order.
fn put_under_first(all: &mut [DistanceField], signals: Signals)
    ensures { IsPermutation all.old all.new }
{
    let mut first = 0;
    'all: for at in 0..all.len() {
        if all[at].is_under(signals) {
            all[first..at + 1].rotate_right(1);
            first += 1;
        }
    }
}

// Puts those that were found before the others, of which as many stay as there is room for.
fn put_first(all: &mut Vec<DistanceField>, found: &[DistanceField]) -> Result<(), AllocError>
    ensures { (g : Grid) → AllOn g found.now → AllOn g all.old.items → AllOn g all.new.items }
{
    all.truncate(MOST.saturating_sub(found.len()));
    'found: for at in 0..found.len() {
        all.insert(at, found[at].share()?)?;
    }
    Ok(())
}

impl DistanceCache {
    ghost use Rattle.frame_parts.specs.Distances.{known_of, distances_of};

    /// None are known.
    pub fn none(
        alloc: Global,
        ground: Arc<World>,
        signals: Signals,
    ) -> Result<DistanceCache, AllocError>
        ensures { IfOk result (λ k. k ≡ known_of (arc_value ground) signals) }
    {
        Ok(DistanceCache {
            ground,
            signals,
            all: Arc::new(alloc, Vec::new(alloc))?,
        })
    }

    /// The same ones once more; nothing is copied.
    pub fn share(&self) -> Result<DistanceCache, AllocError>
        ensures { IfOk result (λ k. k ≡ self.now) }
    {
        Ok(DistanceCache {
            ground: Arc::try_clone(&self.ground)?,
            signals: self.signals,
            all: Arc::try_clone(&self.all)?,
        })
    }

    /// Brings them under these signals: they stay while those are equal, and else become those that were found when the signals
    /// were these before. No table is counted, but where others share the list.
    pub fn bring_under(&mut self, signals: Signals) -> Result<(), AllocError>
        ensures ok { OnOk result (self.new ≡ known_of self.old.ground signals) }
        ensures err { OnErr result (self.new ≡ self.old) }
    {
        if signals == self.signals {
            return Ok(());
        }
        put_under_first(Arc::make_mut(&mut self.all)?, signals);
        self.signals = signals;
        Ok(())
    }

    /// The same ones once more, brought under these signals.
    pub fn under(&self, signals: Signals) -> Result<DistanceCache, AllocError>
        ensures { IfOk result (λ k. k ≡ known_of self.now.ground signals) }
    {
        let mut known = self.share()?;
        known.bring_under(signals)?;
        Ok(known)
    }

    // Those to a place, where they are known.
    fn to(&self, place: Place) -> Option<&DistanceField>
        ensures { IfSome result (λ d. d.now ≡ distances_of self.now.ground self.now.signals place) }
    {
        to_place(&self.all, self.signals, place)
    }

    /// The way from a cell of the map to a place, and the distances that were found for it: none where they are known, and
    /// else those of one search, whose own table and queue lie in `scratch`.
    pub fn way<A: Allocator + Clone>(
        &self,
        alloc: Global,
        scratch: A,
        place: Place,
        from: (u32, u32),
    ) -> Result<(Answer, Option<DistanceField>), AllocError>
        requires { is_on_map self.now.ground (point from.0 from.1) ≡ true }
        ensures way { IfOk result (λ parts. parts.0 ≡ way self.now.ground self.now.signals (point from.0 from.1) place) }
        ensures found { IfOk result (λ parts. IsUnderIf self.now.ground self.now.signals parts.1) }
    {
        if let Some(known) = self.to(place) {
            return Ok((known.way(from), None));
        }
        match DistanceField::to(alloc, scratch, &self.ground, self.signals, place)? {
            None => Ok((Answer::NoWay, None)),
            Some(found) => Ok((found.way(from), Some(found))),
        }
    }

    /// Keeps those that were found since, too. Of all forty are kept, those under the latest states of the signals before
    /// others. No table that was kept is counted, but where others share the list.
    pub fn learn(&mut self, found: &[DistanceField]) -> Result<(), AllocError>
        requires { AllOn self.old.ground found.now }
        ensures { self.new ≡ self.old }
    {
        if !found.is_empty() {
            put_first(Arc::make_mut(&mut self.all)?, found)?;
        }
        Ok(())
    }

    /// The same ones once more, with those that were found since.
    pub fn with(&self, found: &[DistanceField]) -> Result<DistanceCache, AllocError>
        requires { AllOn self.now.ground found.now }
        ensures { IfOk result (λ k. k ≡ self.now) }
    {
        let mut known = self.share()?;
        known.learn(found)?;
        Ok(known)
    }
}
