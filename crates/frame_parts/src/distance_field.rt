ghost use Rattle.std.specs.Prelude.{◌≡◌, true, IfOk, MatchOption, None};
ghost use Rattle.std.specs.Arc.{arc_value};
ghost use Rattle.grid_world.specs.Grid.{is_on_map, place_of};
ghost use Rattle.grid_world.specs.Way.{way};
ghost use Rattle.grid_world.specs.World.{point};

use grid_path::{Distances, PathFault};
use grid_world::{Answer, Place, Signals, World};
use std::alloc::{AllocError, Allocator, Global};
use std::marker::Model;
use std::sync::Arc;

// The distances to a place on the ground of a game while the doors of these signals are open.
#[derive(Drop)]
struct FieldData {
    ground: Arc<World>,
    signals: Signals,
    place: Place,
    table: Distances,
}

impl Model for FieldData {
    ghost use Rattle.std.specs.Arc.{arc_value};
    ghost use Rattle.grid_path.specs.Distances.{AreDistances};
    ghost use Rattle.frame_parts.specs.Distances.{DistancesOf, distances_code};

    ghost Value = { DistancesOf };

    ghost coded = { distances_code };

    ghost view = { λ d. record { ground = arc_value d.ground; signals = d.signals; place = d.place } };

    ghost invariant = { λ d. AreDistances (arc_value d.ground) d.signals d.place d.table };
}

impl FieldData {
    // Whether they were found under these signals.
    fn is_under(&self, signals: Signals) -> bool
        ensures { result ≡ true → self.now.signals ≡ signals }
    {
        signals == self.signals
    }

    // The way to the place from a cell of the map.
    fn way(&self, from: (u32, u32)) -> Answer
        requires { is_on_map self.now.ground (point from.0 from.1) ≡ true }
        ensures { result ≡ way self.now.ground self.now.signals (point from.0 from.1) self.now.place }
    {
        self.table.way(&self.ground, self.place, from)
    }
}

/// The distances to a place on the ground of a game while the doors of these signals are open. All that read them share one
/// table. A ground is the world of any frame: what no frame changes is alike in all.
pub struct DistanceField {
    // That of the distances once more, so that a search among many reads none of the others.
    place: Place,
    found: Arc<FieldData>,
}

impl Drop for DistanceField {
    fn drop(self) {
        let Self { place: _, found: _ } = self;
    }
}

impl Model for DistanceField {
    ghost use Rattle.std.specs.Prelude.{◌≡◌};
    ghost use Rattle.std.specs.Arc.{arc_value};
    ghost use Rattle.frame_parts.specs.Distances.{DistancesOf, distances_code};

    ghost Value = { DistancesOf };

    ghost coded = { distances_code };

    ghost view = { λ d. arc_value d.found };

    ghost invariant = { λ d. (arc_value d.found).place ≡ d.place };
}

impl Clone for DistanceField {
    ghost is_clone = { λ d e. e ≡ d };

    fn clone(&self) -> Result<DistanceField, AllocError> {
        self.share()
    }
}

impl DistanceField {
    ghost use Rattle.frame_parts.specs.Distances.{distances_of};

    // By one search whose own table and queue lie in `scratch`; none where the place is not on the map.
    pub(crate) fn to<A: Allocator + Clone>(
        alloc: Global,
        scratch: A,
        ground: &Arc<World>,
        signals: Signals,
        place: Place,
    ) -> Result<Option<DistanceField>, AllocError>
        ensures { IfOk result (λ made. MatchOption made (place_of (arc_value ground.now) place ≡ None)
            (λ d. d ≡ distances_of (arc_value ground.now) signals place)) }
    {
        match Distances::to(alloc, scratch, ground, signals, place) {
            Ok(table) => {
                let found = FieldData {
                    ground: Arc::try_clone(ground)?,
                    signals,
                    place,
                    table,
                };
                Ok(Some(DistanceField {
                    place,
                    found: Arc::new(alloc, found)?,
                }))
            }
            Err(PathFault::OffMap) => Ok(None),
            Err(PathFault::OutOfMemory) => Err(AllocError),
        }
    }

    /// The same distances once more; nothing is copied.
    pub fn share(&self) -> Result<DistanceField, AllocError>
        ensures { IfOk result (λ d. d ≡ self.now) }
    {
        Ok(DistanceField {
            place: self.place,
            found: Arc::try_clone(&self.found)?,
        })
    }

    /// The place to which they are.
    pub fn place(&self) -> Place
        ensures { result ≡ self.now.place }
    {
        self.place
    }

    // Whether they were found under these signals.
    pub(crate) fn is_under(&self, signals: Signals) -> bool
        ensures { result ≡ true → self.now.signals ≡ signals }
    {
        self.found.is_under(signals)
    }

    /// The way to the place from a cell of the map.
    pub fn way(&self, from: (u32, u32)) -> Answer
        requires { is_on_map self.now.ground (point from.0 from.1) ≡ true }
        ensures { result ≡ way self.now.ground self.now.signals (point from.0 from.1) self.now.place }
    {
        self.found.way(from)
    }
}
