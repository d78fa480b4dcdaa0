ghost use Rattle.std.specs.Prelude.{◌≡◌, ◌≤◌, ◌<◌, ◌%◌, ◌==◌, IfOk, IfSome, None, Some, true, replicate, slice_set, option_copied};

use crate::params::FrameParams;
use crate::way::Way;
use std::alloc::{AllocError, Global};
use std::marker::Model;

/// A fixed number of places for the parameters of the frames under way: frame `f` has the place `f` modulo their number.
pub struct Slots<'t> {
    places: Vec<Option<FrameParams<'t>>>,
}

impl<'t> Drop for Slots<'t> {
    fn drop(self) {
        let Self { places: _ } = self;
    }
}

impl<'t> Model for Slots<'t> {
    ghost use Rattle.std.specs.Prelude.{List, Option, ◌<◌, vec_len};
    ghost use Rattle.frame_state.specs.Names.{FrameOf};
    ghost use Rattle.frame_state.specs.Slots.{slots_code};

    ghost Value = { List (Option FrameOf) };

    ghost coded = { slots_code };

    ghost view = { λ s. s.places.items };

    ghost invariant = { λ s. 0 < vec_len s.places };
}

impl<'t> Slots<'t> {
    ghost use Rattle.frame_state.specs.Names.{FrameOf};
    ghost use Rattle.frame_state.specs.Slots.{is_free, slot_of, held_at, cleared};

    /// This many places, all free.
    pub fn new(alloc: Global, count: u32) -> Result<Slots<'t>, AllocError>
        requires { 1 ≤ count }
        ensures { IfOk result (λ s. s ≡ replicate count None) }
    {
        let mut places = Vec::with_capacity(alloc, count as usize)?;
        'places: for _made in 0..count {
            places.push(None)?;
        }
        Ok(Slots { places })
    }

    /// Whether nothing stands in the place of a frame.
    pub fn is_free(&self, frame: u32) -> bool
        ensures { result ≡ is_free self.now frame }
    {
        self.places[frame as usize % self.places.len()].is_none()
    }

    /// Puts parameters into the place of their frame.
    pub fn fill(&mut self, params: FrameParams<'t>)
        requires { is_free self.old params.frame ≡ true }
        ensures { self.new ≡ slice_set self.old (slot_of self.old params.entry.frame) (Some params.entry) }
    {
        let at = params.frame() as usize % self.places.len();
        self.places[at] = Some(params);
    }

    /// The parameters of a frame, if they stand in its place.
    pub fn at(&self, frame: u32) -> Option<&FrameParams<'t>>
        ensures { option_copied result ≡ held_at self.now frame }
    {
        match &self.places[frame as usize % self.places.len()] {
            Some(params) => {
                if params.frame() == frame {
                    Some(params)
                } else {
                    None
                }
            }
            None => None,
        }
    }

    /// Takes the parameters of a frame out of its place, where they stand there.
    pub fn take(&mut self, frame: u32) -> Option<FrameParams<'t>>
        ensures taken { result ≡ held_at self.old frame }
        ensures place { self.new ≡ cleared self.old frame }
    {
        if self.at(frame).is_none() {
            return None;
        }
        let at = frame as usize % self.places.len();
        self.places[at].take()
    }

    /// Lets go of the parameters of a frame, where they stand in its place.
    pub fn clear(&mut self, frame: u32)
        ensures { self.new ≡ cleared self.old frame }
    {
        drop(self.take(frame));
    }

    /// Keeps the distances that a way's search found with the parameters of its frame, where they stand in its place.
    pub fn learn(&mut self, way: &mut Way<'t>)
        requires { IfSome (held_at self.old way.old.frame) (λ params. params.game ≡ way.old.game) }
        ensures slots { self.new ≡ self.old }
        ensures way { way.new ≡ way.old }
    {
        let at = way.frame as usize % self.places.len();
        if let Some(params) = &mut self.places[at] {
            if params.frame() == way.frame {
                params.learn(way);
            }
        }
    }
}
