ghost use Rattle.std.specs.Prelude.{◌≡◌, ◌≢◌, ◌≤◌, Some, None, replicate, slice_index_or, slice_set, vec_len, IfOk, OnOk, IfSome, IfNone};
ghost use Rattle.game_rules.specs.Game.{Game};
ghost use Rattle.frame_state.specs.Contents.{band_in};
ghost use Rattle.run_printer.specs.Tables.{with_place, AreAllTaken, AreFirstBands};

use draw_list::Band;
use run_shared::{RunBand, RunLedger};
use std::alloc::{AllocError, Global};
use std::marker::Model;

/// A place for each band of a frame, by its number from the top.
#[derive(Drop)]
pub struct FrameBands<'t, L: RunLedger> {
    places: Vec<Option<RunBand<'t, L>>>,
}

impl<'t, L: RunLedger> Model for FrameBands<'t, L> {
    ghost use Rattle.std.specs.Prelude.{ℕ, List, Option, map, option_map};
    ghost use Rattle.std.specs.Coded.{coded_ℕ, coded_list, coded_option};
    ghost use Rattle.run_printer.specs.Tables.{AreAtTheirNumbers};

    ghost Value = { List (Option ℕ) };

    ghost coded = { coded_list (coded_option coded_ℕ) };

    ghost view = { λ b. map (λ place. option_map (λ kept. kept.band.frame) place) b.places.items };

    ghost invariant = { λ b. AreAtTheirNumbers (map (λ place. option_map (λ kept. kept.band.number) place) b.places.items) };
}

// What a band of the run holds, where it is this band of this frame.
fn held_at<'t, L: RunLedger>(band: RunBand<'t, L>, frame: u32, number: u32) -> Option<Band>
    ensures value { IfSome result (λ held. (g : Game) → L.game ≡ Some g → held ≡ band_in g frame number) }
    ensures another { IfNone result ((band.entry.band.frame ≡ frame) × (band.entry.band.number ≡ number) → ⊥) }
{
    let RunBand { band, of: _ } = band;
    if band.frame() == frame && band.number() == number {
        Some(band.into_band())
    } else {
        None
    }
}

impl<'t, L: RunLedger> FrameBands<'t, L> {
    /// Empty places for a frame of so many bands.
    pub fn new(alloc: Global, bands: u32) -> Result<FrameBands<'t, L>, AllocError>
        ensures { IfOk result (λ row. row ≡ replicate bands None) }
    {
        let mut places = Vec::with_capacity(alloc, bands as usize)?;
        for _number in 0..bands {
            places.push(None)?;
        }
        Ok(FrameBands { places })
    }

    /// Keeps a band at the place of its number; a band that a game's frame doesn't have is let go.
    pub fn keep(&mut self, band: RunBand<'t, L>)
        ensures { self.new ≡ with_place self.old band.entry.band.frame band.entry.band.number }
    {
        let number = band.band.number() as usize;
        if let Some(place) = self.places.get_mut(number) {
            *place = Some(band);
        }
    }

    /// Takes the bands of a frame that are next out of their places, and puts them behind those that lie in `into`, from the
    /// top, as far as they are there.
    pub fn take_next(
        &mut self,
        frame: u32,
        bands: u32,
        into: &mut Vec<Band>,
    ) -> Result<(), AllocError>
        requires first { (g : Game) → L.game ≡ Some g → AreFirstBands g frame into.old.items }
        requires few { vec_len into.old ≤ bands }
        ensures first { (g : Game) → L.game ≡ Some g → AreFirstBands g frame into.new.items }
        ensures few { vec_len into.new ≤ bands }
        ensures more { vec_len into.old ≤ vec_len into.new }
        ensures all { OnOk result (AreAllTaken self.old frame bands (vec_len into.new)) }
    {
        for number in into.len() as u32..bands {
            let Some(band) = self.take_band(frame, number) else {
                return Ok(());
            };
            into.push(band)?;
        }
        Ok(())
    }

    /// Empties the place of this number. What lay there, where it is this band of this frame.
    fn take_band(&mut self, frame: u32, number: u32) -> Option<Band>
        ensures value { IfSome result (λ band. (g : Game) → L.game ≡ Some g → band ≡ band_in g frame number) }
        ensures another { IfNone result (slice_index_or self.old number None ≢ Some frame) }
        ensures emptied { self.new ≡ slice_set self.old number None }
    {
        if let Some(place) = self.places.get_mut(number as usize)
            && let Some(band) = place.take()
        {
            held_at(band, frame, number)
        } else {
            None
        }
    }
}
