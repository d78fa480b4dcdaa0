ghost use Rattle.std.specs.Prelude.{◌≡◌, ◌<◌, ◌≤◌, ◌%◌, vec_len, IfOk, OnOk, Some};
ghost use Rattle.game_rules.specs.Game.{Game};
ghost use Rattle.run_printer.specs.Tables.{no_bands, row_of, with_band, AreAllTaken, AreFirstBands, IsElsewhereSame};

use crate::frame_bands::FrameBands;
use draw_list::Band;
use run_shared::{RunBand, RunLedger};
use std::alloc::{AllocError, Global};
use std::marker::Model;

/// The bands of a run's frames that are not printed yet, by frame and number. So many frames as it is made for have places of
/// their own; a band of a later frame takes the place of one so many frames before.
#[derive(Drop)]
pub struct BandTable<'t, L: RunLedger> {
    frames: Vec<FrameBands<'t, L>>,
}

impl<'t, L: RunLedger> Model for BandTable<'t, L> {
    ghost use Rattle.std.specs.Prelude.{ℕ, List, Option};
    ghost use Rattle.std.specs.Coded.{coded_ℕ, coded_list, coded_option};

    ghost Value = { List (List (Option ℕ)) };

    ghost coded = { coded_list (coded_list (coded_option coded_ℕ)) };

    ghost view = { λ t. t.frames.items };
}

// Which of so many rows is a frame's; with none, any number.
fn row_at(rows: usize, frame: u32) -> usize
    ensures { 0 < rows → result ≡ frame % rows }
{
    if rows == 0 { 0 } else { frame as usize % rows }
}

impl<'t, L: RunLedger> BandTable<'t, L> {
    /// An empty table for so many frames of so many bands.
    pub fn new(alloc: Global, frames: u32, bands: u32) -> Result<BandTable<'t, L>, AllocError>
        ensures { IfOk result (λ table. table ≡ no_bands frames bands) }
    {
        let mut rows = Vec::with_capacity(alloc, frames as usize)?;
        for _frame in 0..frames {
            rows.push(FrameBands::new(alloc, bands)?)?;
        }
        Ok(BandTable { frames: rows })
    }

    /// Keeps a band until its frame is printed.
    pub fn keep(&mut self, band: RunBand<'t, L>)
        ensures { self.new ≡ with_band self.old band.entry.band.frame band.entry.band.number }
    {
        let row = row_at(self.frames.len(), band.band.frame());
        if let Some(places) = self.frames.get_mut(row) {
            places.keep(band);
        }
    }

    /// Takes the bands of a frame that are next out of the table, and puts them behind those that lie in `into`, from the top, as
    /// far as they are there.
    pub fn take_next(
        &mut self,
        frame: u32,
        bands: u32,
        into: &mut Vec<Band>,
    ) -> Result<(), AllocError>
        requires first { (g : Game) → L.game ≡ Some g → AreFirstBands g frame into.old.items }
        requires few { vec_len into.old ≤ bands }
        ensures first { (g : Game) → L.game ≡ Some g → AreFirstBands g frame into.new.items }
        ensures few { vec_len into.new ≤ bands }
        ensures more { vec_len into.old ≤ vec_len into.new }
        ensures all { OnOk result (AreAllTaken (row_of self.old frame) frame bands (vec_len into.new)) }
        ensures others { IsElsewhereSame frame self.old self.new }
    {
        let row = row_at(self.frames.len(), frame);
        match self.frames.get_mut(row) {
            Some(places) => places.take_next(frame, bands, into),
            None => Ok(()),
        }
    }
}
