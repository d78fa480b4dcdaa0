ghost use Rattle.std.specs.Prelude.{◌≡◌};
ghost use Rattle.frame_state.specs.Contents.{band_in};

use crate::band_mark::BandMark;
use draw_list::Band;
use game_session::Session;
use job_core::names::JobName;
use std::marker::Model;

/// A band of a frame, drawn.
#[derive(Drop)]
pub struct BandOut<'t> {
    pub(crate) session: &'t Session,
    pub(crate) frame: u32,
    pub(crate) band: Band,
}

impl<'t> Model for BandOut<'t> {
    ghost use Rattle.std.specs.Prelude.{◌≡◌};
    ghost use Rattle.frame_state.specs.Names.{PartOf, part_code};
    ghost use Rattle.frame_state.specs.Contents.{band_in};

    ghost Value = { PartOf };

    ghost coded = { part_code };

    ghost view = { λ b. record { game = b.session.now; frame = b.frame; number = b.band.number } };

    ghost invariant = { λ b. b.band ≡ band_in b.session.now b.frame b.band.number };
}

impl<'t> BandOut<'t> {
    /// The session itself, as it was lent.
    pub fn session(&self) -> &'t Session
        ensures { result.now ≡ self.now.game }
    {
        self.session
    }

    /// The job that drew it.
    pub fn name(&self) -> JobName
        ensures { result ≡ JobName.Draw self.now.frame self.now.number }
    {
        JobName::Draw {
            frame: self.frame,
            band: self.band.number,
        }
    }

    /// The frame whose band it is.
    pub fn frame(&self) -> u32
        ensures { result ≡ self.now.frame }
    {
        self.frame
    }

    /// Which of the frame's bands it is, from the top, counted from 0.
    pub fn number(&self) -> u32
        ensures { result ≡ self.now.number }
    {
        self.band.number
    }

    /// Its mark, which a board is told of. Takes no memory.
    pub fn mark(&self) -> BandMark<'t>
        ensures { result ≡ self.now }
    {
        BandMark {
            session: self.session,
            frame: self.frame,
            number: self.band.number,
        }
    }

    /// The band's rows.
    pub fn band(&self) -> &Band
        ensures { result.now ≡ band_in self.now.game self.now.frame self.now.number }
    {
        &self.band
    }

    /// The band's rows, which are moved and not copied.
    pub fn into_band(self) -> Band
        ensures { result ≡ band_in self.entry.game self.entry.frame self.entry.number }
    {
        let Self {
            session: _,
            frame: _,
            band,
        } = self;
        band
    }
}
