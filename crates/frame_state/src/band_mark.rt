ghost use Rattle.std.specs.Prelude.{◌≡◌};

use game_session::Session;
use job_core::names::JobName;
use std::marker::Model;

/// Which band of a frame it is, without its rows. It takes no memory.
#[derive(Drop)]
pub struct BandMark<'t> {
    pub(crate) session: &'t Session,
    pub(crate) frame: u32,
    pub(crate) number: u32,
}

impl<'t> Model for BandMark<'t> {
    ghost use Rattle.frame_state.specs.Names.{PartOf, part_code};

    ghost Value = { PartOf };

    ghost coded = { part_code };

    ghost view = { λ b. record { game = b.session.now; frame = b.frame; number = b.number } };
}

impl<'t> BandMark<'t> {
    /// The session itself, as it was lent.
    pub fn session(&self) -> &'t Session
        ensures { result.now ≡ self.now.game }
    {
        self.session
    }

    /// The job that draws it.
    pub fn name(&self) -> JobName
        ensures { result ≡ JobName.Draw self.now.frame self.now.number }
    {
        JobName::Draw {
            frame: self.frame,
            band: self.number,
        }
    }
}
