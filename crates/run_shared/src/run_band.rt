ghost use Rattle.std.specs.Prelude.{◌≡◌, Some, IfSome, IfNone};
ghost use Rattle.std.specs.Coded.{Coded-set, coded_option};
ghost use Rattle.game_session.specs.GameCode.{game_code};
ghost use Rattle.frame_state.specs.Contents.{band_in};

use crate::ledger::RunLedger;
use draw_list::Band;
use frame_params::BandOut;
use std::marker::PhantomData;

/// A band of the run that `L` names: whoever takes it knows that it is of this run's game.
#[derive(Drop)]
pub struct RunBand<'t, L: RunLedger> {
    pub band: BandOut<'t>,
    pub of: PhantomData<L>,
    pub ghost game_is: { L.game ≡ Some band.game } by { Coded-set (coded_option game_code) L.game (Some band.game) },
}

impl<'t, L: RunLedger> RunBand<'t, L> {
    /// A band of the run's game.
    pub fn new(band: BandOut<'t>) -> RunBand<'t, L>
        requires { L.game ≡ Some band.game }
        ensures { result.band ≡ band.entry }
    {
        RunBand {
            band,
            of: PhantomData,
        }
    }
}
