ghost use Rattle.std.specs.Prelude.{◌≡◌, ◌≤◌, length, None};

use crate::fault::Cause;
use crate::ledger::RunLedger;
use crate::run_band::RunBand;
use band_mail::Putter;
use std::sync::ledger::{Ledger, Share};

/// What a worker's thread hands back: its shares of the events and of the Draws that ended, its Putter, and the fault that it
/// met. Where it met none, the board was told of each band that it put.
#[derive(Drop)]
pub struct Worked<'t, L: RunLedger, D: Ledger> {
    pub share: Share<L>,
    pub draws: Share<D>,
    pub putter: Putter<RunBand<'t, L>>,
    pub fault: Option<Cause>,
    pub ghost one_part: { (share.parts ≡ 1) × (draws.parts ≡ 1) },
    pub ghost told: { fault ≡ None → length putter.put ≤ draws.amount },
}
