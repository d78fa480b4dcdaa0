ghost use Rattle.std.specs.Prelude.{◌≡◌, ℕ, List, Option, IfOk, IfErr, sum, Some};
ghost use Rattle.std.specs.Io.KnownBytes.{Appends};
ghost use Rattle.game_rules.specs.Text.{texts};
ghost use Rattle.play_run.specs.Plays.{IsPlayed};

use crate::counted::Counted;
use game_session::Session;
use run_shared::{Cause, RunFault, RunLedger, SharedBoard};
use std::alloc::Global;
use std::sync::ledger::{Ledger, Share};
use task_board::{Event, Settings};

/// What a run comes to: its number of frames, all that happened in order, and for each worker how many events name it and how
/// many bands it drew.
#[derive(Debug, Drop)]
pub struct RunReport {
    pub frames: u32,
    pub events: Vec<Event>,
    pub steps: Vec<u64>,
    pub bands: Vec<u64>,
}

fn fault(cause: Cause, frames: u32) -> RunFault
    ensures { result.frames ≡ frames }
{
    RunFault { cause, frames }
}

/// The report of a board that no other thread has, once all frames are written and all shares are joined. Steps and bands of
/// the workers are those that their shares count, and the bands are those that the printer took.
pub fn report_on<L: RunLedger, M: Ledger, D: Ledger>(
    alloc: Global,
    session: &Session,
    settings: Settings,
    board: SharedBoard<'_, L, M, D>,
    all: &mut Share<L>,
    emits: &mut Share<M>,
    draws: &mut Share<D>,
    taken: &[u64],
) -> Result<RunReport, RunFault>
    requires run { (L.game ≡ Some session.now) × (L.numbers ≡ Some settings) }
    requires whole { (all.old.parts ≡ L.parts) × (emits.old.parts ≡ M.parts) × (draws.old.parts ≡ D.parts) }
    ensures fault { IfErr result (λ e. e.frames ≡ settings.frames) }
    ensures played { IfOk result (λ r. (old new : Option (List ℕ)) → Appends old new (texts session.now settings.frames) → IsPlayed old new session.now settings r) }
    ensures shares { IfOk result (λ r. (sum r.steps.items ≡ all.old.amount) × (sum r.bands.items ≡ draws.old.amount)) }
    ensures taken { IfOk result (λ r. r.bands.items ≡ taken.now) }
{
    let Some(events) = board.into_events(all, emits, draws) else {
        return Err(fault(Cause::Stranger, settings.frames()));
    };
    let Ok(steps) = Counted::Steps.of_all(alloc, &events, settings.workers()) else {
        return Err(fault(Cause::OutOfMemory, settings.frames()));
    };
    let Ok(bands) = Counted::Bands.of_all(alloc, &events, settings.workers()) else {
        return Err(fault(Cause::OutOfMemory, settings.frames()));
    };
    // Each band that a worker drew came to the printer.
    if bands.as_slice() != taken {
        return Err(fault(Cause::Stranger, settings.frames()));
    }
    Ok(RunReport {
        frames: settings.frames(),
        events,
        steps,
        bands,
    })
}
