ghost use Rattle.std.specs.Prelude.{IfOk, IfErr, OnErr, IsSomeAnd};
ghost use Rattle.std.specs.Io.KnownBytes.{Appends};
ghost use Rattle.level_text.specs.Games.{spelled_game};
ghost use Rattle.log_text.specs.Text.{events_text};
ghost use Rattle.run_printer.specs.Journals.{TakesPart};
ghost use Rattle.play_run.specs.Plays.{IsPlayed, IsPlayFault};

use crate::play_fault::PlayFault;
use crate::report::RunReport;
use crate::whole_run::run_journalled;
use level_text::{SessionFault, read_session};
use run_printer::{Journal, NoJournal};
use run_worker::Gate;
use std::alloc::Global;
use std::io::Write;
use std::sync::Wait;
use std::thread::Threads;
use std::time::Clock;
use task_board::Settings;

/// As `run_bytes`, with a journal of the events, which is given them as by `run_journalled`.
pub fn run_bytes_journalled<W: Write, J: Journal, G: Gate, R: Threads + Wait + Clock + Sync>(
    rt: &R,
    alloc: Global,
    level: &[u8],
    script: &[u8],
    settings: Settings,
    out: &mut W,
    journal: &mut J,
    gate: &G,
) -> Result<RunReport, PlayFault>
    ensures ok { IfOk result (λ r. IsSomeAnd (spelled_game level.now script.now) (λ g. IsPlayed (W.contents out.old) (W.contents out.new) g settings r)) }
    ensures err { IfErr result (IsPlayFault (W.contents out.old) (W.contents out.new) level.now script.now settings) }
    ensures journal { IfOk result (λ r. Appends (J.contents journal.old) (J.contents journal.new) (events_text r.events.items)) }
    ensures part { OnErr result (TakesPart (J.contents journal.old) (J.contents journal.new)) }
{
    let session = match read_session(alloc, level, script) {
        Ok(session) => session,
        Err(SessionFault::Level(fault)) => return Err(PlayFault::Level(fault)),
        Err(SessionFault::Script(fault)) => return Err(PlayFault::Script(fault)),
    };
    match run_journalled(rt, alloc, &session, settings, out, journal, gate) {
        Ok(report) => Ok(report),
        Err(fault) => Err(PlayFault::Run(fault)),
    }
}

/// Plays the game that the level's and the script's bytes spell. The level is read before the script, and a fault of either
/// is answered before anything is written.
pub fn run_bytes<W: Write, G: Gate, R: Threads + Wait + Clock + Sync>(
    rt: &R,
    alloc: Global,
    level: &[u8],
    script: &[u8],
    settings: Settings,
    out: &mut W,
    gate: &G,
) -> Result<RunReport, PlayFault>
    ensures ok { IfOk result (λ r. IsSomeAnd (spelled_game level.now script.now) (λ g. IsPlayed (W.contents out.old) (W.contents out.new) g settings r)) }
    ensures err { IfErr result (IsPlayFault (W.contents out.old) (W.contents out.new) level.now script.now settings) }
{
    run_bytes_journalled(
        rt,
        alloc,
        level,
        script,
        settings,
        out,
        &mut NoJournal,
        gate,
    )
}
