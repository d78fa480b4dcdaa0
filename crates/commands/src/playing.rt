// Levels that are played.
ghost use Rattle.std.specs.Prelude.{◌≡◌, [], None, IfOk, IfErr, IfSome, IsSomeAnd, MatchOption, OnOk, OnErr};
ghost use Rattle.std.specs.Io.KnownBytes.{Appends, Keeps};
ghost use Rattle.byte_streams.specs.Streams.{AppendsPart};
ghost use Rattle.game_rules.specs.Text.{texts};
ghost use Rattle.commands.specs.Doing.{PlaysSome, PlaysPart};
ghost use Rattle.commands.specs.Written.{path_of};
ghost use Rattle.commands.specs.Faults.{IsPlayFault};
ghost use Rattle.job_core.specs.Core.{IsComplete};
ghost use Rattle.level_text.specs.Games.{spelled_game};
ghost use Rattle.task_board.specs.Setups.{setup_for};
ghost use Rattle.command_line.specs.Faults.{status_of};

use crate::few_frames::few_frames;
use crate::run_fault::play_fault;
use byte_streams::{ReadFault, read_whole};
use command_line::{Fault, read_file, read_optional_file, refuse_optional_overwriting, write_file};
use job_core::names::Event;
use job_scheduler::Settings;
use log_text::write_log;
use play_run::{EveryJob, PlayFault, run_bytes};
use std::alloc::Global;
use std::io::{Read, Write};
use std::rt::Files;
use std::sync::Wait;
use std::thread::Threads;
use std::time::Clock;

/// Writes the frames of the game that the level's and the script's bytes spell, and gives the events of the run.
///
/// The level is read before the script, and a fault of either is answered before anything is written. After any
/// other fault the writer has got a first part of the frames' text.
fn play_bytes<H: Threads + Wait + Clock + Sync, W: Write>(
    rt: &H,
    alloc: Global,
    level: &[u8],
    script: &[u8],
    settings: Settings,
    out: &mut W,
) -> Result<Vec<Event>, PlayFault>
    ensures ok { OnOk result (IsSomeAnd (spelled_game level.now script.now)
        (λ g. Appends (W.contents out.old) (W.contents out.new) (texts g settings.frames))) }
    ensures events { IfOk result (λ events. IsSomeAnd (spelled_game level.now script.now)
        (λ g. IsComplete (setup_for g settings) events.items)) }
    ensures err { OnErr result (MatchOption (spelled_game level.now script.now)
        (Keeps (W.contents out.old) (W.contents out.new))
        (λ g. AppendsPart (W.contents out.old) (W.contents out.new) (texts g settings.frames))) }
    ensures fault { IfErr result (IsPlayFault level.now script.now) }
{
    match run_bytes(rt, alloc, level, script, settings, out, &EveryJob) {
        Ok(report) => Ok(report.events),
        Err(fault) => Err(fault),
    }
}

/// Plays three frames of the level that the input's bytes spell, with an empty script.
pub fn play_input<H: Threads + Wait + Clock + Sync, R: Read, W: Write>(
    rt: &H,
    alloc: Global,
    input: &mut R,
    out: &mut W,
) -> Result<(), Fault>
    ensures ok { OnOk result (IfSome (R.remaining input.old) (λ bytes. IsSomeAnd (spelled_game bytes [])
        (λ g. Appends (W.contents out.old) (W.contents out.new) (texts g 3)))) }
    ensures err { OnErr result (IfSome (R.remaining input.old) (λ bytes. MatchOption (spelled_game bytes [])
        (Keeps (W.contents out.old) (W.contents out.new))
        (λ g. AppendsPart (W.contents out.old) (W.contents out.new) (texts g 3)))) }
    ensures refused { IfErr result (λ fault. IfSome (R.remaining input.old)
        (λ bytes. status_of fault ≡ 2 → spelled_game bytes [] ≡ None)) }
{
    let bytes = match read_whole(alloc, input) {
        Ok(bytes) => bytes,
        Err(ReadFault::OutOfMemory) => return Err(Fault::OutOfMemory),
        Err(ReadFault::Read) => return Err(Fault::StandardInput),
    };
    match play_bytes(rt, alloc, &bytes, &[], few_frames(), out) {
        Ok(_) => Ok(()),
        Err(fault) => Err(play_fault(fault)),
    }
}

/// Plays the level and the script that the words name; both files are read before either is parsed. The log is written once
/// all frames are, and may be neither of the two.
pub fn play_files<H: Files + Threads + Wait + Clock + Sync, W: Write>(
    rt: &H,
    alloc: Global,
    level: String,
    settings: Settings,
    script: Option<String>,
    log: Option<String>,
    out: &mut W,
) -> Result<(), Fault>
    ensures ok { OnOk result (PlaysSome (W.contents out.old) (W.contents out.new) (path_of script) settings.frames) }
    ensures part { OnErr result (PlaysPart (W.contents out.old) (W.contents out.new) (path_of script) settings.frames) }
{
    refuse_optional_overwriting(rt, alloc, &log, &level, &script)?;
    let level = read_file(rt, alloc, level)?;
    let script = read_optional_file(rt, alloc, script)?;
    let events = match play_bytes(rt, alloc, &level, &script, settings, out) {
        Ok(events) => events,
        Err(fault) => return Err(play_fault(fault)),
    };
    if let Some(path) = log {
        let text = write_log(alloc, settings, &events)?;
        write_file(rt, alloc, path, &text)?;
    }
    Ok(())
}
