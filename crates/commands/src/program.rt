// What the program does with its words.
ghost use Rattle.std.specs.Prelude.{◌≡◌, ◌≢◌, ℕ, List, [], None, map, string_bytes, IfSome, IsSomeAnd, MatchOption, OnOk, OnErr};
ghost use Rattle.std.specs.Io.KnownBytes.{Appends, Keeps};
ghost use Rattle.game_rules.specs.Text.{texts};
ghost use Rattle.commands.specs.Doing.{PlaysSome, PlaysPart, ReplaysSome, ReplaysPart, ChecksSome, ChecksPart, ExplainsSome, AreRefused, AsksNoReason, IsDone, IsPartDone, script_named};
ghost use Rattle.level_text.specs.Games.{spelled_game};
ghost use Rattle.byte_streams.specs.Streams.{AppendsPart};
ghost use Rattle.commands.specs.Texts.{digests_text};
ghost use Rattle.commands.specs.Why.{why_text, agent_of_letter};
ghost use Rattle.commands.specs.Written.{WritesSome, WritesPart, CompletesSome, CompletesSomePart};
ghost use Rattle.stepping.specs.StateText.{scripted_state_text};
ghost use Rattle.command_line.specs.Program.{AsksToPlay, AsksToReplay, AsksToCheck, AsksToExplain, AsksToDigest, AsksForState, AsksWhy, AsksToComplete, AsksToRecord};

use crate::checking::check_file;
use crate::completing::complete_files;
use crate::digests::digest_files;
use crate::explaining::explain_files;
use crate::playing::{play_files, play_input};
use crate::recording::record_files;
use crate::replaying::replay_files;
use crate::states::state_files;
use crate::why::why_files;
use command_line::{Fault, Words, end_with, read_words, refuse_words};
use std::alloc::Global;
use std::io::{Read, Write};
use std::rt::Files;
use std::sync::Wait;
use std::thread::Threads;
use std::time::Clock;

/// Does what words ask for that name a level's file, but for a reason.
fn act_on_files<H: Files + Threads + Wait + Clock + Sync, W: Write>(
    rt: &H,
    alloc: Global,
    words: Words,
    out: &mut W,
) -> Result<(), Fault>
    requires { AsksNoReason words }
    ensures ok { OnOk result (IsDone (W.contents out.old) (W.contents out.new) words) }
    ensures part { OnErr result (IsPartDone (W.contents out.old) (W.contents out.new) words) }
{
    match words {
        // `command` does it itself.
        Words::Piped => Ok(()),
        Words::Play {
            level,
            settings,
            script,
            log,
        } => play_files(rt, alloc, level, settings, script, log, out),
        Words::Replay { level, log, script } => replay_files(rt, alloc, level, log, script, out),
        Words::Check { level } => check_file(rt, alloc, level, out),
        Words::Explain { .. } => unreachable!(),
        Words::Digest {
            level,
            frames,
            script,
        } => digest_files(rt, alloc, level, frames, script, out),
        Words::State {
            level,
            frame,
            script,
        } => state_files(rt, alloc, level, frame, script, out),
        Words::Why {
            level,
            frame,
            agent,
            script,
        } => why_files(rt, alloc, level, frame, agent, script, out),
        Words::Complete {
            level,
            log,
            whole,
            script,
        } => complete_files(rt, alloc, level, log, whole, script, out),
        Words::Record {
            level,
            journal,
            settings,
            script,
        } => record_files(rt, alloc, level, journal, settings, script, out),
    }
}

/// Does what words ask for that name a level's file, and gives the status with which the program ends.
#[tactic(auto, using(crate::proofs::Doing::done_at_zero, crate::proofs::Doing::part_of, crate::proofs::Doing::asks_no_reason))]
fn act<H: Files + Threads + Wait + Clock + Sync, W: Write, E: Write>(
    rt: &H,
    alloc: Global,
    words: Words,
    out: &mut W,
    err: &mut E,
) -> u8
    ensures done { result ≡ 0 → IsDone (W.contents out.old) (W.contents out.new) words }
    ensures part { IsPartDone (W.contents out.old) (W.contents out.new) words }
{
    match words {
        Words::Explain { level, script, log } => {
            match explain_files(rt, alloc, level, script, log, out) {
                Ok(None) => 0,
                // It is told on `out`.
                Ok(Some(told)) => told.status(),
                Err(untold) => untold.report(err),
            }
        }
        words => {
            let done = act_on_files(rt, alloc, words, out);
            end_with(done, err)
        }
    }
}

/// Does what the words after the program's name ask for, and gives the status with which the program ends: 0 done,
/// 1 a file or a write failed, 2 refused words, level, script or log, 3 out of memory or the run failed otherwise. A
/// fault is one line on `err`.
///
/// No words: the level comes from `input`, and three of its frames are written to `out`. Of words that name files the
/// clauses say that there are a level, a script and a log of which this is so, the script empty where the words name none; that they
/// are what the files hold is tested.
pub fn command<H: Files + Threads + Wait + Clock + Sync, R: Read, W: Write, E: Write>(
    rt: &H,
    alloc: Global,
    words: &[String],
    input: &mut R,
    out: &mut W,
    err: &mut E,
) -> u8
    ensures piped { words.now ≡ [] → result ≡ 0 → IfSome (R.remaining input.old) (λ bytes.
        IsSomeAnd (spelled_game bytes []) (λ g. Appends (W.contents out.old) (W.contents out.new) (texts g 3))) }
    ensures part { words.now ≡ [] → IfSome (R.remaining input.old) (λ bytes. MatchOption (spelled_game bytes [])
        (Keeps (W.contents out.old) (W.contents out.new))
        (λ g. AppendsPart (W.contents out.old) (W.contents out.new) (texts g 3))) }
    ensures refused { words.now ≡ [] → result ≡ 2 → IfSome (R.remaining input.old)
        (λ bytes. spelled_game bytes [] ≡ None) }
    ensures played { (frames : ℕ) → AsksToPlay (map string_bytes words.now) frames → result ≡ 0
        → PlaysSome (W.contents out.old) (W.contents out.new) (script_named (map string_bytes words.now)) frames }
    ensures played_part { (frames : ℕ) → AsksToPlay (map string_bytes words.now) frames
        → PlaysPart (W.contents out.old) (W.contents out.new) (script_named (map string_bytes words.now)) frames }
    ensures replayed { AsksToReplay (map string_bytes words.now) → result ≡ 0
        → ReplaysSome (W.contents out.old) (W.contents out.new) }
    ensures replayed_part { AsksToReplay (map string_bytes words.now)
        → ReplaysPart (W.contents out.old) (W.contents out.new) }
    ensures checked { AsksToCheck (map string_bytes words.now) → result ≡ 0
        → ChecksSome (W.contents out.old) (W.contents out.new) }
    ensures checked_part { AsksToCheck (map string_bytes words.now)
        → ChecksPart (W.contents out.old) (W.contents out.new) }
    ensures explained { AsksToExplain (map string_bytes words.now) → result ≡ 0
        → ExplainsSome (W.contents out.old) (W.contents out.new) }
    ensures digests { (frames : ℕ) → AsksToDigest (map string_bytes words.now) frames → result ≡ 0
        → WritesSome (W.contents out.old) (W.contents out.new) (script_named (map string_bytes words.now)) (λ g. digests_text g frames) }
    ensures digests_part { (frames : ℕ) → AsksToDigest (map string_bytes words.now) frames
        → WritesPart (W.contents out.old) (W.contents out.new) (script_named (map string_bytes words.now)) (λ g. digests_text g frames) }
    ensures state { (frame : ℕ) → AsksForState (map string_bytes words.now) frame → result ≡ 0
        → WritesSome (W.contents out.old) (W.contents out.new) (script_named (map string_bytes words.now)) (λ g. scripted_state_text g frame) }
    ensures state_part { (frame : ℕ) → AsksForState (map string_bytes words.now) frame
        → WritesPart (W.contents out.old) (W.contents out.new) (script_named (map string_bytes words.now)) (λ g. scripted_state_text g frame) }
    ensures why { (frame : ℕ) (agent : List ℕ) → AsksWhy (map string_bytes words.now) frame agent → result ≡ 0
        → WritesSome (W.contents out.old) (W.contents out.new) (script_named (map string_bytes words.now)) (λ g. why_text g frame (agent_of_letter agent)) }
    ensures why_part { (frame : ℕ) (agent : List ℕ) → AsksWhy (map string_bytes words.now) frame agent
        → WritesPart (W.contents out.old) (W.contents out.new) (script_named (map string_bytes words.now)) (λ g. why_text g frame (agent_of_letter agent)) }
    ensures completed { AsksToComplete (map string_bytes words.now) → result ≡ 0
        → CompletesSome (W.contents out.old) (W.contents out.new) }
    ensures completed_part { AsksToComplete (map string_bytes words.now)
        → CompletesSomePart (W.contents out.old) (W.contents out.new) }
    ensures recorded { (frames : ℕ) → AsksToRecord (map string_bytes words.now) frames → result ≡ 0
        → PlaysSome (W.contents out.old) (W.contents out.new) (script_named (map string_bytes words.now)) frames }
    ensures recorded_part { (frames : ℕ) → AsksToRecord (map string_bytes words.now) frames
        → PlaysPart (W.contents out.old) (W.contents out.new) (script_named (map string_bytes words.now)) frames }
    ensures refused_words { AreRefused (map string_bytes words.now) → result ≢ 0 }
    ensures unwritten { AreRefused (map string_bytes words.now) → W.contents out.new ≡ W.contents out.old }
{
    match read_words(alloc, words) {
        Ok(Words::Piped) => match play_input(rt, alloc, input, out) {
            Ok(()) => 0,
            Err(fault) => fault.report(err),
        },
        Ok(words) => act(rt, alloc, words, out, err),
        Err(fault) => refuse_words(fault, out, err),
    }
}
