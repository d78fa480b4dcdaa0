ghost use Rattle.std.specs.Prelude.{◌≡◌, ◌⊎◌, ℕ, List, [], codes, map, string_bytes, IfOk, IfErr};
ghost use Rattle.command_line.specs.Program.{IsReading, Enters, AreNumbers, IsNoHelp, IsAskedFor, IsToldAs};
ghost use Rattle.command_line.specs.Entered.{IsEntered};
ghost use Rattle.clap.specs.Words.{found_of, kind_of, rows_of};

use crate::arguments::program_command;
use crate::entries::{missing, number_entry, optional_entry, text_entry};
use crate::negative::negative_text;
use crate::request::Words;
use crate::table::{SUBCOMMANDS, Subcommand};
use crate::words_fault::WordsFault;
use clap::error::ErrorKind;
use clap::{ArgMatches, Error};
use job_scheduler::Settings;
use std::alloc::Global;

/// What is said of words of these commands for which clap answers an error: its text, or that of its help. A number below 0
/// behind an option is told as one that is out of its range.
pub fn fault_of(
    alloc: Global,
    subcommands: &[Subcommand],
    words: &[String],
    error: &Error,
) -> WordsFault
    ensures { IsToldAs (kind_of error.now) result }
{
    if error.kind() == ErrorKind::OutOfMemory {
        return WordsFault::OutOfMemory;
    }
    let Ok(text) = error.to_string(alloc) else {
        return WordsFault::OutOfMemory;
    };
    if error.kind() == ErrorKind::DisplayHelp {
        return WordsFault::Help(text);
    }
    if error.kind() == ErrorKind::DisplayVersion {
        return WordsFault::Version(text);
    }
    if error.kind() != ErrorKind::UnknownArgument {
        return WordsFault::Refused(text);
    }
    match negative_text(alloc, subcommands, words, text.as_str()) {
        Ok(Some(text)) => WordsFault::Refused(text),
        Ok(None) => WordsFault::Refused(text),
        Err(_) => WordsFault::OutOfMemory,
    }
}

fn settings_entry(alloc: Global, matches: &ArgMatches<'_>) -> Result<Settings, WordsFault>
    ensures numbers { IfOk result (AreNumbers (rows_of (found_of matches.now))) }
    ensures fault { IfErr result IsNoHelp }
{
    let frames = number_entry(alloc, matches, "frames")?;
    let workers = number_entry(alloc, matches, "workers")?;
    let small = number_entry(alloc, matches, "small")?;
    let large = number_entry(alloc, matches, "large")?;
    let slots = number_entry(alloc, matches, "slots")?;
    match Settings::new(frames, workers, small, large, slots) {
        Ok(settings) => Ok(settings),
        Err(_) => Err(missing(alloc, "settings")),
    }
}

fn play_words(alloc: Global, matches: &ArgMatches<'_>) -> Result<Words, WordsFault>
    ensures reading { IfOk result (λ w. (ws : List (List ℕ))
        → Enters ws (codes "play") (rows_of (found_of matches.now)) → IsReading ws w) }
    ensures fault { IfErr result IsNoHelp }
{
    Ok(Words::Play {
        level: text_entry(alloc, matches, "level")?,
        settings: settings_entry(alloc, matches)?,
        script: optional_entry(alloc, matches, "script")?,
        log: optional_entry(alloc, matches, "log")?,
    })
}

fn replay_words(alloc: Global, matches: &ArgMatches<'_>) -> Result<Words, WordsFault>
    ensures reading { IfOk result (λ w. (ws : List (List ℕ))
        → Enters ws (codes "replay") (rows_of (found_of matches.now)) → IsReading ws w) }
    ensures fault { IfErr result IsNoHelp }
{
    Ok(Words::Replay {
        level: text_entry(alloc, matches, "level")?,
        log: text_entry(alloc, matches, "log")?,
        script: optional_entry(alloc, matches, "script")?,
    })
}

fn check_words(alloc: Global, matches: &ArgMatches<'_>) -> Result<Words, WordsFault>
    ensures reading { IfOk result (λ w. (ws : List (List ℕ))
        → Enters ws (codes "check") (rows_of (found_of matches.now)) → IsReading ws w) }
    ensures fault { IfErr result IsNoHelp }
{
    Ok(Words::Check {
        level: text_entry(alloc, matches, "level")?,
    })
}

fn explain_words(alloc: Global, matches: &ArgMatches<'_>) -> Result<Words, WordsFault>
    ensures reading { IfOk result (λ w. (ws : List (List ℕ))
        → Enters ws (codes "explain") (rows_of (found_of matches.now)) → IsReading ws w) }
    ensures fault { IfErr result IsNoHelp }
{
    Ok(Words::Explain {
        level: text_entry(alloc, matches, "level")?,
        script: optional_entry(alloc, matches, "script")?,
        log: optional_entry(alloc, matches, "log")?,
    })
}

fn digest_words(alloc: Global, matches: &ArgMatches<'_>) -> Result<Words, WordsFault>
    ensures reading { IfOk result (λ w. (ws : List (List ℕ))
        → Enters ws (codes "digest") (rows_of (found_of matches.now)) → IsReading ws w) }
    ensures fault { IfErr result IsNoHelp }
{
    Ok(Words::Digest {
        level: text_entry(alloc, matches, "level")?,
        frames: number_entry(alloc, matches, "frames")?,
        script: optional_entry(alloc, matches, "script")?,
    })
}

fn state_words(alloc: Global, matches: &ArgMatches<'_>) -> Result<Words, WordsFault>
    ensures reading { IfOk result (λ w. (ws : List (List ℕ))
        → Enters ws (codes "state") (rows_of (found_of matches.now)) → IsReading ws w) }
    ensures fault { IfErr result IsNoHelp }
{
    Ok(Words::State {
        level: text_entry(alloc, matches, "level")?,
        frame: number_entry(alloc, matches, "frame")?,
        script: optional_entry(alloc, matches, "script")?,
    })
}

fn why_words(alloc: Global, matches: &ArgMatches<'_>) -> Result<Words, WordsFault>
    ensures reading { IfOk result (λ w. (ws : List (List ℕ))
        → Enters ws (codes "why") (rows_of (found_of matches.now)) → IsReading ws w) }
    ensures fault { IfErr result IsNoHelp }
{
    Ok(Words::Why {
        level: text_entry(alloc, matches, "level")?,
        frame: number_entry(alloc, matches, "frame")?,
        agent: text_entry(alloc, matches, "agent")?,
        script: optional_entry(alloc, matches, "script")?,
    })
}

fn complete_words(alloc: Global, matches: &ArgMatches<'_>) -> Result<Words, WordsFault>
    ensures reading { IfOk result (λ w. (ws : List (List ℕ))
        → Enters ws (codes "complete") (rows_of (found_of matches.now)) → IsReading ws w) }
    ensures fault { IfErr result IsNoHelp }
{
    Ok(Words::Complete {
        level: text_entry(alloc, matches, "level")?,
        log: text_entry(alloc, matches, "log")?,
        whole: text_entry(alloc, matches, "whole")?,
        script: optional_entry(alloc, matches, "script")?,
    })
}

fn record_words(alloc: Global, matches: &ArgMatches<'_>) -> Result<Words, WordsFault>
    ensures reading { IfOk result (λ w. (ws : List (List ℕ))
        → Enters ws (codes "record") (rows_of (found_of matches.now)) → IsReading ws w) }
    ensures fault { IfErr result IsNoHelp }
{
    Ok(Words::Record {
        level: text_entry(alloc, matches, "level")?,
        journal: text_entry(alloc, matches, "journal")?,
        settings: settings_entry(alloc, matches)?,
        script: optional_entry(alloc, matches, "script")?,
    })
}

/// What the command asks for that clap's matches have entered.
fn command_words(alloc: Global, matches: &ArgMatches<'_>) -> Result<Words, WordsFault>
    ensures reading { IfOk result (λ w. (ws : List (List ℕ)) → IsEntered ws matches.now → IsReading ws w) }
    ensures fault { IfErr result IsNoHelp }
{
    match matches.subcommand() {
        Some(("play", play)) => play_words(alloc, play),
        Some(("replay", replay)) => replay_words(alloc, replay),
        Some(("check", check)) => check_words(alloc, check),
        Some(("explain", explain)) => explain_words(alloc, explain),
        Some(("digest", digest)) => digest_words(alloc, digest),
        Some(("state", state)) => state_words(alloc, state),
        Some(("why", why)) => why_words(alloc, why),
        Some(("complete", complete)) => complete_words(alloc, complete),
        Some(("record", recording)) => record_words(alloc, recording),
        _ => Err(missing(alloc, "command")),
    }
}

/// Reads the words after the program's name.
///
/// Words that clap refuses, numbers out of their limits among them, are `Refused` with clap's text; `--help` is
/// `Help` with its text, and `--version` is `Version`. Where a growth is refused while clap makes that text, the text may be shorter.
pub fn read_words(alloc: Global, words: &[String]) -> Result<Words, WordsFault>
    ensures reading { IfOk result (IsReading (map string_bytes words.now)) }
    ensures none { words.now ≡ [] → result ≡ Ok Words.Piped }
    ensures help { IfErr result (IsAskedFor (map string_bytes words.now)) }
{
    if words.is_empty() {
        return Ok(Words::Piped);
    }
    let command = program_command(alloc)?;
    match command.try_get_matches_from(words) {
        Ok(matches) => command_words(alloc, &matches),
        Err(error) => Err(fault_of(alloc, &SUBCOMMANDS, words, &error)),
    }
}
