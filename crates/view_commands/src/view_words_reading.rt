ghost use Rattle.std.specs.Prelude.{List, ℕ, codes, map, string_bytes, IfOk, IfErr};
ghost use Rattle.clap.specs.Words.{found_of, rows_of};
ghost use Rattle.command_line.specs.Program.{IsNoHelp};
ghost use Rattle.view_commands.specs.Program.{IsReading, Enters, AreFrames, IsAskedFor, IsEntered};

use crate::arguments::{SUBCOMMANDS, program_command};
use crate::request::ViewWords;
use clap::ArgMatches;
use command_line::{WordsFault, fault_of, missing, number_entry, optional_entry, text_entry};
use std::alloc::Global;
use trace_text::FrameSpan;

fn frames_entry(alloc: Global, matches: &ArgMatches<'_>) -> Result<FrameSpan, WordsFault>
    ensures frames { IfOk result (AreFrames (rows_of (found_of matches.now))) }
    ensures fault { IfErr result IsNoHelp }
{
    let first = number_entry(alloc, matches, "from")?;
    let last = number_entry(alloc, matches, "to")?;
    Ok(FrameSpan { first, last })
}

fn trace_words(alloc: Global, matches: &ArgMatches<'_>) -> Result<ViewWords, WordsFault>
    ensures reading { IfOk result (λ v. (ws : List (List ℕ))
        → Enters ws (codes "trace") (rows_of (found_of matches.now)) → IsReading ws v) }
    ensures fault { IfErr result IsNoHelp }
{
    Ok(ViewWords::Trace {
        log: text_entry(alloc, matches, "log")?,
        frames: frames_entry(alloc, matches)?,
    })
}

fn page_words(alloc: Global, matches: &ArgMatches<'_>) -> Result<ViewWords, WordsFault>
    ensures reading { IfOk result (λ v. (ws : List (List ℕ))
        → Enters ws (codes "page") (rows_of (found_of matches.now)) → IsReading ws v) }
    ensures fault { IfErr result IsNoHelp }
{
    Ok(ViewWords::Page {
        level: text_entry(alloc, matches, "level")?,
        log: text_entry(alloc, matches, "log")?,
        script: optional_entry(alloc, matches, "script")?,
        live: optional_entry(alloc, matches, "live")?,
        frames: frames_entry(alloc, matches)?,
    })
}

/// What the command asks for that clap's matches have entered.
fn command_words(alloc: Global, matches: &ArgMatches<'_>) -> Result<ViewWords, WordsFault>
    ensures reading { IfOk result (λ v. (ws : List (List ℕ)) → IsEntered ws matches.now → IsReading ws v) }
    ensures fault { IfErr result IsNoHelp }
{
    match matches.subcommand() {
        Some(("trace", trace)) => trace_words(alloc, trace),
        Some(("page", page)) => page_words(alloc, page),
        _ => Err(missing(alloc, "command")),
    }
}

/// Reads the words after the viewer's name.
///
/// No words and words that clap refuses, numbers out of their limits among them, are `Refused` with a text; `--help` is
/// `Help` with its text.
pub fn read_view_words(alloc: Global, words: &[String]) -> Result<ViewWords, WordsFault>
    ensures reading { IfOk result (IsReading (map string_bytes words.now)) }
    ensures help { IfErr result (IsAskedFor (map string_bytes words.now)) }
{
    if words.is_empty() {
        return Err(missing(alloc, "command; try '--help'"));
    }
    let command = program_command(alloc)?;
    match command.try_get_matches_from(words) {
        Ok(matches) => command_words(alloc, &matches),
        Err(error) => Err(fault_of(alloc, &SUBCOMMANDS, words, &error)),
    }
}
