// The entries of clap's reading, as values of their own.
ghost use Rattle.std.specs.Prelude.{◌≡◌, Some, option_map, string_bytes, IfOk, IfErr};
ghost use Rattle.command_line.specs.Program.{IsNumber, IsNoHelp};
ghost use Rattle.clap.specs.Words.{first_of, found_of, rows_of};

use crate::words_fault::WordsFault;
use clap::ArgMatches;
use std::alloc::{AllocError, Global};

/// An entry that clap's reading doesn't have; clap refuses such words itself.
pub fn missing(alloc: Global, name: &str) -> WordsFault
    ensures { IsNoHelp result }
{
    match format!(in alloc; "error: no {name}\n") {
        Ok(text) => WordsFault::Refused(text),
        Err(_) => WordsFault::OutOfMemory,
    }
}

/// The number of an entry that has to be there. The fault is `missing`'s, also where the text is no number below 2^32.
pub fn number_entry(alloc: Global, matches: &ArgMatches<'_>, name: &str) -> Result<u32, WordsFault>
    ensures number { IfOk result (λ n. IsNumber (first_of name.now (rows_of (found_of matches.now))) n) }
    ensures fault { IfErr result IsNoHelp }
{
    match matches.get_str(name) {
        Some(text) => match text.parse::<u32>() {
            Ok(number) => Ok(number),
            Err(_) => Err(missing(alloc, name)),
        },
        None => Err(missing(alloc, name)),
    }
}

/// The text of an entry that has to be there. The fault is `missing`'s, or out of memory.
pub fn text_entry(alloc: Global, matches: &ArgMatches<'_>, name: &str) -> Result<String, WordsFault>
    ensures text { IfOk result (λ t. first_of name.now (rows_of (found_of matches.now)) ≡ Some (string_bytes t)) }
    ensures fault { IfErr result IsNoHelp }
{
    match matches.get_str(name) {
        Some(text) => Ok(String::from_str(alloc, text)?),
        None => Err(missing(alloc, name)),
    }
}

/// The text of an entry that may be absent.
pub fn optional_entry(
    alloc: Global,
    matches: &ArgMatches<'_>,
    name: &str,
) -> Result<Option<String>, AllocError>
    ensures { IfOk result (λ t. first_of name.now (rows_of (found_of matches.now))
        ≡ option_map (λ s. string_bytes s) t) }
{
    match matches.get_str(name) {
        Some(text) => Ok(Some(String::from_str(alloc, text)?)),
        None => Ok(None),
    }
}
