// The program's words, as clap is told of them.
ghost use Rattle.std.specs.Prelude.{◌≡◌, false, codes, fold, IfOk};
ghost use Rattle.command_line.specs.Program.{in_range, new_program, program};
ghost use Rattle.command_line.specs.Table.{rule_in, with_argument, app_in, with_listed};
ghost use Rattle.clap.specs.declared.builder.command.Command.TheViews.{out-Command};
ghost use Rattle.clap.specs.Words.{app_of, new_app, rule_of};

use crate::table::{Argument, Form, SUBCOMMANDS, Subcommand};
use clap::builder::ValueParser;
use clap::{Arg, Command};
use std::alloc::{AllocError, Global};

const ABOUT: &str =
    "Plays grid worlds of agents with behaviour trees, and prints their frames.\n\nWith no words: plays 3 frames of the level on standard input, with 1 worker.";

const STATUSES: &str =
    "Status: 0 done; 1 a file can't be read or written, or a write failed; 2 words, level, script or log are refused;\n3 want of memory, or the run failed otherwise. A fault is one line on standard error.\nThe formats of level, script, frames and log stand in docs/BEHAVIOUR.md.";

/// What takes a number in a range.
fn range_parser<'a>(least: u32, most: u32) -> ValueParser<'a>
    ensures { result ≡ in_range least most }
{
    clap::value_parser!(u32).range(i64::from(least)..=i64::from(most))
}

/// An argument by the form in which the words give it.
fn argument_of<'a>(alloc: Global, argument: &Argument) -> Arg<'a>
    ensures rule { rule_of result ≡ rule_in argument.now }
    ensures local { result.global ≡ false }
{
    let name = argument.name;
    let made = Arg::new(alloc, name)
        .value_name(argument.value)
        .help(argument.help);
    match argument.form {
        Form::Place => made.required(true),
        Form::Path => made.long(name),
        Form::Text => made.long(name).required(true),
        Form::Number { least, most } => made
            .long(name)
            .required(true)
            .value_parser(range_parser(least, most)),
        Form::Default { least, most, value } => made
            .long(name)
            .default_value(value)
            .value_parser(range_parser(least, most)),
    }
}

/// A command with more arguments.
fn with_arguments<'a>(
    alloc: Global,
    command: Command<'a>,
    arguments: &[Argument],
) -> Result<Command<'a>, AllocError>
    requires command { (out-Command command).has_globals ≡ false }
    ensures app { IfOk result (λ c. app_of c ≡ fold with_argument (app_of command.entry) arguments.now) }
    ensures local { IfOk result (λ c. (out-Command c).has_globals ≡ false) }
{
    let mut command = command;
    for argument in arguments {
        command = command.arg(argument_of(alloc, argument))?;
    }
    Ok(command)
}

/// A command with what its help says first.
fn new_command<'a>(alloc: Global, name: &'a str, about: &'a str, usage: &'a str) -> Command<'a>
    ensures app { app_of result ≡ new_app name.entry.now }
    ensures local { (out-Command result).has_globals ≡ false }
{
    Command::new(alloc, name).about(about).override_usage(usage)
}

/// A command of the program.
fn subcommand_of<'a>(alloc: Global, subcommand: &Subcommand) -> Result<Command<'a>, AllocError>
    ensures app { IfOk result (λ c. app_of c ≡ app_in subcommand.now) }
    ensures local { IfOk result (λ c. (out-Command c).has_globals ≡ false) }
{
    let command = new_command(alloc, subcommand.name, subcommand.about, subcommand.usage);
    with_arguments(alloc, command, subcommand.arguments)
}

/// The program's version, and that of the logs that it writes.
const VERSION: &str = "2.0.0, log 2";

/// A program with this version, and with what its help says first and last. Its words are given without its name.
pub fn new_program<'a>(
    alloc: Global,
    name: &'a str,
    about: &'a str,
    usage: &'a str,
    statuses: &'a str,
) -> Command<'a>
    ensures { app_of result ≡ new_program name.entry.now }
{
    new_command(alloc, name, about, usage)
        .no_binary_name(true)
        .version(VERSION)
        .after_help(statuses)
}

fn top_command<'a>(alloc: Global) -> Command<'a>
    ensures { app_of result ≡ new_program (codes "btworld") }
{
    new_program(
        alloc,
        "btworld",
        ABOUT,
        "btworld\n       btworld <COMMAND>",
        STATUSES,
    )
}

/// A command with the commands of a table under it.
pub fn with_subcommands<'a>(
    alloc: Global,
    command: Command<'a>,
    subcommands: &[Subcommand],
) -> Result<Command<'a>, AllocError>
    ensures { IfOk result (λ c. app_of c ≡ fold with_listed (app_of command.entry) subcommands.now) }
{
    let mut command = command;
    for subcommand in subcommands {
        command = command.subcommand(subcommand_of(alloc, subcommand)?)?;
    }
    Ok(command)
}

/// The program with the commands of a table.
fn program_of<'a>(alloc: Global, subcommands: &[Subcommand]) -> Result<Command<'a>, AllocError>
    ensures { IfOk result (λ c. app_of c ≡ fold with_listed (new_program (codes "btworld")) subcommands.now) }
{
    with_subcommands(alloc, top_command(alloc), subcommands)
}

/// The program with all its commands.
pub fn program_command<'a>(alloc: Global) -> Result<Command<'a>, AllocError>
    ensures { IfOk result (λ c. app_of c ≡ program) }
{
    program_of(alloc, &SUBCOMMANDS)
}
