// The viewer's words, as clap is told of them.
ghost use Rattle.std.specs.Prelude.{◌≡◌, codes, IfOk};
ghost use Rattle.clap.specs.Words.{app_of};
ghost use Rattle.command_line.specs.Program.{new_program};
ghost use Rattle.view_commands.specs.Program.{program};

use clap::Command;
use command_line::{Argument, Form, Subcommand, new_program, with_subcommands};
use std::alloc::{AllocError, Global};

const ABOUT: &str =
    "Shows runs of btworld: their frames, and what their workers did, event by event.";

const STATUSES: &str =
    "Status: 0 done; 1 a file can't be read, or a write failed; 2 words, level, script or log are refused; 3 want of memory.\nA fault is one line on standard error. Logs are written by `btworld play --log FILE`.";

const FROM: Argument = Argument {
    name: "from",
    value: "F",
    help: "The first frame whose jobs are shown, 1 to 9999",
    form: Form::Default {
        least: 1,
        most: 9999,
        value: "1",
    },
};

const TO: Argument = Argument {
    name: "to",
    value: "T",
    help: "The last frame whose jobs are shown, 1 to 9999",
    form: Form::Default {
        least: 1,
        most: 9999,
        value: "9999",
    },
};

// A run of a board of jobs alone may have more frames than that of a level.
const FROM_ANY: Argument = Argument {
    name: "from",
    value: "F",
    help: "The first frame whose jobs are shown, from 1",
    form: Form::Default {
        least: 1,
        most: 4_294_967_295,
        value: "1",
    },
};

const TO_ANY: Argument = Argument {
    name: "to",
    value: "T",
    help: "The last frame whose jobs are shown",
    form: Form::Default {
        least: 1,
        most: 4_294_967_295,
        value: "4294967295",
    },
};

pub static SUBCOMMANDS: [Subcommand; 2] = [
    Subcommand {
        name: "trace",
        about: "Writes a log as JSON of Chrome's trace format, for ui.perfetto.dev or chrome://tracing: a lane for each worker and one for the printer, a slice for each stretch in which a worker runs a job, arrows from a Think to the Paths that it asks and back. Time counts events. Any log that can be read is shown, legal or not. Browsers like up to some 100,000 slices: --from and --to take a part of a longer run.",
        usage: "btview trace LOG [--from F] [--to T]",
        arguments: &[
            Argument {
                name: "log",
                value: "LOG",
                help: "The log file, as `btworld play --log` or btjobs writes it",
                form: Form::Place,
            },
            FROM_ANY,
            TO_ANY,
        ],
    },
    Subcommand {
        name: "page",
        about: "Writes a page that shows a run: the map frame by frame, the agents with answer, cell, load and tree, what changed, an overview of all frames, and the jobs around the frame shown, lane by lane. One HTML file, which needs no network; any browser opens it, and ? lists its keys. An incomplete log shows the frames that it has; one with an illegal event those before it, and the event is marked: the page is there then, and status and fault are those of `btworld replay`. All frames are shown; --from and --to say of which the jobs are.",
        usage: "btview page LEVEL LOG [--script FILE] [--live FILE] [--from F] [--to T]",
        arguments: &[
            Argument {
                name: "level",
                value: "LEVEL",
                help: "The level's file",
                form: Form::Place,
            },
            Argument {
                name: "log",
                value: "LOG",
                help: "The log file, as `btworld play --log` writes it",
                form: Form::Place,
            },
            Argument {
                name: "script",
                value: "FILE",
                help: "The script with which the run was played",
                form: Form::Path,
            },
            Argument {
                name: "live",
                value: "FILE",
                help: "What is written behind the page, as it is: live.html draws the tree of the chosen agent, with each node's answer",
                form: Form::Path,
            },
            FROM,
            TO,
        ],
    },
];

fn top_command<'a>(alloc: Global) -> Command<'a>
    ensures { app_of result ≡ new_program (codes "btview") }
{
    new_program(alloc, "btview", ABOUT, "btview <COMMAND>", STATUSES)
}

/// The viewer with all its commands.
pub fn program_command<'a>(alloc: Global) -> Result<Command<'a>, AllocError>
    ensures { IfOk result (λ c. app_of c ≡ program) }
{
    with_subcommands(alloc, top_command(alloc), &SUBCOMMANDS)
}
