// The commands and their arguments, as their helps tell them.

/// How the words give an argument.
#[derive(Clone, Copy)]
pub enum Form {
    /// By its place. It has to be there.
    Place,
    /// By an option with a path.
    Path,
    /// By an option with a text, which has to be there.
    Text,
    /// By an option with a number in a range, which has to be there.
    Number {
        least: u32,
        most: u32,
    },
    /// By an option with a number in a range, which has a default.
    Default {
        least: u32,
        most: u32,
        value: &'static str,
    },
}

/// An argument of a command.
#[derive(Clone, Copy)]
pub struct Argument {
    pub name: &'static str,
    /// What the help calls its value.
    pub value: &'static str,
    pub help: &'static str,
    pub form: Form,
}

/// A command of the program.
#[derive(Clone, Copy)]
pub struct Subcommand {
    pub name: &'static str,
    pub about: &'static str,
    pub usage: &'static str,
    pub arguments: &'static [Argument],
}

const LEVEL: Argument = Argument {
    name: "level",
    value: "LEVEL",
    help: "The level file: one JSON value with map, agents and trees",
    form: Form::Place,
};

const SCRIPT: Argument = Argument {
    name: "script",
    value: "FILE",
    help: "The script file: lines `FRAME on LETTER` or `FRAME off LETTER` [default: all signals off]",
    form: Form::Path,
};

const FRAMES: Argument = Argument {
    name: "frames",
    value: "N",
    help: "How many frames, 0 to 9999",
    form: Form::Number {
        least: 0,
        most: 9999,
    },
};

const WORKERS: Argument = Argument {
    name: "workers",
    value: "K",
    help: "How many worker threads, 1 to 16",
    form: Form::Number { least: 1, most: 16 },
};

const SMALL: Argument = Argument {
    name: "small",
    value: "S",
    help: "How many jobs that never wait may be under way at once, 1 to 16",
    form: Form::Default {
        least: 1,
        most: 16,
        value: "8",
    },
};

const LARGE: Argument = Argument {
    name: "large",
    value: "G",
    help: "How many jobs that may wait may be under way at once, 2 to 63",
    form: Form::Default {
        least: 2,
        most: 63,
        value: "8",
    },
};

const SLOTS: Argument = Argument {
    name: "slots",
    value: "P",
    help: "How many frames may be under way at once, 1 to 16",
    form: Form::Default {
        least: 1,
        most: 16,
        value: "3",
    },
};

const LOG: Argument = Argument {
    name: "log",
    value: "FILE",
    help: "Where the log of the run is written, once all frames are",
    form: Form::Path,
};

pub static SUBCOMMANDS: [Subcommand; 9] = [
    Subcommand {
        name: "play",
        about: "Plays a level and prints its frames on standard output.",
        usage: "btworld play LEVEL --frames N --workers K [--small S] [--large G] [--slots P] [--script FILE] [--log FILE]",
        arguments: &[LEVEL, FRAMES, WORKERS, SMALL, LARGE, SLOTS, SCRIPT, LOG],
    },
    Subcommand {
        name: "replay",
        about: "Does the events of a log one by one, and prints the frames that they show.",
        usage: "btworld replay LEVEL LOG [--script FILE]",
        arguments: &[
            LEVEL,
            Argument {
                name: "log",
                value: "LOG",
                help: "The log file, as `play --log` writes it",
                form: Form::Place,
            },
            SCRIPT,
        ],
    },
    Subcommand {
        name: "check",
        about: "Reads a level, and prints `ok WIDTH HEIGHT AGENTS TREES`.",
        usage: "btworld check LEVEL",
        arguments: &[LEVEL],
    },
    Subcommand {
        name: "explain",
        about: "Prints where the first fault of a level, a script and a log lies and why it is one, or `ok`.",
        usage: "btworld explain LEVEL [--script FILE] [--log FILE]",
        arguments: &[
            LEVEL,
            SCRIPT,
            Argument {
                name: "log",
                value: "FILE",
                help: "The log file, as `play --log` writes it, or the journal file",
                form: Form::Path,
            },
        ],
    },
    Subcommand {
        name: "digest",
        about: "Prints the digests of a level and a script, and then that of the state after each frame: two machines compare them.",
        usage: "btworld digest LEVEL --frames N [--script FILE]",
        arguments: &[LEVEL, FRAMES, SCRIPT],
    },
    Subcommand {
        name: "state",
        about: "Prints the state after a frame, a line for each agent and each item: two machines compare it.",
        usage: "btworld state LEVEL --frame F [--script FILE]",
        arguments: &[
            LEVEL,
            Argument {
                name: "frame",
                value: "F",
                help: "After which frame, 0 to 9999",
                form: Form::Number {
                    least: 0,
                    most: 9999,
                },
            },
            SCRIPT,
        ],
    },
    Subcommand {
        name: "why",
        about: "Prints why an agent did what it did in a frame: what each node of its tree answered, with its number, and behind it the way that a `move` got, or the number before and after of a node that remembers one.",
        usage: "btworld why LEVEL --frame F --agent A [--script FILE]",
        arguments: &[
            LEVEL,
            Argument {
                name: "frame",
                value: "F",
                help: "In which frame, 1 to 9999",
                form: Form::Number {
                    least: 1,
                    most: 9999,
                },
            },
            Argument {
                name: "agent",
                value: "A",
                help: "The agent's letter, A to Z, as the frames show it",
                form: Form::Text,
            },
            SCRIPT,
        ],
    },
    Subcommand {
        name: "complete",
        about: "Goes on where the log or the journal of an interrupted run breaks off, prints all frames, and writes the log of the whole run.",
        usage: "btworld complete LEVEL LOG WHOLE [--script FILE]",
        arguments: &[
            LEVEL,
            Argument {
                name: "log",
                value: "LOG",
                help: "The log or the journal file; a last line without its line feed is left out",
                form: Form::Place,
            },
            Argument {
                name: "whole",
                value: "WHOLE",
                help: "Where the whole log is written, once all frames are",
                form: Form::Place,
            },
            SCRIPT,
        ],
    },
    Subcommand {
        name: "record",
        about: "Plays a level as `play` does, and writes a journal of the run, which knows its level and script: `complete` goes on where it breaks off.",
        usage: "btworld record LEVEL JOURNAL --frames N --workers K [--small S] [--large G] [--slots P] [--script FILE]",
        arguments: &[
            LEVEL,
            Argument {
                name: "journal",
                value: "JOURNAL",
                help: "Where the journal of the run is written",
                form: Form::Place,
            },
            FRAMES,
            WORKERS,
            SMALL,
            LARGE,
            SLOTS,
            SCRIPT,
        ],
    },
];
