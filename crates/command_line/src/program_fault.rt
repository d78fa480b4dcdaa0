ghost use Rattle.std.specs.Prelude.{◌≡◌};
ghost use Rattle.command_line.specs.Faults.{status_of};

use std::alloc::AllocError;
use std::io::Write;
use thiserror::Error;

/// What the program says on standard error where it does not do what its words ask for: one line, or more where the name
/// of a tree or a path has line feeds.
#[derive(Debug, Drop, Error)]
pub enum Fault {
    #[error("file: {0}")]
    File(String),
    #[error("file: standard input")]
    StandardInput,
    #[error("words: {output} would overwrite {input}")]
    SameFile { output: String, input: String },
    #[error("level: json")]
    Json,
    #[error("level: shape")]
    Shape,
    #[error("level: map size")]
    MapSize,
    #[error("level: map character at {x},{y}")]
    MapChar { x: u32, y: u32 },
    #[error("level: letters")]
    Letters,
    #[error("level: agent count")]
    AgentCount,
    #[error("level: tree {name}: {limit}")]
    BadTree { name: String, limit: &'static str },
    #[error("level: agent {letter} has no tree")]
    NoTree { letter: char },
    #[error("level: tree {name} names a place that is not on the map")]
    NoPlace { name: String },
    #[error("level: tree {name} names an agent that is not on the map")]
    NoAgent { name: String },
    #[error("script: line {0}")]
    ScriptLine(u64),
    #[error("script: order at line {0}")]
    ScriptOrder(u64),
    #[error("log: head")]
    LogHead,
    #[error("log: line {0}")]
    LogLine(u64),
    #[error("log: illegal event {0}")]
    IllegalEvent(u64),
    #[error("log: incomplete, {shown} of {frames} frames")]
    Incomplete { shown: u32, frames: u32 },
    #[error("log: stopped")]
    Stopped,
    #[error("journal: head")]
    JournalHead,
    #[error("journal: another level")]
    AnotherLevel,
    #[error("journal: another script")]
    AnotherScript,
    #[error("why: no agent")]
    NoSuchAgent,
    #[error("run: write")]
    Write,
    #[error("run: spawn")]
    Spawn,
    #[error("run: gate closed")]
    GateClosed,
    #[error("run: stranger")]
    Stranger,
    #[error("want of memory")]
    OutOfMemory,
}

impl From<AllocError> for Fault {
    ghost use Rattle.std.specs.Prelude.{◌≡◌};
    ghost use Rattle.command_line.specs.declared.program_fault.Fault.TheVariants.{OutOfMemory};

    ghost from_gives = { λ _ fault. fault ≡ OutOfMemory };

    fn from(_: AllocError) -> Fault {
        Fault::OutOfMemory
    }
}

impl Fault {
    /// The status with which the program ends.
    pub fn status(&self) -> u8
        ensures { result ≡ status_of self.now }
    {
        match self {
            Fault::File(_) | Fault::StandardInput | Fault::Write => 1,
            Fault::Spawn | Fault::GateClosed | Fault::Stranger | Fault::OutOfMemory => 3,
            _ => 2,
        }
    }

    /// Writes the line, and gives the status, also where the line can't be written. Takes no memory.
    pub fn report<E: Write>(&self, err: &mut E) -> u8
        ensures { result ≡ status_of self.now }
    {
        let _ = writeln!(err, "{self}");
        self.status()
    }
}
