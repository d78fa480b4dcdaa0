// What is said of a level, a script or a log that is refused.
ghost use Rattle.std.specs.Prelude.{◌≡◌, ◌<◌, ◌+◌};
ghost use Rattle.command_line.specs.Faults.{IsOfLevel, IsOfScript, IsOfLog, limit_words};

use crate::program_fault::Fault;
use bt_nodes::TreeFault;
use level_text::{LevelFault, ScriptFault};
use log_text::LogFault;

// The limit that a tree breaks.
fn limit_text(fault: TreeFault) -> &'static str
    ensures { result.now ≡ limit_words fault }
{
    match fault {
        TreeFault::TooManyNodes => "too many nodes",
        TreeFault::TooDeep => "too deep",
        TreeFault::NoChild => "no child",
        TreeFault::Threshold => "threshold",
        TreeFault::Count => "count",
    }
}

// The letter of an agent, counted from 0.
fn letter_of(agent: u32) -> char
    ensures { agent < 26 → result ≡ agent + 65 }
{
    char::from_u32(agent.saturating_add(65)).unwrap_or('?')
}

impl From<LevelFault> for Fault {
    ghost from_gives = { λ given fault. IsOfLevel given fault };

    fn from(fault: LevelFault) -> Fault {
        match fault {
            LevelFault::Json => Fault::Json,
            LevelFault::Shape => Fault::Shape,
            LevelFault::MapSize => Fault::MapSize,
            LevelFault::MapChar { x, y } => Fault::MapChar { x, y },
            LevelFault::Letters => Fault::Letters,
            LevelFault::AgentCount => Fault::AgentCount,
            LevelFault::BadTree { name, fault } => Fault::BadTree {
                name,
                limit: limit_text(fault),
            },
            LevelFault::NoTree { agent } => Fault::NoTree {
                letter: letter_of(agent),
            },
            LevelFault::NoPlace { name } => Fault::NoPlace { name },
            LevelFault::NoAgent { name } => Fault::NoAgent { name },
            LevelFault::OutOfMemory => Fault::OutOfMemory,
        }
    }
}

impl From<ScriptFault> for Fault {
    ghost from_gives = { λ given fault. IsOfScript given fault };

    fn from(fault: ScriptFault) -> Fault {
        match fault {
            ScriptFault::Line { n } => Fault::ScriptLine(n),
            ScriptFault::Order { n } => Fault::ScriptOrder(n),
            ScriptFault::OutOfMemory => Fault::OutOfMemory,
        }
    }
}

impl From<LogFault> for Fault {
    ghost from_gives = { λ given fault. IsOfLog given fault };

    fn from(fault: LogFault) -> Fault {
        match fault {
            LogFault::Head => Fault::LogHead,
            LogFault::Line { n } => Fault::LogLine(n),
            LogFault::OutOfMemory => Fault::OutOfMemory,
        }
    }
}
