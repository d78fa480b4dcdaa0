// The statuses that calls answer, by their numbers in btworld.h.
ghost use Rattle.std.specs.Prelude.{◌≡◌, ◌≢◌, ◌⊎◌};
ghost use Rattle.level_text.specs.Levels.{fault_view};
ghost use Rattle.btworld_c.specs.Statuses.{fault_status, script_status, log_status, load_status, done, closed, illegal_event, no_memory, IsRefusal, IsStateFault};

use level_text::{LevelFault, ScriptFault};
use replay_log::LogFault;
use stepping::LoadFault;

pub(crate) const OK: u32 = 0;

pub(crate) const NO_MEMORY: u32 = 1;

pub(crate) const CLOSED: u32 = 2;

pub(crate) const OPEN: u32 = 3;

pub(crate) const NO_FRAME: u32 = 4;

pub(crate) const SHORT: u32 = 5;

pub(crate) const NO_AGENT: u32 = 6;

pub(crate) const LAST_FRAME: u32 = 7;

pub(crate) const NO_CELL: u32 = 8;

pub(crate) const LONG: u32 = 9;

pub(crate) const NO_PLACE: u32 = 10;

pub(crate) const ILLEGAL_EVENT: u32 = 50;

pub(crate) const INCOMPLETE: u32 = 51;

pub(crate) const STOPPED: u32 = 52;

// The number of a level's fault.
pub(crate) fn level_status(fault: &LevelFault) -> u32
    ensures value { result ≡ fault_status (fault_view fault.now) }
    ensures fault { result ≢ done }
    ensures level { result ≢ closed }
    ensures legal { result ≢ illegal_event }
    ensures refusal { IsRefusal result }
{
    match fault {
        LevelFault::OutOfMemory => NO_MEMORY,
        LevelFault::Json => 16,
        LevelFault::Shape => 17,
        LevelFault::MapSize => 18,
        LevelFault::MapChar { x: _, y: _ } => 19,
        LevelFault::Letters => 20,
        LevelFault::AgentCount => 21,
        LevelFault::BadTree { name: _, fault: _ } => 22,
        LevelFault::NoTree { agent: _ } => 23,
        LevelFault::NoPlace { name: _ } => 24,
        LevelFault::NoAgent { name: _ } => 25,
    }
}

// The number of a script's fault.
pub(crate) fn script_status(fault: ScriptFault) -> u32
    ensures value { result ≡ script_status fault }
    ensures fault { result ≢ done }
    ensures legal { result ≢ illegal_event }
    ensures refusal { IsRefusal result }
{
    match fault {
        ScriptFault::OutOfMemory => NO_MEMORY,
        ScriptFault::Line { n: _ } => 32,
        ScriptFault::Order { n: _ } => 33,
    }
}

// The number of a log's fault.
pub(crate) fn log_status(fault: LogFault) -> u32
    ensures value { result ≡ log_status fault }
    ensures legal { result ≢ illegal_event }
    ensures refusal { IsRefusal result }
{
    match fault {
        LogFault::OutOfMemory => NO_MEMORY,
        LogFault::Head => 48,
        LogFault::Line { n: _ } => 49,
    }
}

// The number of a state's fault.
pub(crate) fn load_status(fault: LoadFault) -> u32
    ensures value { result ≡ load_status fault }
    ensures fault { (result ≡ no_memory) ⊎ IsStateFault result }
{
    match fault {
        LoadFault::OutOfMemory => NO_MEMORY,
        LoadFault::Text => 64,
        LoadFault::Level => 65,
        LoadFault::World => 66,
    }
}
