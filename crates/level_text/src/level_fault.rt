ghost use Rattle.std.specs.Prelude.{◌≡◌};
ghost use Rattle.level_text.specs.declared.level_fault.LevelFault.TheVariants.{OutOfMemory};

use bt_nodes::TreeFault;
use std::alloc::{AllocError, AllocFailed};

/// Why bytes or a JSON value are no level. Of several faults the first of these is answered, each looked for in the
/// whole file before the next.
#[derive(Debug, Drop)]
pub enum LevelFault {
    /// A growth was refused.
    OutOfMemory,
    /// The bytes are no JSON value that `serde_json` reads: UTF-8, nested at most 127 deep.
    Json,
    /// No object with exactly the keys `map`, `agents` and `trees`, or a value of the wrong kind at any depth.
    Shape,
    /// No row or more than 128, a row of no character or more than 128, or rows of different lengths.
    MapSize,
    /// A character that no map has, the first by rows and then from the left, at column `x` of row `y`.
    MapChar { x: u32, y: u32 },
    /// The agents' letters aren't `A` onwards without a gap, each once, or a digit stands twice.
    Letters,
    /// `agents` has another length than there are agents on the map.
    AgentCount,
    /// A tree, used by an agent or not, breaks a limit: the first by the bytes of the names.
    BadTree { name: String, fault: TreeFault },
    /// There is no tree of this agent's name: the lowest agent, counted from 0.
    NoTree { agent: u32 },
    /// A tree, used by an agent or not, names a place that is not on the map: the first by the bytes of the names.
    NoPlace { name: String },
    /// A tree, used by an agent or not, names an agent that is not on the map: the first by the bytes of the names.
    NoAgent { name: String },
}

impl From<AllocError> for LevelFault {
    ghost from_gives = { λ _ e. e ≡ OutOfMemory };

    fn from(_: AllocError) -> LevelFault {
        LevelFault::OutOfMemory
    }
}

impl<T: Drop> From<AllocFailed<T>> for LevelFault {
    ghost from_gives = { λ _ e. e ≡ OutOfMemory };

    fn from(_: AllocFailed<T>) -> LevelFault {
        LevelFault::OutOfMemory
    }
}
