ghost use Rattle.std.specs.Prelude.{◌≡◌};
ghost use Rattle.stepping.specs.declared.load_fault.LoadFault.TheVariants.{OutOfMemory};

use std::alloc::{AllocError, AllocFailed};

/// Why a text is not loaded.
#[derive(Clone, Copy, Debug, PartialEq, Eq, Drop)]
pub enum LoadFault {
    /// A growth was refused.
    OutOfMemory,
    /// It is not the text of a state.
    Text,
    /// It is one of another level.
    Level,
    /// An agent stands, or an item lies, in a wall or off the map, two agents stand on one cell, or a memory doesn't fit its tree.
    World,
}

impl From<AllocError> for LoadFault {
    ghost from_gives = { λ _ e. e ≡ OutOfMemory };

    fn from(_: AllocError) -> LoadFault {
        LoadFault::OutOfMemory
    }
}

impl<T: Drop> From<AllocFailed<T>> for LoadFault {
    ghost from_gives = { λ _ e. e ≡ OutOfMemory };

    fn from(_: AllocFailed<T>) -> LoadFault {
        LoadFault::OutOfMemory
    }
}
