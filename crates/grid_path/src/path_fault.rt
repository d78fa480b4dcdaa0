use std::alloc::AllocError;

/// Why a path question has no answer.
#[derive(Clone, Copy, Debug, PartialEq, Eq, Drop)]
pub enum PathFault {
    /// The asking cell or the place is not on the map.
    OffMap,
    /// Memory for the search was refused.
    OutOfMemory,
}

impl From<AllocError> for PathFault {
    ghost use Rattle.grid_path.specs.declared.path_fault.PathFault.TheVariants.{OutOfMemory};
    ghost use Rattle.std.specs.Prelude.{◌≡◌};

    ghost from_gives = { λ _ fault. fault ≡ OutOfMemory };

    fn from(_error: AllocError) -> PathFault {
        PathFault::OutOfMemory
    }
}
