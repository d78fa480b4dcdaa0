use std::alloc::AllocError;

/// Why rows are no map.
#[derive(Clone, Copy, Debug, PartialEq, Eq, Drop)]
pub enum MapFault {
    /// A growth was refused.
    OutOfMemory,
    /// No row or more than 128, a row of no character or more than 128, or rows of different lengths.
    Size,
    /// A character that no map has, the first by rows and then from the left, at column `x` of row `y`.
    Char { x: u32, y: u32 },
    /// The agents' letters aren't `A` onwards without a gap, each once, or a digit stands twice.
    Letters,
}

impl From<AllocError> for MapFault {
    ghost use Rattle.std.specs.Prelude.{◌≡◌};
    ghost use Rattle.grid_world.specs.declared.fault.MapFault.TheVariants.{OutOfMemory};

    ghost from_gives = { λ _ e. e ≡ OutOfMemory };

    fn from(_: AllocError) -> MapFault {
        MapFault::OutOfMemory
    }
}

/// Why the intents of a frame don't belong to a world.
#[derive(Clone, Copy, Debug, PartialEq, Eq, Drop)]
pub enum ResolveFault {
    /// A growth was refused.
    OutOfMemory,
    /// There are not as many intents as agents.
    Count,
}

impl From<AllocError> for ResolveFault {
    ghost use Rattle.std.specs.Prelude.{◌≡◌};
    ghost use Rattle.grid_world.specs.declared.fault.ResolveFault.TheVariants.{OutOfMemory};

    ghost from_gives = { λ _ e. e ≡ OutOfMemory };

    fn from(_: AllocError) -> ResolveFault {
        ResolveFault::OutOfMemory
    }
}
