ghost use Rattle.std.specs.Prelude.{◌≡◌};
ghost use Rattle.draw_list.specs.declared.draw_fault.DrawFault.TheVariants.{OutOfMemory};

use std::alloc::AllocError;

/// Why a band or a frame isn't drawn.
#[derive(Clone, Copy, Debug, PartialEq, Eq, Drop)]
pub enum DrawFault {
    OutOfMemory,
    /// The map has no such band.
    NoBand,
    /// The first place whose band is missing, has another number or another size, or is one too many.
    Gap { band: u32 },
}

impl From<AllocError> for DrawFault {
    ghost from_gives = { λ _ fault. fault ≡ OutOfMemory };

    fn from(_: AllocError) -> DrawFault {
        DrawFault::OutOfMemory
    }
}
