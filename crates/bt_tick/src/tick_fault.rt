use std::alloc::AllocError;

/// Why a tick did not go on. What was handed in is gone then.
#[derive(Clone, Copy, Debug, PartialEq, Eq, Drop)]
pub enum TickFault {
    OutOfMemory,
}

impl From<AllocError> for TickFault {
    fn from(_refused: AllocError) -> TickFault {
        TickFault::OutOfMemory
    }
}
