ghost use Rattle.std.specs.Prelude.{◌≡◌};
ghost use Rattle.run_shared.specs.Causes.{rank, lower};

/// Why a run failed. Of several causes that its threads met the lowest is answered: they stand here in their order.
#[derive(Clone, Copy, Debug, PartialEq, Eq, Drop)]
pub enum Cause {
    OutOfMemory,
    /// A thread could not be started.
    Spawn,
    /// A write answered an error or took no byte, or the flush after the last frame failed.
    Write,
    /// The gate answered false.
    GateClosed,
    /// What no other cause names: the board refused a call, a shown frame lacked a band, or the events were not complete.
    /// No run is known to end so.
    Stranger,
}

impl Cause {
    // Its place in the order.
    fn rank(self) -> u32
        ensures { result ≡ rank self }
    {
        match self {
            Cause::OutOfMemory => 0,
            Cause::Spawn => 1,
            Cause::Write => 2,
            Cause::GateClosed => 3,
            Cause::Stranger => 4,
        }
    }

    /// The lower of two.
    pub fn lower(self, other: Cause) -> Cause
        ensures { result ≡ lower self other }
    {
        if other.rank() < self.rank() {
            other
        } else {
            self
        }
    }
}

/// Why a run failed, and how many whole frames it had written.
#[derive(Clone, Copy, Debug, PartialEq, Eq, Drop)]
pub struct RunFault {
    pub cause: Cause,
    pub frames: u32,
}
