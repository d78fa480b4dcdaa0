use std::alloc::AllocError;

/// Why words are not done.
#[derive(Debug, Drop)]
pub enum WordsFault {
    OutOfMemory,
    /// The help that was asked for.
    Help(String),
    /// The version that was asked for.
    Version(String),
    /// What is wrong with the words.
    Refused(String),
}

impl From<AllocError> for WordsFault {
    ghost use Rattle.std.specs.Prelude.{◌≡◌};
    ghost use Rattle.command_line.specs.declared.words_fault.WordsFault.TheVariants.{OutOfMemory};

    ghost from_gives = { λ _ fault. fault ≡ OutOfMemory };

    fn from(_: AllocError) -> WordsFault {
        WordsFault::OutOfMemory
    }
}
