ghost use Rattle.std.specs.Prelude.{◌≡◌};
ghost use Rattle.trace_text.specs.Boards.{joined_in, printer_of, title_text, workers_of};

/// The board whose events are shown.
#[derive(Clone, Copy, Debug, PartialEq, Eq)]
pub enum Board {
    /// Of a play of a level: at most 16 workers.
    Play { workers: u32 },
    /// Of jobs alone: at most 64 workers.
    Jobs { workers: u32, agents: u32 },
}

impl Board {
    pub(crate) fn title(self) -> &'static str
        ensures { result.now ≡ title_text self }
    {
        match self {
            Board::Play { .. } => "btworld",
            Board::Jobs { .. } => "btjobs",
        }
    }

    /// The workers whose lanes are named.
    pub(crate) fn workers(self) -> u32
        ensures { result ≡ workers_of self }
    {
        match self {
            Board::Play { workers } => workers,
            Board::Jobs { workers, .. } => workers.min(64),
        }
    }

    /// The thread of the printer's lane.
    pub(crate) fn printer(self) -> u64
        ensures { result ≡ printer_of self }
    {
        match self {
            Board::Play { .. } => 17,
            Board::Jobs { .. } => 65,
        }
    }

    /// How many numbers a frame has for what arrows join.
    pub(crate) fn joined(self) -> u64
        ensures { result ≡ joined_in self }
    {
        match self {
            Board::Play { .. } => 100,
            Board::Jobs { agents, .. } => u64::from(agents) + 1,
        }
    }
}
