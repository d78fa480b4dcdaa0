use job_scheduler::Settings;

/// What the words ask for. Each text is the path of a file, but for an agent's letter.
#[derive(Debug, Drop)]
pub enum Words {
    /// No words: the level comes from standard input.
    Piped,
    /// Play a level, and print its frames.
    Play {
        level: String,
        settings: Settings,
        script: Option<String>,
        /// Where the log of the run is written.
        log: Option<String>,
    },
    /// Print the frames that a log shows.
    Replay {
        level: String,
        log: String,
        script: Option<String>,
    },
    /// Say whether a level can be played.
    Check {
        level: String,
    },
    /// Say where the first fault of a level, a script and a log lies, and why it is one.
    Explain {
        level: String,
        script: Option<String>,
        log: Option<String>,
    },
    /// Print the digest of each frame's state.
    Digest {
        level: String,
        frames: u32,
        script: Option<String>,
    },
    /// Print the state after a frame.
    State {
        level: String,
        frame: u32,
        script: Option<String>,
    },
    /// Print why an agent did what it did in a frame.
    Why {
        level: String,
        frame: u32,
        /// The agent's letter; no path.
        agent: String,
        script: Option<String>,
    },
    /// Print all frames of an interrupted log's run, and write its whole log.
    Complete {
        level: String,
        log: String,
        /// Where the whole log is written.
        whole: String,
        script: Option<String>,
    },
    /// Play a level, print its frames, and write the run's journal.
    Record {
        level: String,
        /// Where the journal is written.
        journal: String,
        settings: Settings,
        script: Option<String>,
    },
}
