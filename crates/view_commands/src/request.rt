use trace_text::FrameSpan;

/// What the viewer's words ask for. Each text is the path of a file.
#[derive(Debug, Drop)]
pub enum ViewWords {
    /// Write what workers did in these frames of a log, for a viewer of traces.
    Trace {
        log: String,
        frames: FrameSpan,
    },
    /// Write a page that shows a level's run, and what workers did in these of its frames.
    Page {
        level: String,
        log: String,
        script: Option<String>,
        live: Option<String>,
        frames: FrameSpan,
    },
}
