ghost use Rattle.std.specs.Prelude.{◌≡◌};
ghost use Rattle.trace_text.specs.Spans.{has_frame};

/// Frames from the first to the last, both among them. Frames count from 1.
#[derive(Clone, Copy, Debug, PartialEq, Eq)]
pub struct FrameSpan {
    pub first: u32,
    pub last: u32,
}

impl FrameSpan {
    /// Whether the frame is among them.
    pub fn has(&self, frame: u32) -> bool
        ensures { result ≡ has_frame self.now frame }
    {
        self.first <= frame && frame <= self.last
    }
}
