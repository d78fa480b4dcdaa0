use job_core::names::Size;
use job_scheduler::Settings;

/// The numbers of a run by which events are legal, but for the questions of its thinks.
#[derive(Clone, Copy, Debug, PartialEq, Eq)]
pub struct Run {
    pub settings: Settings,
    pub agents: u32,
    pub bands: u32,
}

impl Run {
    /// How many fibers there are of a size.
    pub(crate) fn fibers(&self, size: Size) -> u32 {
        match size {
            Size::Small => self.settings.small(),
            Size::Large => self.settings.large(),
        }
    }
}
