/// How many runs there were, and how many of them differed from what their cases say.
#[derive(Clone, Copy, Drop)]
pub struct Tally {
    pub runs: u64,
    pub differ: u64,
}

impl Tally {
    /// Of no runs.
    pub fn new() -> Tally {
        Tally { runs: 0, differ: 0 }
    }

    /// Counts a run.
    pub fn count(&mut self, differs: bool) {
        self.runs = self.runs.saturating_add(1);
        if differs {
            self.differ = self.differ.saturating_add(1);
        }
    }

    /// Counts the runs of another.
    pub fn add(&mut self, other: Tally) {
        self.runs = self.runs.saturating_add(other.runs);
        self.differ = self.differ.saturating_add(other.differ);
    }
}
