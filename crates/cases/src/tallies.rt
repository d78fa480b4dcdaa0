use crate::case::Case;
use crate::tally::Tally;
use std::io;

/// What came of cases: those that are wrong on purpose are counted apart.
#[derive(Clone, Copy, Drop)]
pub struct Tallies {
    cases: u64,
    right: Tally,
    wrong: Tally,
}

impl Tallies {
    /// Of no cases.
    pub fn new() -> Tallies {
        Tallies {
            cases: 0,
            right: Tally::new(),
            wrong: Tally::new(),
        }
    }

    /// Counts the runs of a case.
    pub fn add(&mut self, case: &Case, tally: Tally) {
        if case.differs.is_some() {
            self.wrong.add(tally);
        } else {
            self.cases = self.cases.saturating_add(1);
            self.right.add(tally);
        }
    }

    /// Prints the line that a program of cases ends with.
    pub fn print<H: Print>(&self, rt: &H) -> io::Result<()> {
        println!(rt;
            "{} cases, {} runs, {} differ; {} made to differ, {} do",
            self.cases, self.right.runs, self.right.differ, self.wrong.runs, self.wrong.differ
        )
    }
}
