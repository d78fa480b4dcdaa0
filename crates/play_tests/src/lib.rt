//! What no clause of a run says, in tests alone: that jobs are under way at once, when the gate is asked, which words are
//! taken, how a run's faults are told, and how threads share a mail. There are no contracts here, and so no wrong bodies.
#![tactic(auto)]

#[cfg(test)]
mod tests;
