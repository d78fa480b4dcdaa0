//! A board's calls and what it is made of by example, and the calls that are refused for memory and called again: tests
//! alone.
#![tactic(auto)]

#[cfg(test)]
mod tests;
