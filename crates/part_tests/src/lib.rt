//! Worlds, trees, ways, stacks, drawings, levels, ticks and states by example, also in arenas and in heaps that refuse growths:
//! tests alone.
#![tactic(auto)]

#[cfg(test)]
mod tests;
