//! The worlds and signals that the tests begin with.
use grid_world::{Intent, Signal, Signals, World, resolve};
use std::alloc::Global;

fn texts_of(alloc: Global, rows: &[&str]) -> Option<Vec<String>> {
    let mut texts = Vec::new(alloc);
    for row in rows {
        texts.push(String::from_str(alloc, row).ok()?).ok()?;
    }
    Some(texts)
}

/// The world of these rows.
pub fn world_of(alloc: Global, rows: &[&str]) -> Option<World> {
    World::from_rows(alloc, &texts_of(alloc, rows)?).ok()
}

/// All signals off but this one.
pub fn only(number: u32) -> Signals {
    let mut signals = Signals::off();
    if let Some(signal) = Signal::new(number) {
        signals.set(signal, true);
    }
    signals
}

/// The world of these rows after the intents of some frames.
pub fn world_after(
    alloc: Global,
    rows: &[&str],
    signals: Signals,
    frames: &[&[Intent]],
) -> Option<World> {
    let mut world = world_of(alloc, rows)?;
    for intents in frames {
        world = resolve(alloc, &world, signals, intents).ok()?;
    }
    Some(world)
}
