use grid_world::Intent;

/// What a leaf that asks nothing comes to.
#[derive(Clone, Copy, Drop)]
pub enum LeafResult {
    /// It says whether something holds.
    Says(bool),
    /// It wants this, and is Running.
    Wants(Intent),
}
