//! What a game's frames are made of, whoever plays them: the memories before the first frame, ticks that ask for ways until
//! they end, the distances that are known on the game's ground, and the world after all intents. The jobs of a frame stand on
//! it, and so does a game that is stepped.
#![tactic(auto)]

mod distance_cache;
mod distance_field;
mod memories;
mod ticking;
mod turning;

pub use distance_cache::{DistanceCache, shared, to_place};
pub use distance_field::DistanceField;
pub use memories::zero_memories;
pub use ticking::{begun, cell_on, gone_on};
pub use turning::{resolve_in_place, resolved};
