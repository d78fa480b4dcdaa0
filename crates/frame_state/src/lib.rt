//! What the jobs of a frame share, and what comes of a frame: the parameters of the frames under way, with the distances
//! that are known, and thoughts, ways, turns and bands. The tasks that are made of whole frames, Logic and Draw, stand here
//! too. A value's type keeps that what it holds is the game's value for its game, frame and numbers, so callers see it as
//! these alone.
#![tactic(auto)]

mod band_mark;
mod band_out;
mod draw_task;
mod frame_start;
mod gathered;
mod gathering;
mod kept_memory;
mod logic_step;
mod logic_task;
mod next_frame;
mod params;
mod slots;
mod thought;
mod turn;
mod turned_world;
mod way;

pub use band_mark::BandMark;
pub use band_out::BandOut;
pub use draw_task::DrawTask;
pub use frame_parts::DistanceField;
pub use frame_start::FrameStart;
pub use gathering::Gathering;
pub use kept_memory::KeptMemory;
pub use logic_step::LogicStep;
pub use logic_task::LogicTask;
pub use next_frame::NextFrame;
pub use params::FrameParams;
pub use slots::Slots;
pub use thought::Thought;
pub use turn::Turn;
pub use turned_world::TurnedWorld;
pub use way::Way;
