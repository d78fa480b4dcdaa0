//! The tasks of a frame and what their work comes to: thoughts that are ticked from question to question, the search for
//! ways, and the tasks of all kinds as one type. As below, callers see each by its game, frame and numbers alone.
#![tactic(auto)]

mod board_step;
mod lease;
mod parked;
mod path_task;
mod resume_point;
mod step;
mod task;
mod think_step;
mod think_task;
mod ticking;

pub use board_step::BoardStep;
pub use frame_state::{
    BandMark, BandOut, DrawTask, FrameParams, FrameStart, Gathering, LogicStep, LogicTask,
    NextFrame, Slots, Thought, Turn, TurnedWorld, Way,
};
pub use lease::Lease;
pub use parked::Parked;
pub use path_task::PathTask;
pub use step::Step;
pub use task::Task;
pub use think_step::ThinkStep;
pub use think_task::ThinkTask;
