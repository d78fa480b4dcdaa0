//! The jobs of a game of one's own as a static library: a board is opened, hands out the names of jobs, and is told what comes
//! of them. A handle is closed, or owns a board on the heap. Each call answers a status.
#![tactic(auto)]

mod board_reading;
mod buffer;
mod handle;
mod held;
mod logs;
mod loose;
mod moving;
mod names;
mod opening;
mod status;
mod taking;
mod telling;

pub use board_reading::{
    btjobs_count, btjobs_event_at, btjobs_events, btjobs_is_done, btjobs_may_take,
};
pub use held::{Board, EventState, Job, Numbers};
pub use logs::{btjobs_read_log, btjobs_write_log, events_come_back};
pub use moving::boards_move;
pub use opening::{btjobs_close, btjobs_open, btjobs_version};
pub use taking::{btjobs_resume, btjobs_start, btjobs_take, btjobs_take_any};
pub use telling::{btjobs_ask, btjobs_finish, btjobs_show, btjobs_spread, btjobs_stop};
