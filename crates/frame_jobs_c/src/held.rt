ghost use Rattle.std.specs.Prelude.{◌≡◌, Some, IfSome, IfNone, None, is_some};

use crate::handle::Handle;
use frame_jobs::FrameJobs;
use std::alloc::Global;
use std::mem;

/// A board that a caller holds: of zeros it is closed. It is changed by the calls alone.
#[repr(C)]
#[derive(Drop)]
pub struct Board {
    pub handle: Handle,
    pub is_open: bool,
    ghost says: { is_open ≡ is_some handle.value },
}

/// The numbers of a run.
#[repr(C)]
#[derive(Clone, Copy, Drop)]
pub struct Numbers {
    pub frames: u32,
    pub agents: u32,
    pub bands: u32,
    pub workers: u32,
    pub small: u32,
    pub large: u32,
    pub slots: u32,
    pub most_questions: u32,
}

/// A job: 0 Logic, 1 Think, 2 Path, 3 Draw; its frame, its agent or band, and a question.
#[repr(C)]
#[derive(Clone, Copy, Drop)]
pub struct Job {
    pub kind: u32,
    pub frame: u32,
    pub index: u32,
    pub question: u32,
}

/// An event: 0 start, 1 resume, 2 ask, 3 spread, 4 hold, 5 finish, 6 emit, 7 stop; its worker and its job.
#[repr(C)]
#[derive(Clone, Copy, Drop)]
pub struct EventState {
    pub kind: u32,
    pub worker: u32,
    pub job: Job,
}

// Takes the board out, and leaves it closed.
pub(crate) fn take(alloc: Global, board: &mut Board) -> Option<Box<FrameJobs>>
    ensures some { IfSome result (λ b. board.old.handle.value ≡ Some b.value) }
    ensures none { IfNone result (board.old.handle.value ≡ None) }
    ensures closed { board.new.handle.value ≡ None }
{
    let closed = Board {
        handle: Handle::closed(alloc),
        is_open: false,
    };
    let Board { handle, is_open } = mem::replace(board, closed);
    if is_open {
        Some(handle.into_box())
    } else {
        None
    }
}

// Puts a board in. What was there is closed.
pub(crate) fn put(board: &mut Board, held: Box<FrameJobs>)
    requires { board.old.handle.value ≡ None }
    ensures { board.new.handle.value ≡ Some held.value }
{
    *board = Board {
        handle: Handle::of(held),
        is_open: true,
    };
}
