ghost use Rattle.std.specs.Coded.{coded_option};
ghost use Rattle.frame_jobs.specs.Boards.{FrameBoard};
ghost use Rattle.frame_jobs.specs.BoardCode.{board_code};
ghost use Rattle.std.specs.Prelude.{◌≡◌, ◌≢◌, Some, None, Option};

use crate::loose::Loose;
use frame_jobs::FrameJobs;
use std::alloc::Global;
use std::marker::Model;

/// What a struct of C holds of a board: a pointer to the board on the heap, which the handle owns, or nothing. It is seen as the
/// board that it holds, if it holds one. A handle that is let go while it holds a board loses its memory, so take the board
/// out first.
#[repr(C)]
#[derive(Drop)]
pub struct Handle {
    at: *mut u8,
    alloc: Global,
    pub ghost value: { Option FrameBoard } by { coded_option board_code },
}

impl Model for Handle {
    ghost use Rattle.frame_jobs.specs.contracts.board.FrameJobs.{the_row};
    ghost use Rattle.frame_jobs_c.specs.Held.{held};
    ghost use Rattle.std.specs.contracts.impls.GlobalAllocator.TheImpl.{ghosts};
    ghost use Rattle.std.specs.Prelude.{Option};

    ghost also_owns = { λ h. held (ghosts.dealloc_token h.alloc) the_row h.at h.value };
}

impl Handle {
    fn of_loose(loose: Loose<FrameJobs, Global>) -> Handle
        ensures { result.value ≡ Some loose.value }
    {
        let Loose { at, alloc } = loose;
        Handle {
            at: at as *mut u8,
            alloc,
        }
    }

    fn into_loose(self) -> Loose<FrameJobs, Global>
        requires { self.value ≢ None }
        ensures { Some result.value ≡ self.value }
    {
        let Handle { at, alloc } = self;
        Loose {
            at: at as *mut FrameJobs,
            alloc,
        }
    }

    /// A handle that holds this board, in constant time. Takes no memory.
    pub fn of(value: Box<FrameJobs>) -> Handle
        ensures { result.value ≡ Some value.value }
    {
        Handle::of_loose(Loose::of(value))
    }

    /// The board that it holds, in constant time.
    pub fn into_box(self) -> Box<FrameJobs>
        requires { self.value ≢ None }
        ensures { Some result.value ≡ self.value }
    {
        self.into_loose().into_box()
    }

    /// A handle that holds nothing. Its pointer is null.
    pub fn closed(alloc: Global) -> Handle
        ensures { result.value ≡ None }
    {
        Handle {
            at: std::ptr::null_mut(),
            alloc,
        }
    }
}

// A board goes with its handle: it shares nothing.
unsafe impl Send for Handle {}
