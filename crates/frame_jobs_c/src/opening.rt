// A board is opened and closed.
ghost use Rattle.std.specs.Prelude.{◌≡◌, ◌≢◌, ◌⊎◌, None, IfOk, []};
ghost use Rattle.job_scheduler.specs.Limits.{wide_settings_fault};
ghost use Rattle.job_scheduler.specs.Numbers.{settings_of};
ghost use Rattle.frame_jobs_c.specs.Calls.{IsReadIn, Opens};
ghost use Rattle.frame_jobs_c.specs.Statuses.{done, no_memory, taken, limits};

use crate::held::{Board, Numbers, put, take};
use crate::status::{LIMITS, NO_MEMORY, OK, OPEN};
use frame_jobs::{FrameJobs, WideSettings};
use std::alloc::{AllocError, Global};

fn opened(
    alloc: Global,
    settings: WideSettings,
    numbers: &Numbers,
) -> Result<Box<FrameJobs>, AllocError>
    ensures { IfOk result (λ b. b.value ≡ record { jobs = record { numbers = settings; agents = numbers.now.agents; bands = numbers.now.bands; events = [] }; most_questions = numbers.now.most_questions }) }
{
    match FrameJobs::new(
        alloc,
        settings,
        numbers.agents,
        numbers.bands,
        numbers.most_questions,
    ) {
        Ok(board) => Ok(Box::new(alloc, board)?),
        Err(_) => Err(AllocError),
    }
}

/// Opens a board on which nothing has happened in a closed handle. A handle that holds a board answers 3, numbers out of their
/// limits 10. Where the status is not 0 the handle is as it was.
#[unsafe(no_mangle)]
pub extern "C" fn btjobs_open(alloc: Global, board: &mut Board, numbers: &Numbers) -> u32
    ensures ok { result ≡ done → IsReadIn (Opens numbers.now) board.new.handle.value }
    ensures refused { result ≢ done → board.new.handle.value ≡ board.old.handle.value }
    ensures taken { result ≡ taken → board.old.handle.value ≢ None }
    ensures open { board.old.handle.value ≢ None → result ≡ taken }
    ensures limits { result ≡ limits → wide_settings_fault (settings_of numbers.now.frames numbers.now.workers numbers.now.small numbers.now.large numbers.now.slots) ≢ None }
    ensures within { result ≡ done → wide_settings_fault (settings_of numbers.now.frames numbers.now.workers numbers.now.small numbers.now.large numbers.now.slots) ≡ None }
    ensures status { (result ≡ done) ⊎ ((result ≡ no_memory) ⊎ ((result ≡ taken) ⊎ (result ≡ limits))) }
{
    if board.is_open {
        return OPEN;
    }
    match WideSettings::new(
        numbers.frames,
        numbers.workers,
        numbers.small,
        numbers.large,
        numbers.slots,
    ) {
        Ok(settings) => match opened(alloc, settings, numbers) {
            Ok(held) => {
                put(board, held);
                OK
            }
            Err(_) => NO_MEMORY,
        },
        Err(_) => LIMITS,
    }
}

/// Closes a board and gives its memory back. A closed one stays so.
#[unsafe(no_mangle)]
pub extern "C" fn btjobs_close(alloc: Global, board: &mut Board)
    ensures { board.new.handle.value ≡ None }
{
    let _held = take(alloc, board);
}

/// The version of the library: ten thousand for each major version, a hundred for each minor one, one for each patch.
#[unsafe(no_mangle)]
pub extern "C" fn btjobs_version() -> u32
    ensures { result ≡ 100 }
{
    100
}
