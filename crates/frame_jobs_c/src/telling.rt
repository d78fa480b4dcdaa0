// A worker tells what its job has come to, and a frame is shown.
ghost use Rattle.std.specs.Prelude.{◌≡◌, ◌≢◌};
ghost use Rattle.job_core.specs.declared.names.Event.TheVariants.{Ask, Finish, Emit};
ghost use Rattle.frame_jobs.specs.Boards.{MayHappen, MaySpreadOrHold, Happens, IsRefused, IsShowRefused, IsStoppedBy};
ghost use Rattle.frame_jobs_c.specs.Calls.{IsDoneIn, Asks, Spreads, Finishes};
ghost use Rattle.frame_jobs_c.specs.Statuses.{done, IsRefusedBy, IsRefusedIn, IsClosedOr};

use crate::held::{Board, Job, put, take};
use crate::names::job_of;
use crate::status::{CLOSED, OK, status_of};
use frame_jobs::FrameJobs;
use std::alloc::Global;

fn spread_held(held: &mut FrameJobs, worker: u32, spread: &mut bool) -> u32
    ensures ok { result ≡ done → Spreads worker spread.new held.old held.new }
    ensures refused { result ≢ done → IsRefusedBy (IsRefused held.old worker (MaySpreadOrHold held.old worker)) result }
    ensures unchanged { result ≢ done → held.new ≡ held.old }
    ensures untouched { result ≢ done → spread.new ≡ spread.old }
{
    match held.spread(worker) {
        Ok(begun) => {
            *spread = begun;
            OK
        }
        Err(fault) => status_of(fault),
    }
}

/// The frame of the worker's Logic begins, at the Logic's start: its thinks are queued and `spread` is true, or it waits for its
/// slot. Where the status is not 0 nothing has changed.
#[unsafe(no_mangle)]
pub extern "C" fn btjobs_spread(
    alloc: Global,
    board: &mut Board,
    worker: u32,
    spread: &mut bool,
) -> u32
    ensures ok { result ≡ done → IsDoneIn (Spreads worker spread.new) board.old.handle.value board.new.handle.value }
    ensures refused { result ≢ done → IsRefusedIn (λ b. IsRefused b worker (MaySpreadOrHold b worker)) result board.old.handle.value }
    ensures unchanged { result ≢ done → board.new.handle.value ≡ board.old.handle.value }
    ensures untouched { result ≢ done → spread.new ≡ spread.old }
{
    let Some(held) = take(alloc, board) else {
        return CLOSED;
    };
    let mut held = held;
    let status = spread_held(&mut held, worker, spread);
    put(board, held);
    status
}

fn ask_held(held: &mut FrameJobs, worker: u32, path: &mut Job) -> u32
    ensures ok { result ≡ done → Asks worker path.new held.old held.new }
    ensures refused { result ≢ done → IsRefusedBy (IsRefused held.old worker (λ job. MayHappen held.old (Ask worker job))) result }
    ensures unchanged { result ≢ done → held.new ≡ held.old }
    ensures untouched { result ≢ done → path.new ≡ path.old }
{
    match held.ask(worker) {
        Ok(name) => {
            *path = job_of(name, 0);
            OK
        }
        Err(fault) => status_of(fault),
    }
}

/// The worker's Think asks its next question, which the Path answers, and waits. 8 comes after the most questions too. Where the
/// status is not 0 nothing has changed.
#[unsafe(no_mangle)]
pub extern "C" fn btjobs_ask(alloc: Global, board: &mut Board, worker: u32, path: &mut Job) -> u32
    ensures ok { result ≡ done → IsDoneIn (Asks worker path.new) board.old.handle.value board.new.handle.value }
    ensures refused { result ≢ done → IsRefusedIn (λ b. IsRefused b worker (λ job. MayHappen b (Ask worker job))) result board.old.handle.value }
    ensures unchanged { result ≢ done → board.new.handle.value ≡ board.old.handle.value }
    ensures untouched { result ≢ done → path.new ≡ path.old }
{
    let Some(held) = take(alloc, board) else {
        return CLOSED;
    };
    let mut held = held;
    let status = ask_held(&mut held, worker, path);
    put(board, held);
    status
}

fn finish_held(held: &mut FrameJobs, worker: u32) -> u32
    ensures ok { result ≡ done → Finishes worker held.old held.new }
    ensures refused { result ≢ done → IsRefusedBy (IsRefused held.old worker (λ job. MayHappen held.old (Finish worker job))) result }
    ensures unchanged { result ≢ done → held.new ≡ held.old }
{
    match held.finish(worker) {
        Ok(_) => OK,
        Err(fault) => status_of(fault),
    }
}

/// The worker's job is over. 8 comes of a Logic that doesn't have its thoughts yet. Where the status is not 0 nothing has changed.
#[unsafe(no_mangle)]
pub extern "C" fn btjobs_finish(alloc: Global, board: &mut Board, worker: u32) -> u32
    ensures ok { result ≡ done → IsDoneIn (Finishes worker) board.old.handle.value board.new.handle.value }
    ensures refused { result ≢ done → IsRefusedIn (λ b. IsRefused b worker (λ job. MayHappen b (Finish worker job))) result board.old.handle.value }
    ensures unchanged { result ≢ done → board.new.handle.value ≡ board.old.handle.value }
{
    let Some(held) = take(alloc, board) else {
        return CLOSED;
    };
    let mut held = held;
    let status = finish_held(&mut held, worker);
    put(board, held);
    status
}

fn show_held(held: &mut FrameJobs, frame: &mut u32) -> u32
    ensures ok { result ≡ done → Happens held.old held.new (Emit frame.new) }
    ensures refused { result ≢ done → IsRefusedBy (IsShowRefused held.old) result }
    ensures unchanged { result ≢ done → held.new ≡ held.old }
    ensures untouched { result ≢ done → frame.new ≡ frame.old }
{
    match held.show() {
        Ok(shown) => {
            *frame = shown;
            OK
        }
        Err(fault) => status_of(fault),
    }
}

/// The next frame is shown, and its slot is free. 8 comes where none can be. Where the status is not 0 nothing has changed.
#[unsafe(no_mangle)]
pub extern "C" fn btjobs_show(alloc: Global, board: &mut Board, frame: &mut u32) -> u32
    ensures ok { result ≡ done → IsDoneIn (λ old new. Happens old new (Emit frame.new)) board.old.handle.value board.new.handle.value }
    ensures refused { result ≢ done → IsRefusedIn IsShowRefused result board.old.handle.value }
    ensures unchanged { result ≢ done → board.new.handle.value ≡ board.old.handle.value }
    ensures untouched { result ≢ done → frame.new ≡ frame.old }
{
    let Some(held) = take(alloc, board) else {
        return CLOSED;
    };
    let mut held = held;
    let status = show_held(&mut held, frame);
    put(board, held);
    status
}

/// Nothing happens any more. A closed handle answers 2.
#[unsafe(no_mangle)]
pub extern "C" fn btjobs_stop(alloc: Global, board: &mut Board) -> u32
    ensures ok { result ≡ done → IsDoneIn IsStoppedBy board.old.handle.value board.new.handle.value }
    ensures status { IsClosedOr result board.old.handle.value }
    ensures unchanged { result ≢ done → board.new.handle.value ≡ board.old.handle.value }
{
    let Some(held) = take(alloc, board) else {
        return CLOSED;
    };
    let mut held = held;
    held.stop();
    put(board, held);
    OK
}
