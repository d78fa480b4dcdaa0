// A worker takes up a job.
ghost use Rattle.std.specs.Prelude.{◌≡◌, ◌≢◌};
ghost use Rattle.job_core.specs.declared.names.Event.TheVariants.{Start, Resume};
ghost use Rattle.frame_jobs.specs.Boards.{Happens, IsBarred, IsTakeRefused};
ghost use Rattle.frame_jobs_c.specs.Calls.{job_named, IsDoneIn, IsReadIn, Takes, TakesFirst, GoesOn, HasNothing};
ghost use Rattle.frame_jobs_c.specs.Statuses.{done, nothing, IsRefusedBy, IsRefusedIn};

use crate::held::{Board, Job, put, take};
use crate::names::{job_of, name_of};
use crate::status::{CLOSED, NOTHING, OK, status_of};
use frame_jobs::FrameJobs;
use std::alloc::Global;

fn take_held(held: &mut FrameJobs, worker: u32, job: &mut Job) -> u32
    ensures ok { result ≡ done → TakesFirst worker job.new held.old held.new }
    ensures nothing { result ≡ nothing → HasNothing worker held.old }
    ensures refused { result ≢ done → result ≢ nothing → IsRefusedBy (IsTakeRefused held.old worker) result }
    ensures unchanged { result ≢ done → held.new ≡ held.old }
    ensures untouched { result ≢ done → job.new ≡ job.old }
{
    match held.take(worker) {
        Ok(Some(taken)) => {
            *job = job_of(taken.job, taken.step);
            OK
        }
        Ok(None) => NOTHING,
        Err(fault) => status_of(fault),
    }
}

/// A job for an idle worker: of the highest priority that has one, the job that is ready first, or else the first new one that may
/// start. 9 comes where the worker can neither start nor resume a job. Where the status is not 0 nothing has changed.
#[unsafe(no_mangle)]
pub extern "C" fn btjobs_take(alloc: Global, board: &mut Board, worker: u32, job: &mut Job) -> u32
    ensures ok { result ≡ done → IsDoneIn (TakesFirst worker job.new) board.old.handle.value board.new.handle.value }
    ensures nothing { result ≡ nothing → IsReadIn (HasNothing worker) board.old.handle.value }
    ensures refused { result ≢ done → result ≢ nothing → IsRefusedIn (λ b. IsTakeRefused b worker) result board.old.handle.value }
    ensures unchanged { result ≢ done → board.new.handle.value ≡ board.old.handle.value }
    ensures untouched { result ≢ done → job.new ≡ job.old }
{
    let Some(held) = take(alloc, board) else {
        return CLOSED;
    };
    let mut held = held;
    let status = take_held(&mut held, worker, job);
    put(board, held);
    status
}

fn take_any_held(held: &mut FrameJobs, worker: u32, number: u64, job: &mut Job) -> u32
    ensures ok { result ≡ done → Takes worker job.new held.old held.new }
    ensures nothing { result ≡ nothing → HasNothing worker held.old }
    ensures refused { result ≢ done → result ≢ nothing → IsRefusedBy (IsTakeRefused held.old worker) result }
    ensures unchanged { result ≢ done → held.new ≡ held.old }
    ensures untouched { result ≢ done → job.new ≡ job.old }
{
    match held.take_any(worker, number) {
        Ok(Some(taken)) => {
            *job = job_of(taken.job, taken.step);
            OK
        }
        Ok(None) => NOTHING,
        Err(fault) => status_of(fault),
    }
}

/// Any job that an idle worker may take up, as the number says; it refuses as `btjobs_take`.
#[unsafe(no_mangle)]
pub extern "C" fn btjobs_take_any(
    alloc: Global,
    board: &mut Board,
    worker: u32,
    number: u64,
    job: &mut Job,
) -> u32
    ensures ok { result ≡ done → IsDoneIn (Takes worker job.new) board.old.handle.value board.new.handle.value }
    ensures nothing { result ≡ nothing → IsReadIn (HasNothing worker) board.old.handle.value }
    ensures refused { result ≢ done → result ≢ nothing → IsRefusedIn (λ b. IsTakeRefused b worker) result board.old.handle.value }
    ensures unchanged { result ≢ done → board.new.handle.value ≡ board.old.handle.value }
    ensures untouched { result ≢ done → job.new ≡ job.old }
{
    let Some(held) = take(alloc, board) else {
        return CLOSED;
    };
    let mut held = held;
    let status = take_any_held(&mut held, worker, number, job);
    put(board, held);
    status
}

fn start_held(held: &mut FrameJobs, worker: u32, job: &Job) -> u32
    ensures ok { result ≡ done → Happens held.old held.new (Start worker (job_named job.now)) }
    ensures refused { result ≢ done → IsRefusedBy (IsBarred held.old (Start worker (job_named job.now))) result }
    ensures unchanged { result ≢ done → held.new ≡ held.old }
{
    match held.start(worker, name_of(job)) {
        Ok(()) => OK,
        Err(fault) => status_of(fault),
    }
}

/// A worker starts this very job. 8 comes where that is legal for no numbers of questions. Where the status is not 0 nothing has
/// changed.
#[unsafe(no_mangle)]
pub extern "C" fn btjobs_start(alloc: Global, board: &mut Board, worker: u32, job: &Job) -> u32
    ensures ok { result ≡ done → IsDoneIn (λ old new. Happens old new (Start worker (job_named job.now))) board.old.handle.value board.new.handle.value }
    ensures refused { result ≢ done → IsRefusedIn (λ b. IsBarred b (Start worker (job_named job.now))) result board.old.handle.value }
    ensures unchanged { result ≢ done → board.new.handle.value ≡ board.old.handle.value }
{
    let Some(held) = take(alloc, board) else {
        return CLOSED;
    };
    let mut held = held;
    let status = start_held(&mut held, worker, job);
    put(board, held);
    status
}

fn resume_held(held: &mut FrameJobs, worker: u32, job: &Job, step: &mut u32) -> u32
    ensures ok { result ≡ done → GoesOn worker (job_named job.now) step.new held.old held.new }
    ensures refused { result ≢ done → IsRefusedBy (IsBarred held.old (Resume worker (job_named job.now))) result }
    ensures unchanged { result ≢ done → held.new ≡ held.old }
    ensures untouched { result ≢ done → step.new ≡ step.old }
{
    match held.resume(worker, name_of(job)) {
        Ok(now) => {
            *step = now;
            OK
        }
        Err(fault) => status_of(fault),
    }
}

/// A worker goes on with this very job, and learns how far it has come. It refuses as `btjobs_start`.
#[unsafe(no_mangle)]
pub extern "C" fn btjobs_resume(
    alloc: Global,
    board: &mut Board,
    worker: u32,
    job: &Job,
    step: &mut u32,
) -> u32
    ensures ok { result ≡ done → IsDoneIn (GoesOn worker (job_named job.now) step.new) board.old.handle.value board.new.handle.value }
    ensures refused { result ≢ done → IsRefusedIn (λ b. IsBarred b (Resume worker (job_named job.now))) result board.old.handle.value }
    ensures unchanged { result ≢ done → board.new.handle.value ≡ board.old.handle.value }
    ensures untouched { result ≢ done → step.new ≡ step.old }
{
    let Some(held) = take(alloc, board) else {
        return CLOSED;
    };
    let mut held = held;
    let status = resume_held(&mut held, worker, job, step);
    put(board, held);
    status
}
