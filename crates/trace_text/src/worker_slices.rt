ghost use Rattle.std.specs.Prelude.{◌≡◌, ◌≤◌, ◌+◌, length, suc, IfOk};
ghost use Rattle.trace_text.specs.Slices.{is_by, until, next_of, begun_at, slices_of};

use crate::slice::Slice;
use job_core::names::{Event, JobName};
use std::alloc::{AllocError, Global};

fn is_by(worker: u32, event: Event) -> bool
    ensures { result ≡ is_by worker event }
{
    event.worker() == Some(worker)
}

/// How many events come before the first one of this worker, and that event: all, where there is none.
fn ahead(worker: u32, events: &[Event]) -> (usize, Option<Event>)
    ensures count { result.0 ≡ until worker events.now }
    ensures next { result.1 ≡ next_of worker events.now }
    ensures within { result.0 ≤ length events.now }
{
    'events: for (count, event) in events.iter().enumerate() {
        if is_by(worker, *event) {
            return (count, Some(*event));
        }
    }
    (events.len(), None)
}

/// The slice that begins at this place.
fn begun(worker: u32, job: JobName, goes_on: bool, begin: usize, behind: &[Event]) -> Slice
    requires { suc begin + length behind.now ≤ 9223372036854775807 }
    ensures { result ≡ record {
      worker = worker;
      job = job;
      goes_on = goes_on;
      begin = begin;
      end = suc begin + until worker behind.now;
      next = next_of worker behind.now;
    } }
{
    let (count, next) = ahead(worker, behind);
    Slice {
        worker,
        job,
        goes_on,
        begin,
        end: begin + 1 + count,
        next,
    }
}

/// The slice that an event at this place begins, if it begins one, by the events behind it. Looks ahead to the next event of
/// its worker.
pub fn begun_at(at: usize, event: Event, behind: &[Event]) -> Option<Slice>
    requires { suc at + length behind.now ≤ 9223372036854775807 }
    ensures { result ≡ begun_at at event behind.now }
{
    match event {
        Event::Start { worker, job } => Some(begun(worker, job, false, at, behind)),
        Event::Resume { worker, job } => Some(begun(worker, job, true, at, behind)),
        _ => None,
    }
}

/// The slices of a list of events, in the order in which they begin. Looks at each event once for each worker that runs a
/// job there, and once more.
pub fn slices_of(alloc: Global, events: &[Event]) -> Result<Vec<Slice>, AllocError>
    ensures { IfOk result (λ slices. slices.items ≡ slices_of events.now) }
{
    let mut slices = Vec::new(alloc);
    'events: for (index, event) in events.iter().enumerate() {
        if let Some(slice) = begun_at(index, *event, &events[index + 1..]) {
            slices.push(slice)?;
        }
    }
    Ok(slices)
}
