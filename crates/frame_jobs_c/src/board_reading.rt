// What a board tells, which stays as it is.
ghost use Rattle.std.specs.Prelude.{◌≡◌, ◌≢◌, ◌≤◌, ◌++◌, None, length, map, drop};
ghost use Rattle.frame_jobs_c.specs.Calls.{event_state, IsReadIn, IsDoneNow, IsGivenNow, HasCount, HasAt, HasNoneAt, HasFrom};
ghost use Rattle.frame_jobs_c.specs.Statuses.{done, closed, nothing, IsClosedOr};

use crate::held::{Board, EventState, put, take};
use crate::names::state_of;
use crate::status::{CLOSED, NOTHING, OK};
use frame_jobs::{Event, FrameJobs};
use std::alloc::Global;

/// Whether an idle worker would be given a job: whether to wake another thread. A closed handle answers 2.
#[unsafe(no_mangle)]
pub extern "C" fn btjobs_may_take(alloc: Global, board: &mut Board, may: &mut bool) -> u32
    ensures ok { result ≡ done → IsReadIn (IsGivenNow may.new) board.old.handle.value }
    ensures status { IsClosedOr result board.old.handle.value }
    ensures kept { board.new.handle.value ≡ board.old.handle.value }
    ensures untouched { result ≢ done → may.new ≡ may.old }
{
    let Some(held) = take(alloc, board) else {
        return CLOSED;
    };
    *may = held.may_take();
    put(board, held);
    OK
}

/// Whether all frames are shown, and nothing was stopped. A closed handle answers 2.
#[unsafe(no_mangle)]
pub extern "C" fn btjobs_is_done(alloc: Global, board: &mut Board, done: &mut bool) -> u32
    ensures ok { result ≡ 0 → IsReadIn (IsDoneNow done.new) board.old.handle.value }
    ensures status { IsClosedOr result board.old.handle.value }
    ensures kept { board.new.handle.value ≡ board.old.handle.value }
    ensures untouched { result ≢ 0 → done.new ≡ done.old }
{
    let Some(held) = take(alloc, board) else {
        return CLOSED;
    };
    *done = held.is_done();
    put(board, held);
    OK
}

/// How many events have happened. A closed handle answers 2.
#[unsafe(no_mangle)]
pub extern "C" fn btjobs_count(alloc: Global, board: &mut Board, count: &mut usize) -> u32
    ensures ok { result ≡ done → IsReadIn (HasCount count.new) board.old.handle.value }
    ensures status { IsClosedOr result board.old.handle.value }
    ensures kept { board.new.handle.value ≡ board.old.handle.value }
    ensures untouched { result ≢ done → count.new ≡ count.old }
{
    let Some(held) = take(alloc, board) else {
        return CLOSED;
    };
    *count = held.events().len();
    put(board, held);
    OK
}

fn event_held(held: &FrameJobs, at: usize, event: &mut EventState) -> u32
    ensures ok { result ≡ done → HasAt at event.new held.now }
    ensures nothing { result ≢ done → (result ≡ nothing) × HasNoneAt at held.now }
    ensures untouched { result ≢ done → event.new ≡ event.old }
{
    match held.events().get(at) {
        Some(there) => {
            *event = state_of(*there);
            OK
        }
        None => NOTHING,
    }
}

/// The event at a place of the log, from 0. A closed handle answers 2; 9 comes where no event stands there.
#[unsafe(no_mangle)]
pub extern "C" fn btjobs_event_at(
    alloc: Global,
    board: &mut Board,
    at: usize,
    event: &mut EventState,
) -> u32
    ensures ok { result ≡ done → IsReadIn (HasAt at event.new) board.old.handle.value }
    ensures nothing { result ≡ nothing → IsReadIn (HasNoneAt at) board.old.handle.value }
    ensures closed { result ≢ done → result ≢ nothing → (result ≡ closed) × (board.old.handle.value ≡ None) }
    ensures kept { board.new.handle.value ≡ board.old.handle.value }
    ensures untouched { result ≢ done → event.new ≡ event.old }
{
    let Some(held) = take(alloc, board) else {
        return CLOSED;
    };
    let status = event_held(&held, at, event);
    put(board, held);
    status
}

// Events are copied to the start of a buffer that has room for them.
pub(crate) fn copy(from: &[Event], events: &mut [EventState])
    requires { length from.now ≤ length events.old }
    ensures { events.new ≡ map event_state from.now ++ drop (length from.now) events.old }
{
    for (place, event) in from.iter().enumerate() {
        events[place] = state_of(*event);
    }
}

// As many events from a place on as there is room for, and how many they are.
fn events_held(held: &FrameJobs, from: usize, events: &mut [EventState]) -> usize
    ensures { HasFrom from result events.old events.new held.now }
{
    let all = held.events();
    let first = from.min(all.len());
    let count = events.len().min(all.len() - first);
    copy(&all[first..first + count], events);
    count
}

/// The events from a place of the log on, as many as the buffer has room for, at its start, and how many they are. A closed handle
/// answers 2.
#[unsafe(no_mangle)]
pub extern "C" fn btjobs_events(
    alloc: Global,
    board: &mut Board,
    from: usize,
    events: &mut [EventState],
    count: &mut usize,
) -> u32
    ensures ok { result ≡ done → IsReadIn (HasFrom from count.new events.old events.new) board.old.handle.value }
    ensures status { IsClosedOr result board.old.handle.value }
    ensures kept { board.new.handle.value ≡ board.old.handle.value }
    ensures untouched { result ≢ done → (events.new ≡ events.old) × (count.new ≡ count.old) }
{
    let Some(held) = take(alloc, board) else {
        return CLOSED;
    };
    *count = events_held(&held, from, events);
    put(board, held);
    OK
}
