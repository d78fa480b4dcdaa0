// What came of a run: its numbers, and its frames.
ghost use Rattle.std.specs.Prelude.{◌≡◌, ◌≤◌, ◌++◌, drop, length, take, IfOk, OnOk};
ghost use Rattle.page_text.specs.Pages.{counts_text, run_text};

use crate::escaped::push_held;
use byte_streams::push_number;
use job_core::names::Event;
use job_scheduler::Settings;
use log_text::write_log;
use std::alloc::{AllocError, Global};

pub const LOG: &str = "</script>\n<script type=\"text/plain\" id=\"log\">";

pub const ABOUT: &str = "</script>\n<script type=\"application/json\" id=\"about\">";

pub const FRAMES: &str = "</script>\n<script type=\"text/plain\" id=\"frames\">";

/// How many frames are shown, and how many of the events are done, as JSON.
fn counts_text(alloc: Global, shown: u32, done: usize, events: usize) -> Result<Vec<u8>, AllocError>
    ensures { IfOk result (λ text. text.items ≡ counts_text shown done events) }
{
    let mut text = Vec::new(alloc);
    push_number(&mut text, b"{\"shown\":", u64::from(shown))?;
    push_number(&mut text, b",\"done\":", done as u64)?;
    push_number(&mut text, b",\"events\":", events as u64)?;
    text.extend_from_slice(b"}")?;
    Ok(text)
}

/// The first of some events, if there is one.
fn first_of(events: &[Event]) -> &[Event]
    ensures { result.now ≡ take 1 events.now }
{
    if events.is_empty() {
        return events;
    }
    &events[..1]
}

/// The first event behind so many, if there is one.
fn first_behind(events: &[Event], done: usize) -> &[Event]
    requires { done ≤ length events.now }
    ensures { result.now ≡ take 1 (drop done events.now) }
{
    let left = &events[done..];
    first_of(left)
}

/// Appends the head line of the log and the line of the first event that isn't done, where there is one; how many frames
/// are shown, and how many events are done; and the frames, kept as changes. Where memory is refused a first part of it is
/// appended.
pub fn push_run(
    alloc: Global,
    page: &mut Vec<u8>,
    settings: Settings,
    events: &[Event],
    done: usize,
    shown: u32,
    film: &[u8],
) -> Result<(), AllocError>
    requires { done ≤ length events.now }
    ensures { OnOk result (page.new.items ≡ page.old.items ++ run_text settings events.now done shown film.now) }
{
    let log = write_log(alloc, settings, first_behind(events, done))?;
    push_held(page, LOG, &log)?;
    let counts = counts_text(alloc, shown, done, events.len())?;
    push_held(page, ABOUT, &counts)?;
    push_held(page, FRAMES, film)
}
