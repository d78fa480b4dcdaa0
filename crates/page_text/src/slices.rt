// The stretches in which workers run jobs, a line for each.
ghost use Rattle.std.specs.Prelude.{◌≡◌, ◌-◌, ◌++◌, IfOk, OnOk};
ghost use Rattle.page_text.specs.Slices.{kind_of, number_of, question_of, how_of, job_text, stretch_text, slice_text, text_within, begin_within, slices_text};

use crate::numbers::push_ended;
use job_core::names::{Event, JobName};
use std::alloc::{AllocError, Global};
use trace_text::{FrameSpan, Slice, begun_at};

fn kind_of(job: JobName) -> u64
    ensures { result ≡ kind_of job }
{
    match job {
        JobName::Logic { .. } => 0,
        JobName::Think { .. } => 1,
        JobName::Path { .. } => 2,
        JobName::Draw { .. } => 3,
    }
}

/// The agent or the band that a job is of.
fn number_of(job: JobName) -> u32
    ensures { result ≡ number_of job }
{
    match job {
        JobName::Logic { .. } => 0,
        JobName::Think { agent, .. } | JobName::Path { agent, .. } => agent,
        JobName::Draw { band, .. } => band,
    }
}

fn question_of(job: JobName) -> u32
    ensures { result ≡ question_of job }
{
    match job {
        JobName::Path { question, .. } => question,
        _ => 0,
    }
}

/// How a slice ends, and whether its job waited before.
fn how_of(goes_on: bool, next: Option<Event>) -> u64
    ensures { result ≡ how_of goes_on next }
{
    let left = match next {
        Some(Event::Spread { .. }) => 0,
        Some(Event::Hold { .. }) => 2,
        Some(Event::Ask { .. }) => 4,
        Some(Event::Finish { .. }) => 6,
        Some(_) => 10,
        None => 8,
    };
    if goes_on { left + 1 } else { left }
}

fn push_stretch(text: &mut Vec<u8>, last: usize, slice: &Slice) -> Result<(), AllocError>
    ensures { OnOk result (text.new.items ≡ text.old.items ++ stretch_text last slice.now) }
{
    push_ended(text, u64::from(slice.worker), b',')?;
    push_ended(text, slice.begin.saturating_sub(last) as u64, b',')?;
    push_ended(text, slice.end.saturating_sub(slice.begin) as u64, b',')?;
    push_ended(text, how_of(slice.goes_on, slice.next), b',')
}

fn push_job(text: &mut Vec<u8>, job: JobName) -> Result<(), AllocError>
    ensures { OnOk result (text.new.items ≡ text.old.items ++ job_text job) }
{
    push_ended(text, kind_of(job), b',')?;
    push_ended(text, u64::from(job.frame()), b',')?;
    push_ended(text, u64::from(number_of(job)), b',')?;
    push_ended(text, u64::from(question_of(job)), b'\n')
}

fn push_slice(text: &mut Vec<u8>, last: usize, slice: &Slice) -> Result<(), AllocError>
    ensures { OnOk result (text.new.items ≡ text.old.items ++ slice_text last slice.now) }
{
    push_stretch(text, last, slice)?;
    push_job(text, slice.job)
}

/// Appends a slice of these frames, and gives the place where the last one that was appended begins.
fn push_within(
    text: &mut Vec<u8>,
    span: FrameSpan,
    last: usize,
    slice: &Slice,
) -> Result<usize, AllocError>
    ensures text { OnOk result (text.new.items ≡ text.old.items ++ text_within span last slice.now) }
    ensures last { IfOk result (λ begin. begin ≡ begin_within span last slice.now) }
{
    if span.has(slice.job.frame()) {
        push_slice(text, last, slice)?;
        return Ok(slice.begin);
    }
    Ok(last)
}

/// A line for each slice of a job of these frames. None of the slices is kept: each is read off the events as it comes.
pub fn slices_text(alloc: Global, span: FrameSpan, events: &[Event]) -> Result<Vec<u8>, AllocError>
    ensures { IfOk result (λ text. text.items ≡ slices_text span events.now) }
{
    let mut text = Vec::new(alloc);
    let mut last = 0;
    'events: for (at, event) in events.iter().enumerate() {
        if let Some(slice) = begun_at(at, *event, &events[at + 1..]) {
            last = push_within(&mut text, span, last, &slice)?;
        }
    }
    Ok(text)
}
