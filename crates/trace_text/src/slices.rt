ghost use Rattle.std.specs.Prelude.{◌≡◌, ◌+◌, ◌-◌, ◌++◌, OnOk};
ghost use Rattle.trace_text.specs.Boards.{letter, agent_text};
ghost use Rattle.trace_text.specs.Jobs.{name_text, kind_text, numbers_text, left_text, begun_text, what_text, how_text};
ghost use Rattle.trace_text.specs.Trace.{slice_text, text_within, slices_text};

use crate::arrows::push_arrow;
use crate::board::Board;
use crate::parts::{push_text, push_where, thread_of};
use crate::slice::Slice;
use crate::span::FrameSpan;
use byte_streams::push_number;
use job_core::names::{Event, JobName};
use std::alloc::AllocError;

fn push_letter(text: &mut Vec<u8>, agent: u32) -> Result<(), AllocError>
    ensures { OnOk result (text.new.items ≡ text.old.items ++ letter agent) }
{
    text.extend_from_slice(&[b'A' + (agent % 26) as u8])
}

fn push_agent(text: &mut Vec<u8>, board: Board, agent: u32) -> Result<(), AllocError>
    ensures { OnOk result (text.new.items ≡ text.old.items ++ agent_text board agent) }
{
    match board {
        Board::Play { .. } => push_letter(text, agent),
        Board::Jobs { .. } => push_number(text, b".", agent),
    }
}

fn push_name(text: &mut Vec<u8>, board: Board, job: JobName) -> Result<(), AllocError>
    ensures { OnOk result (text.new.items ≡ text.old.items ++ name_text board job) }
{
    match job {
        JobName::Logic { frame } => push_number(text, b"Logic ", u64::from(frame)),
        JobName::Think { frame, agent } => {
            push_number(text, b"Think ", u64::from(frame))?;
            push_agent(text, board, agent)
        }
        JobName::Path {
            frame,
            agent,
            question,
        } => {
            push_number(text, b"Path ", u64::from(frame))?;
            push_agent(text, board, agent)?;
            push_number(text, b".", u64::from(question))
        }
        JobName::Draw { frame, band } => {
            push_number(text, b"Draw ", u64::from(frame))?;
            push_number(text, b".", u64::from(band))
        }
    }
}

fn kind_of(job: JobName) -> &'static [u8]
    ensures { result.now ≡ kind_text job }
{
    match job {
        JobName::Logic { .. } => b"logic",
        JobName::Think { .. } => b"think",
        JobName::Path { .. } => b"path",
        JobName::Draw { .. } => b"draw",
    }
}

fn push_numbers(text: &mut Vec<u8>, job: JobName) -> Result<(), AllocError>
    ensures { OnOk result (text.new.items ≡ text.old.items ++ numbers_text job) }
{
    match job {
        JobName::Logic { frame } => push_number(text, b"\"frame\":", u64::from(frame)),
        JobName::Think { frame, agent } => {
            push_number(text, b"\"frame\":", u64::from(frame))?;
            push_number(text, b",\"agent\":", u64::from(agent))
        }
        JobName::Path {
            frame,
            agent,
            question,
        } => {
            push_number(text, b"\"frame\":", u64::from(frame))?;
            push_number(text, b",\"agent\":", u64::from(agent))?;
            push_number(text, b",\"question\":", u64::from(question))
        }
        JobName::Draw { frame, band } => {
            push_number(text, b"\"frame\":", u64::from(frame))?;
            push_number(text, b",\"band\":", u64::from(band))
        }
    }
}

fn left_of(next: Option<Event>) -> &'static [u8]
    ensures { result.now ≡ left_text next }
{
    match next {
        Some(Event::Ask { .. }) => b"asks",
        Some(Event::Spread { .. }) => b"spreads",
        Some(Event::Hold { .. }) => b"holds",
        Some(Event::Finish { .. }) => b"finishes",
        Some(_) => b"is broken off",
        None => b"is not over",
    }
}

fn begun_of(goes_on: bool) -> &'static [u8]
    ensures { result.now ≡ begun_text goes_on }
{
    if goes_on { b"goes on" } else { b"starts" }
}

fn long(slice: &Slice) -> usize
    ensures { result ≡ slice.now.end - slice.now.begin }
{
    slice.end.saturating_sub(slice.begin)
}

#[tactic(auto, unfolding(crate::specs::Jobs::what_text))]
fn push_what(text: &mut Vec<u8>, board: Board, job: JobName) -> Result<(), AllocError>
    ensures { OnOk result (text.new.items ≡ text.old.items ++ what_text board job) }
{
    push_text(text, b",\"cat\":\"", kind_of(job))?;
    text.extend_from_slice(b"\",\"name\":\"")?;
    push_name(text, board, job)?;
    text.extend_from_slice(b"\",\"args\":{")?;
    push_numbers(text, job)
}

#[tactic(auto, unfolding(crate::specs::Jobs::how_text))]
fn push_how(text: &mut Vec<u8>, goes_on: bool, next: Option<Event>) -> Result<(), AllocError>
    ensures { OnOk result (text.new.items ≡ text.old.items ++ how_text goes_on next) }
{
    push_text(text, b",\"begun\":\"", begun_of(goes_on))?;
    push_text(text, b"\",\"left\":\"", left_of(next))?;
    text.extend_from_slice(b"\"}")
}

fn push_slice(text: &mut Vec<u8>, board: Board, slice: &Slice) -> Result<(), AllocError>
    ensures { OnOk result (text.new.items ≡ text.old.items ++ slice_text board slice.now) }
{
    push_where(text, thread_of(slice.worker), slice.begin, long(slice))?;
    push_what(text, board, slice.job)?;
    push_how(text, slice.goes_on, slice.next)?;
    push_arrow(text, board, slice.job, slice.goes_on)
}

fn push_within(
    text: &mut Vec<u8>,
    board: Board,
    span: FrameSpan,
    slice: &Slice,
) -> Result<(), AllocError>
    ensures { OnOk result (text.new.items ≡ text.old.items ++ text_within board span slice.now) }
{
    if span.has(slice.job.frame()) {
        return push_slice(text, board, slice);
    }
    Ok(())
}

/// Appends an entry for each slice of a job of these frames.
pub fn push_slices(
    text: &mut Vec<u8>,
    board: Board,
    span: FrameSpan,
    slices: &[Slice],
) -> Result<(), AllocError>
    ensures { OnOk result (text.new.items ≡ text.old.items ++ slices_text board span slices.now) }
{
    'slices: for slice in slices {
        push_within(text, board, span, slice)?;
    }
    Ok(())
}
