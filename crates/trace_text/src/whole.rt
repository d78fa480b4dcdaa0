ghost use Rattle.std.specs.Prelude.{◌≡◌, ◌++◌, OnOk, IfOk};
ghost use Rattle.trace_text.specs.Slices.{slices_of};
ghost use Rattle.trace_text.specs.Trace.{head_text, lanes_text, slices_text, emits_text, trace_of};

use crate::board::Board;
use crate::emits::push_emits;
use crate::lanes::push_lanes;
use crate::parts::push_text;
use crate::slice::Slice;
use crate::slices::push_slices;
use crate::span::FrameSpan;
use crate::worker_slices::slices_of;
use job_core::names::Event;
use std::alloc::{AllocError, Global};

const HEAD: &str =
    "{\"traceEvents\":[\n{\"ph\":\"M\",\"pid\":1,\"name\":\"process_name\",\"args\":{\"name\":\"";

const HEAD_END: &str = ", a microsecond for each event\"}}";

const TAIL: &str = "\n]}\n";

fn push_titled(text: &mut Vec<u8>, head: &str, title: &str, end: &str) -> Result<(), AllocError>
    ensures { OnOk result (text.new.items ≡ text.old.items ++ (head.now ++ title.now ++ end.now)) }
{
    push_text(text, head.as_bytes(), title.as_bytes())?;
    text.extend_from_slice(end.as_bytes())
}

#[tactic(auto, unfolding(crate::specs::Trace::head_text))]
fn push_head(text: &mut Vec<u8>, board: Board) -> Result<(), AllocError>
    ensures { OnOk result (text.new.items ≡ text.old.items ++ head_text board) }
{
    push_titled(text, HEAD, board.title(), HEAD_END)
}

fn push_between(
    text: &mut Vec<u8>,
    board: Board,
    span: FrameSpan,
    slices: &[Slice],
    events: &[Event],
    tail: &str,
) -> Result<(), AllocError>
    ensures { OnOk result (text.new.items ≡ text.old.items ++ (head_text board ++ lanes_text board
        ++ slices_text board span slices.now ++ emits_text board span events.now ++ tail.now)) }
{
    push_head(text, board)?;
    push_lanes(text, board)?;
    push_slices(text, board, span, slices)?;
    push_emits(text, board, span, events)?;
    text.extend_from_slice(tail.as_bytes())
}

/// A list of events as JSON of Chrome's trace format, whose times are the places of events: a lane for each worker, with a
/// slice for each stretch in which it runs a job, and one for the printer. Jobs and frames shown are those of the span;
/// the lanes are all named. The list need not be legal.
///
/// The format: <https://docs.google.com/document/d/1CvAClvFfyA5R-PhYUmn5OOQtYMH4h6I0nSsKchNAySU>. The text has some 150
/// bytes a slice.
pub fn trace(
    alloc: Global,
    board: Board,
    events: &[Event],
    span: FrameSpan,
) -> Result<Vec<u8>, AllocError>
    ensures { IfOk result (λ text. text.items ≡ trace_of board events.now span) }
{
    let slices = slices_of(alloc, events)?;
    let mut text = Vec::new(alloc);
    push_between(&mut text, board, span, &slices, events, TAIL)?;
    Ok(text)
}
