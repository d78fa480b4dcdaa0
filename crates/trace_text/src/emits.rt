// The frames shown, in the printer's lane.
ghost use Rattle.std.specs.Prelude.{◌≡◌, ◌++◌, OnOk};
ghost use Rattle.trace_text.specs.Trace.{told_text, emit_text, shown_text, emits_from, emits_text};

use crate::board::Board;
use crate::parts::{push_two, push_where};
use crate::span::FrameSpan;
use job_core::names::Event;
use std::alloc::AllocError;

const EMIT: &str = ",\"cat\":\"emit\",\"name\":\"emit ";

const EMIT_ARGUMENTS: &str = "\",\"args\":{\"frame\":";

const EMIT_END: &str = "}}";

fn push_told(text: &mut Vec<u8>, frame: u32) -> Result<(), AllocError>
    ensures { OnOk result (text.new.items ≡ text.old.items ++ told_text frame) }
{
    let number = u64::from(frame);
    push_two(text, EMIT, number, EMIT_ARGUMENTS, number, EMIT_END)
}

fn push_emit(text: &mut Vec<u8>, thread: u64, at: usize, frame: u32) -> Result<(), AllocError>
    ensures { OnOk result (text.new.items ≡ text.old.items ++ emit_text thread at frame) }
{
    push_where(text, thread, at, 1)?;
    push_told(text, frame)
}

fn push_shown(
    text: &mut Vec<u8>,
    thread: u64,
    span: FrameSpan,
    at: usize,
    event: Event,
) -> Result<(), AllocError>
    ensures { OnOk result (text.new.items ≡ text.old.items ++ shown_text thread span at event) }
{
    match event {
        Event::Emit { frame } => {
            if span.has(frame) {
                return push_emit(text, thread, at, frame);
            }
            Ok(())
        }
        _ => Ok(()),
    }
}

// Those of events from the first place on.
fn push_from_first(
    text: &mut Vec<u8>,
    thread: u64,
    span: FrameSpan,
    events: &[Event],
) -> Result<(), AllocError>
    ensures { OnOk result (text.new.items ≡ text.old.items ++ emits_from thread span 0 events.now) }
{
    'events: for (at, event) in events.iter().enumerate() {
        push_shown(text, thread, span, at, *event)?;
    }
    Ok(())
}

/// Appends an entry for each of these frames that is shown.
pub fn push_emits(
    text: &mut Vec<u8>,
    board: Board,
    span: FrameSpan,
    events: &[Event],
) -> Result<(), AllocError>
    ensures { OnOk result (text.new.items ≡ text.old.items ++ emits_text board span events.now) }
{
    push_from_first(text, board.printer(), span, events)
}
