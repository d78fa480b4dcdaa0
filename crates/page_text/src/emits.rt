// The events that show frames.
ghost use Rattle.std.specs.Prelude.{◌≡◌, ◌++◌, IfOk, OnOk};
ghost use Rattle.page_text.specs.Emits.{emit_text, emits_from, emits_text};

use crate::numbers::push_ended;
use job_core::names::Event;
use std::alloc::{AllocError, Global};

fn push_emit(text: &mut Vec<u8>, at: usize, event: Event) -> Result<(), AllocError>
    ensures { OnOk result (text.new.items ≡ text.old.items ++ emit_text at event) }
{
    match event {
        Event::Emit { .. } => push_ended(text, at as u64, b','),
        _ => Ok(()),
    }
}

/// The places of the events that show a frame, each with a comma behind it.
pub fn emits_text(alloc: Global, events: &[Event]) -> Result<Vec<u8>, AllocError>
    ensures { IfOk result (λ text. text.items ≡ emits_text events.now) }
{
    let mut text = Vec::new(alloc);
    'events: for (at, event) in events.iter().enumerate() {
        push_emit(&mut text, at, *event)?;
    }
    Ok(text)
}
