// What the workers did, and the page's own script, which ends it.
ghost use Rattle.std.specs.Prelude.{◌≡◌, ◌≤◌, ◌++◌, length, OnOk};
ghost use Rattle.page_text.specs.Pages.{jobs_text, ending_text};

use crate::emits::emits_text;
use crate::escaped::push_held;
use crate::script_agents::AGENTS;
use crate::script_data::DATA;
use crate::script_hands::HANDS;
use crate::script_jobs::JOBS;
use crate::script_map::MAP;
use crate::slices::slices_text;
use job_core::names::Event;
use std::alloc::{AllocError, Global};
use trace_text::FrameSpan;

pub const EMITS: &str = "</script>\n<script type=\"text/plain\" id=\"emits\">";

pub const SLICES: &str = "</script>\n<script type=\"text/plain\" id=\"slices\">";

fn push_three(page: &mut Vec<u8>, first: &str, second: &str, third: &str) -> Result<(), AllocError>
    ensures { OnOk result (page.new.items ≡ page.old.items ++ (first.now ++ second.now ++ third.now)) }
{
    page.extend_from_slice(first.as_bytes())?;
    page.extend_from_slice(second.as_bytes())?;
    page.extend_from_slice(third.as_bytes())
}

fn push_two(page: &mut Vec<u8>, first: &str, second: &str) -> Result<(), AllocError>
    ensures { OnOk result (page.new.items ≡ page.old.items ++ (first.now ++ second.now)) }
{
    page.extend_from_slice(first.as_bytes())?;
    page.extend_from_slice(second.as_bytes())
}

fn push_ending(page: &mut Vec<u8>) -> Result<(), AllocError>
    ensures { OnOk result (page.new.items ≡ page.old.items ++ ending_text) }
{
    push_three(page, DATA, MAP, AGENTS)?;
    push_two(page, JOBS, HANDS)
}

/// Appends the places of the events that show a frame, as far as events are done; the slices of all events, of jobs of the
/// frames of the span; and the end of the page. Where memory is refused a first part of it is appended.
pub fn push_jobs(
    alloc: Global,
    page: &mut Vec<u8>,
    events: &[Event],
    done: usize,
    span: FrameSpan,
) -> Result<(), AllocError>
    requires { done ≤ length events.now }
    ensures { OnOk result (page.new.items ≡ page.old.items ++ jobs_text events.now done span) }
{
    let emits = emits_text(alloc, &events[..done])?;
    push_held(page, EMITS, &emits)?;
    let slices = slices_text(alloc, span, events)?;
    push_held(page, SLICES, &slices)?;
    push_ending(page)
}
