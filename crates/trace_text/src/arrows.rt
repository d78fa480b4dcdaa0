// What joins slices, as viewers of traces draw it.
ghost use Rattle.std.specs.Prelude.{◌≡◌, ◌++◌, decimal, codes, OnOk};
ghost use Rattle.trace_text.specs.Jobs.{joined_by, is_led_into, into_text, arrow_from, arrow_text};

use crate::board::Board;
use byte_streams::push_number;
use job_core::names::JobName;
use std::alloc::AllocError;

const JOINED: &str = ",\"bind_id\":\"";

const OUT: &str = "\",\"flow_out\":true";

const INTO: &str = ",\"flow_in\":true";

fn joined_by(board: Board, job: JobName) -> Option<u128>
    ensures { result ≡ joined_by board job }
{
    let joined = u128::from(board.joined());
    match job {
        JobName::Logic { frame } => Some(u128::from(frame) * joined),
        JobName::Think { frame, agent } | JobName::Path { frame, agent, .. } => {
            Some(u128::from(frame) * joined + u128::from(agent) + 1)
        }
        JobName::Draw { .. } => None,
    }
}

fn is_led_into(job: JobName, goes_on: bool) -> bool
    ensures { result ≡ is_led_into job goes_on }
{
    match job {
        JobName::Path { .. } => true,
        _ => goes_on,
    }
}

fn into_text(led: bool) -> &'static str
    ensures { result.now ≡ into_text led }
{
    if led { INTO } else { "" }
}

fn push_joined(
    text: &mut Vec<u8>,
    joined: &str,
    number: u128,
    out: &str,
    into: &str,
) -> Result<(), AllocError>
    ensures { OnOk result (text.new.items ≡ text.old.items
        ++ ((joined.now ++ decimal number) ++ out.now ++ into.now ++ codes "}")) }
{
    push_number(text, joined.as_bytes(), number)?;
    text.extend_from_slice(out.as_bytes())?;
    text.extend_from_slice(into.as_bytes())?;
    text.extend_from_slice(b"}")
}

fn push_arrow_from(text: &mut Vec<u8>, joined: Option<u128>, led: bool) -> Result<(), AllocError>
    ensures { OnOk result (text.new.items ≡ text.old.items ++ arrow_from joined led) }
{
    match joined {
        Some(number) => push_joined(text, JOINED, number, OUT, into_text(led)),
        None => text.extend_from_slice(b"}"),
    }
}

/// Appends the arrows from and to a slice, and the end of its entry.
pub fn push_arrow(
    text: &mut Vec<u8>,
    board: Board,
    job: JobName,
    goes_on: bool,
) -> Result<(), AllocError>
    ensures { OnOk result (text.new.items ≡ text.old.items ++ arrow_text board job goes_on) }
{
    push_arrow_from(text, joined_by(board, job), is_led_into(job, goes_on))
}
