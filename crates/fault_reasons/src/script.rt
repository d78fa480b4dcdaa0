ghost use Rattle.std.specs.Prelude.{◌≡◌, IfOk, IsNone};
ghost use Rattle.fault_reasons.specs.Reasons.{IsOfScript};

use crate::reason::Reason;
use level_text::ScriptFault;
use std::alloc::{AllocError, Global};

/// The line of a number, from 1, without its line feed.
fn line_of(bytes: &[u8], n: u64) -> Option<&[u8]> {
    let i = usize::try_from(n.checked_sub(1)?).ok()?;
    bytes.split(|b| *b == b'\n').nth(i)
}

/// The frame that a line of a script begins with, as it is written.
fn frame_of(bytes: &[u8], n: u64) -> &str {
    let line = line_of(bytes, n).unwrap_or(b"");
    let word = line.split(|b| *b == b' ').next().unwrap_or(b"");
    std::str::from_utf8(word).unwrap_or("")
}

/// What is wrong of a line that is none of a script.
fn line_words(bytes: &[u8], n: u64) -> &'static str {
    if line_of(bytes, n).unwrap_or(b"").ends_with(b"\r") {
        "the line ends in a carriage return"
    } else {
        "wanted: FRAME on LETTER or FRAME off LETTER"
    }
}

fn reason_at(alloc: Global, n: u64, words: String) -> Reason
    ensures line { result.line ≡ n }
    ensures column { IsNone result.column }
{
    Reason {
        line: n as usize,
        column: None,
        pointer: String::new(alloc),
        words,
    }
}

/// In which line of a script's bytes the fault lies for which `read_script` refuses them, and why it is one; refused where that is
/// out of memory.
pub fn script_reason(alloc: Global, bytes: &[u8], fault: ScriptFault) -> Result<Reason, AllocError>
    ensures { IfOk result (IsOfScript fault) }
{
    match fault {
        ScriptFault::OutOfMemory => Err(AllocError),
        ScriptFault::Line { n } => {
            let words = String::from_str(alloc, line_words(bytes, n))?;
            Ok(reason_at(alloc, n, words))
        }
        ScriptFault::Order { n } => {
            let (before, frame) = (frame_of(bytes, n.saturating_sub(1)), frame_of(bytes, n));
            let words = format!(in alloc; "frame {frame} after frame {before}")?;
            Ok(reason_at(alloc, n, words))
        }
    }
}
