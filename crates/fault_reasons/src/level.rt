ghost use Rattle.std.specs.Prelude.{IfOk, IsSome};
ghost use Rattle.fault_reasons.specs.Reasons.{IsOfLevel};

use crate::json_text::json_reason;
use crate::limits::limit_flaw;
use crate::map_flaws::{character_flaw, letters_flaw, marks_on, rows_of, size_flaw};
use crate::names::{agent_count_flaw, named_flaw, no_tree_flaw};
use crate::place::place_of;
use crate::pointer::Pointer;
use crate::reason::Reason;
use crate::search::Flaw;
use crate::shape::shape_flaw;
use crate::tokens::offset_of;
use level_text::LevelFault;
use serde_json::Value;
use std::alloc::{AllocError, Global};

/// What is wrong of the value with which a level has a fault. The pointer is led to that value.
fn flaw_in(
    alloc: Global,
    level: &Value,
    fault: &LevelFault,
    at: &mut Pointer,
) -> Result<Option<String>, AllocError> {
    match fault {
        LevelFault::OutOfMemory | LevelFault::Json => Ok(None),
        LevelFault::Shape => shape_flaw(alloc, level, at),
        LevelFault::MapSize => {
            at.member("map")?;
            size_flaw(alloc, rows_of(level), at)
        }
        LevelFault::MapChar { x, y } => character_flaw(alloc, level, *x, *y, at),
        LevelFault::Letters => {
            at.member("map")?;
            letters_flaw(alloc, rows_of(level), at)
        }
        LevelFault::AgentCount => agent_count_flaw(alloc, level, at),
        LevelFault::BadTree { name, fault } => limit_flaw(alloc, level, name, *fault, at),
        LevelFault::NoTree { agent } => no_tree_flaw(alloc, level, *agent, at),
        LevelFault::NoPlace { name } => {
            let places = marks_on(alloc, level, b'0', b'9')?;
            named_flaw(alloc, level, name, Flaw::Place(&places), at)
        }
        LevelFault::NoAgent { name } => {
            let agents = marks_on(alloc, level, b'A', b'Z')?;
            named_flaw(alloc, level, name, Flaw::Agent(&agents), at)
        }
    }
}

/// What is told where nothing wrong is found, as of no fault for which the level is refused.
fn nothing_found(alloc: Global) -> Result<Reason, AllocError>
    ensures { IfOk result (λ reason. IsSome reason.column) }
{
    Ok(Reason {
        line: 1,
        column: Some(1),
        pointer: String::new(alloc),
        words: String::from_str(alloc, "nothing wrong is found")?,
    })
}

/// Why a value is no level.
fn value_reason(alloc: Global, text: &str, fault: &LevelFault) -> Result<Reason, AllocError>
    ensures { IfOk result (λ reason. IsSome reason.column) }
{
    let Ok(level) = Value::from_str(alloc, text) else {
        return Err(AllocError);
    };
    let mut at = Pointer::new(alloc);
    let Some(words) = flaw_in(alloc, &level, fault, &mut at)? else {
        return nothing_found(alloc);
    };
    let (line, column) = place_of(text.as_bytes(), offset_of(alloc, text, &at)?);
    Ok(Reason {
        line,
        column: Some(column),
        pointer: at.text()?,
        words,
    })
}

/// Where in a level's bytes the fault lies for which `read_level` refuses them, and why it is one; refused where that is want of
/// memory. Reads the bytes twice, and keeps their value and as many bytes more.
pub fn level_reason(alloc: Global, bytes: &[u8], fault: &LevelFault) -> Result<Reason, AllocError>
    ensures { IfOk result (IsOfLevel fault.now) }
{
    match fault {
        LevelFault::OutOfMemory => Err(AllocError),
        LevelFault::Json => match json_reason(alloc, bytes)? {
            Some(reason) => Ok(reason),
            None => nothing_found(alloc),
        },
        _ => match std::str::from_utf8(bytes) {
            Ok(text) => value_reason(alloc, text, fault),
            Err(_) => nothing_found(alloc),
        },
    }
}
