// Bytes that are no JSON value.
ghost use Rattle.std.specs.Prelude.{IfOk, IfSome, IsSome};

use crate::nesting::too_deep;
use crate::place::place_of;
use crate::reason::Reason;
use serde_json::{Error, Value};
use std::alloc::{AllocError, Global};

fn reason_at(
    alloc: Global,
    place: (usize, usize),
    words: &str,
) -> Result<Option<Reason>, AllocError>
    ensures { IfOk result (λ found. IfSome found (λ reason. IsSome reason.column)) }
{
    let (line, column) = place;
    Ok(Some(Reason {
        line,
        column: Some(column),
        pointer: String::new(alloc),
        words: String::from_str(alloc, words)?,
    }))
}

/// An error's text up to its place.
fn words_of(text: &str) -> &str {
    match text.split_once(" at line ") {
        Some((words, _)) => words,
        None => text,
    }
}

fn error_reason(alloc: Global, bytes: &[u8], error: &Error) -> Result<Option<Reason>, AllocError>
    ensures { IfOk result (λ found. IfSome found (λ reason. IsSome reason.column)) }
{
    let text = error.to_string(alloc)?;
    if error.is_eof() {
        return reason_at(alloc, place_of(bytes, bytes.len()), words_of(&text));
    }
    let place = (error.line(), error.column());
    // The reader stops at the first fault: a bracket too deep is it, unless another one stands before.
    if let Some(offset) = too_deep(bytes) {
        let deep = place_of(bytes, offset);
        if place >= deep {
            return reason_at(
                alloc,
                deep,
                "nested too deep, in more than 127 lists and objects",
            );
        }
    }
    reason_at(alloc, place, words_of(&text))
}

/// Why bytes are no JSON value that `serde_json` reads; none where they are one.
pub(crate) fn json_reason(alloc: Global, bytes: &[u8]) -> Result<Option<Reason>, AllocError>
    ensures { IfOk result (λ found. IfSome found (λ reason. IsSome reason.column)) }
{
    if bytes.starts_with(b"\xef\xbb\xbf") {
        return reason_at(alloc, (1, 1), "byte order mark");
    }
    let text = match std::str::from_utf8(bytes) {
        Ok(text) => text,
        Err(error) => {
            return reason_at(alloc, place_of(bytes, error.valid_up_to()), "not UTF-8");
        }
    };
    match Value::from_str(alloc, text) {
        Ok(_) => Ok(None),
        Err(error) => {
            if error.is_memory() {
                return Err(AllocError);
            }
            error_reason(alloc, bytes, &error)
        }
    }
}
