ghost use Rattle.std.specs.Prelude.{◌≡◌, ◌++◌, OnOk};
ghost use Rattle.fault_reasons.specs.Reasons.{column_text, pointer_text, reason_text};

use crate::reason::Reason;
use byte_streams::push_number;
use std::alloc::AllocError;

fn push_column(text: &mut Vec<u8>, column: Option<usize>) -> Result<(), AllocError>
    ensures { OnOk result (text.new.items ≡ text.old.items ++ column_text column) }
{
    match column {
        None => Ok(()),
        Some(column) => push_number(text, b":", column),
    }
}

fn push_pointer(text: &mut Vec<u8>, pointer: &[u8]) -> Result<(), AllocError>
    ensures { OnOk result (text.new.items ≡ text.old.items ++ pointer_text pointer.now) }
{
    if pointer.is_empty() {
        return Ok(());
    }
    text.extend_from_slice(b" ")?;
    text.extend_from_slice(pointer)
}

/// Appends where the fault lies, LINE or LINE:COLUMN, behind it a space and the pointer where there is one, and below it the words, with
/// no line feed at the end.
pub fn push_reason(text: &mut Vec<u8>, reason: &Reason) -> Result<(), AllocError>
    ensures { OnOk result (text.new.items ≡ text.old.items ++ reason_text reason.now) }
{
    push_number(text, b"", reason.line)?;
    push_column(text, reason.column)?;
    push_pointer(text, reason.pointer.as_bytes())?;
    text.extend_from_slice(b"\n")?;
    text.extend_from_slice(reason.words.as_bytes())
}
