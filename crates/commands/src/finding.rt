// What is told of a fault of a level, a script or a log: the line that the program reports it by, its place and its reason.
ghost use Rattle.std.specs.Prelude.{◌≡◌, ◌⊎◌, ◌++◌, List, ℕ, Ok, IfOk, OnOk, codes};
ghost use Rattle.commands.specs.Explaining.{IsTold};

use byte_streams::push_number;
use command_line::Fault;
use fault_reasons::{EventReason, Reason, push_reason};
use std::alloc::{AllocError, Global};

/// A file, by the name that its places begin with.
#[derive(Clone, Copy)]
pub struct NamedBytes<'f> {
    pub name: &'f str,
    pub bytes: &'f [u8],
}

/// A fault, and what is told of it, which is empty when out of memory.
#[derive(Drop)]
pub(crate) struct Finding {
    pub(crate) fault: Fault,
    pub(crate) text: Vec<u8>,
}

fn push_place(text: &mut Vec<u8>, name: &str) -> Result<(), AllocError>
    ensures { OnOk result (text.new.items ≡ text.old.items ++ codes "\n" ++ name.now ++ codes ":") }
{
    text.extend_from_slice(b"\n")?;
    text.extend_from_slice(name.as_bytes())?;
    text.extend_from_slice(b":")
}

/// The line of a fault, and what its place begins with.
fn begun(alloc: Global, fault: &Fault, name: &str) -> Result<Vec<u8>, AllocError>
    ensures { IfOk result (λ text. (line : List ℕ) × (text.items ≡ line ++ codes "\n" ++ name.now ++ codes ":")) }
{
    let line = format!(in alloc; "{fault}")?;
    let mut text = Vec::from_slice(alloc, line.as_bytes())?;
    push_place(&mut text, name)?;
    Ok(text)
}

fn push_words(text: &mut Vec<u8>, words: &[u8]) -> Result<(), AllocError> {
    text.extend_from_slice(b"\n")?;
    text.extend_from_slice(words)?;
    text.extend_from_slice(b"\n")
}

fn only_fault(alloc: Global, fault: &Fault) -> Result<Vec<u8>, AllocError> {
    let line = format!(in alloc; "{fault}\n")?;
    Vec::from_slice(alloc, line.as_bytes())
}

/// What is told of a fault of the level or the script in the file of this name.
pub(crate) fn reason_text(
    alloc: Global,
    fault: &Fault,
    name: &str,
    reason: &Reason,
) -> Result<Vec<u8>, AllocError>
    ensures { IfOk result (λ text. IsTold name.now reason.now text.items) }
{
    let mut text = begun(alloc, fault, name)?;
    push_reason(&mut text, reason)?;
    text.extend_from_slice(b"\n")?;
    Ok(text)
}

/// What is told of a fault of the log in the file of this name.
pub(crate) fn event_text(
    alloc: Global,
    fault: &Fault,
    name: &str,
    reason: Result<Option<EventReason>, AllocError>,
) -> Result<Vec<u8>, AllocError> {
    let Some(reason) = reason? else {
        return only_fault(alloc, fault);
    };
    let mut text = begun(alloc, fault, name)?;
    push_number(&mut text, b"", reason.line)?;
    push_words(&mut text, &reason.words)?;
    Ok(text)
}

/// What is told of a fault of a journal's head: the first byte that isn't that of the line that is wanted.
pub(crate) fn head_text(
    alloc: Global,
    fault: &Fault,
    file: NamedBytes<'_>,
    wanted: &[u8],
) -> Result<Vec<u8>, AllocError> {
    let pairs = file.bytes.iter().zip(wanted);
    let fitting = pairs.take_while(|(byte, other)| byte == other).count();
    let mut text = begun(alloc, fault, file.name)?;
    push_number(&mut text, b"1:", fitting.saturating_add(1))?;
    text.extend_from_slice(b"\nwanted: ")?;
    text.extend_from_slice(wanted)?;
    Ok(text)
}

impl Finding {
    /// The finding of a fault of which this text is told, where memory was not refused for it.
    pub(crate) fn told(alloc: Global, fault: Fault, text: Result<Vec<u8>, AllocError>) -> Finding
        ensures fault { (result.fault ≡ fault) ⊎ (result.fault ≡ Fault.OutOfMemory) }
        ensures text { (text ≡ Ok result.text) ⊎ (result.fault ≡ Fault.OutOfMemory) }
    {
        match text {
            Ok(text) => Finding { fault, text },
            Err(_) => Finding {
                fault: Fault::OutOfMemory,
                text: Vec::new(alloc),
            },
        }
    }
}
