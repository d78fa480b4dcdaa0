// What is said of a run that comes out otherwise.
use crate::case::{Act, Case};
use crate::ran::Ran;
use crate::run::Run;
use std::io;

/// A text that may be cut within a character.
fn print_text<H: Print>(rt: &H, head: &str, bytes: &[u8]) -> io::Result<()> {
    match str::from_utf8(bytes) {
        Ok(text) => println!(rt; "  {head}: {text:?}"),
        Err(_) => println!(rt; "  {head}: {bytes:?}"),
    }
}

/// Whether a run differs from what its case says. Prints what it gave where that is not foreseen: a case that is right
/// must not differ, one that is wrong on purpose has to, and in the thing that it names.
pub fn judge<H: Print>(rt: &H, case: &Case, run: &Run<'_>, ran: &Ran) -> io::Result<bool> {
    let room = run.room.unwrap_or(usize::MAX);
    let found = ran.difference(case.status, &case.out, room, &case.err);
    let foreseen = case.foreseen();
    if found == foreseen {
        return Ok(found.is_some());
    }
    println!(rt;
        "{}: {} differs, {} should (cut {:?}, room {:?})",
        case.name,
        found.unwrap_or("nothing"),
        foreseen.unwrap_or("nothing"),
        run.cut,
        run.room
    )?;
    if let Act::Words(words) = run.act {
        println!(rt; "  words: {words:?}")?;
    }
    println!(rt; "  status: {}, flushes: {}", ran.status, ran.flushes)?;
    print_text(rt, "standard output", &ran.out)?;
    print_text(rt, "standard error", &ran.err)?;
    Ok(found.is_some())
}
