// Logs that are completed.
use crate::case::Completion;
use crate::streams::Output;
use anyhow::{Context, Result};
use game_session::Session;
use level_text::{read_level, read_script};
use replay_log::{complete, read_log, write_log};
use std::alloc::Global;
use std::fs;
use std::io::Write;
use std::rt::Files;

/// Completes a log under an empty script, prints the frames, and writes the whole log into a file. A list that can't be
/// completed is status 2, and its fault is printed by its name.
pub fn complete_files<H: Files + Alloc<A = Global>>(
    rt: &H,
    alloc: Global,
    files: &Completion,
    out: &mut Output,
    err: &mut Output,
) -> Result<u8> {
    let level = fs::read(rt, files.level.as_str())?;
    let level = read_level(alloc, &level).ok().context("no level")?;
    let script = read_script(alloc, b"").ok().context("no script")?;
    let session = Session::new(level, script);
    let log = fs::read(rt, files.log.as_str())?;
    let (settings, events) = read_log(alloc, &log).ok().context("no log")?;
    match complete(alloc, &session, settings, &events) {
        Ok((frames, events)) => {
            let text = write_log(alloc, settings, &events)?;
            fs::write(rt, files.whole.as_str(), &text)?;
            out.write_all(&frames.text)?;
            out.flush()?;
            Ok(0)
        }
        Err(fault) => {
            writeln!(err, "{fault:?}")?;
            Ok(2)
        }
    }
}
