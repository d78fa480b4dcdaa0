// Logs that are written for a viewer of traces.
ghost use Rattle.jobs_text.specs.Readings.{BeginsWithNoHead};
ghost use Rattle.log_text.specs.declared.log_fault.LogFault.TheVariants.{OutOfMemory};
ghost use Rattle.std.specs.Prelude.{◌≡◌, ◌⊎◌, IfErr, IfOk, OnOk, OnErr};
ghost use Rattle.view_commands.specs.Doing.{IsLogOn, IsFaultOfBoth, Traces, TracesPart, IsTraceFault, TracesSome, TracesSomePart};

use command_line::{Fault, put, read_file};
use job_core::names::Event;
use jobs_text::read_jobs_log;
use log_text::{LogFault, read_log};
use std::alloc::Global;
use std::io::Write;
use std::rt::Files;
use trace_text::{Board, FrameSpan, trace};

/// Reads the log of a play.
fn read_play(alloc: Global, log: &[u8]) -> Result<(Board, Vec<Event>), LogFault>
    ensures ok { IfOk result (λ read. IsLogOn log.now read.0 read.1.items) }
    ensures fault { BeginsWithNoHead log.now → IfErr result (λ fault. (fault ≡ OutOfMemory) ⊎ IsFaultOfBoth log.now fault) }
{
    match read_log(alloc, log) {
        Ok((settings, events)) => {
            let workers = settings.workers();
            Ok((Board::Play { workers }, events))
        }
        Err(fault) => Err(fault),
    }
}

/// Reads the log of a play, or of jobs alone: the first line says which.
fn read_either(alloc: Global, log: &[u8]) -> Result<(Board, Vec<Event>), LogFault>
    ensures ok { IfOk result (λ read. IsLogOn log.now read.0 read.1.items) }
    ensures fault { IfErr result (λ fault. (fault ≡ OutOfMemory) ⊎ IsFaultOfBoth log.now fault) }
{
    match read_jobs_log(alloc, log) {
        Ok((head, events)) => {
            let board = Board::Jobs {
                workers: head.workers,
                agents: head.agents,
            };
            Ok((board, events))
        }
        Err(LogFault::Head) => read_play(alloc, log),
        Err(LogFault::Line { n }) => Err(LogFault::Line { n }),
        Err(LogFault::OutOfMemory) => Err(LogFault::OutOfMemory),
    }
}

/// Writes the events of a log's bytes in Chrome's trace format, as far as they are of these frames, and flushes once.
///
/// A fault of the bytes is answered before anything is written. After any other fault the writer has got a first part of
/// the text. Whether the events are legal isn't asked.
pub fn trace_bytes<W: Write>(
    alloc: Global,
    log: &[u8],
    frames: FrameSpan,
    out: &mut W,
) -> Result<(), Fault>
    ensures ok { OnOk result (Traces (W.contents out.old) (W.contents out.new) frames log.now) }
    ensures part { OnErr result (TracesPart (W.contents out.old) (W.contents out.new) frames log.now) }
    ensures fault { IfErr result (IsTraceFault log.now) }
{
    let (board, events) = match read_either(alloc, log) {
        Ok(log) => log,
        Err(fault) => return Err(Fault::from(fault)),
    };
    let text = match trace(alloc, board, &events, frames) {
        Ok(text) => text,
        Err(_) => return Err(Fault::OutOfMemory),
    };
    put(out, &text)
}

/// Writes the trace of the log that the words name.
pub fn trace_file<H: Files, W: Write>(
    rt: &H,
    alloc: Global,
    log: String,
    frames: FrameSpan,
    out: &mut W,
) -> Result<(), Fault>
    ensures ok { OnOk result (TracesSome (W.contents out.old) (W.contents out.new) frames) }
    ensures part { OnErr result (TracesSomePart (W.contents out.old) (W.contents out.new) frames) }
{
    let log = read_file(rt, alloc, log)?;
    trace_bytes(alloc, &log, frames, out)
}
