// What the viewer does with its words.
ghost use Rattle.std.specs.Prelude.{◌≡◌, ◌≢◌, map, string_bytes, OnOk, OnErr};
ghost use Rattle.trace_text.specs.declared.span.FrameSpan.{FrameSpan};
ghost use Rattle.view_commands.specs.Doing.{TracesSome, TracesSomePart, IsDone, IsPartDone};
ghost use Rattle.view_commands.specs.Paging.{PagesSome, PagesSomePart};
ghost use Rattle.view_commands.specs.Program.{AreRefused, AsksForPage, AsksToTrace};

use crate::paging::page_files;
use crate::request::ViewWords;
use crate::tracing::trace_file;
use crate::view_words_reading::read_view_words;
use command_line::{Fault, end_with, refuse_words};
use std::alloc::Global;
use std::io::Write;
use std::rt::Files;

/// Does what words ask for.
fn act<H: Files, W: Write>(rt: &H, alloc: Global, view: ViewWords, out: &mut W) -> Result<(), Fault>
    ensures ok { OnOk result (IsDone (W.contents out.old) (W.contents out.new) view) }
    ensures part { OnErr result (IsPartDone (W.contents out.old) (W.contents out.new) view) }
{
    match view {
        ViewWords::Trace { log, frames } => trace_file(rt, alloc, log, frames, out),
        ViewWords::Page {
            level,
            log,
            script,
            live,
            frames,
        } => page_files(rt, alloc, level, log, script, live, frames, out),
    }
}

/// Does what the words after the viewer's name ask for, and gives the status with which the program ends: 0 done, 1 a file
/// or a write failed, 2 refused words, level, script or log, 3 out of memory. A fault is one line on `err`.
///
/// The clauses say that there is a log of which the text is the trace, and that there are a level, a script and a log of
/// which it is the page; that these are what the files hold is tested.
pub fn view_command<H: Files, W: Write, E: Write>(
    rt: &H,
    alloc: Global,
    words: &[String],
    out: &mut W,
    err: &mut E,
) -> u8
    ensures traced { (frames : FrameSpan) → AsksToTrace (map string_bytes words.now) frames → result ≡ 0
        → TracesSome (W.contents out.old) (W.contents out.new) frames }
    ensures traced_part { (frames : FrameSpan) → AsksToTrace (map string_bytes words.now) frames
        → TracesSomePart (W.contents out.old) (W.contents out.new) frames }
    ensures paged { (frames : FrameSpan) → AsksForPage (map string_bytes words.now) frames → result ≡ 0
        → PagesSome (W.contents out.old) (W.contents out.new) frames }
    ensures paged_part { (frames : FrameSpan) → AsksForPage (map string_bytes words.now) frames
        → PagesSomePart (W.contents out.old) (W.contents out.new) frames }
    ensures refused_words { AreRefused (map string_bytes words.now) → result ≢ 0 }
    ensures unwritten { AreRefused (map string_bytes words.now) → W.contents out.new ≡ W.contents out.old }
{
    match read_view_words(alloc, words) {
        Ok(view) => {
            let done = act(rt, alloc, view, out);
            end_with(done, err)
        }
        Err(fault) => refuse_words(fault, out, err),
    }
}
