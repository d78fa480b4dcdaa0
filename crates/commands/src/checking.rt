ghost use Rattle.std.specs.Prelude.{◌≡◌, OnOk, OnErr, IfOk, IfErr, IsErr, IsOkAnd};
ghost use Rattle.std.specs.Io.KnownBytes.{Appends, Keeps};
ghost use Rattle.byte_streams.specs.Streams.{AppendsPart};
ghost use Rattle.game_session.specs.Levels.{value_of};
ghost use Rattle.level_text.specs.Levels.{spelled};
ghost use Rattle.commands.specs.Doing.{ChecksSome, ChecksPart};
ghost use Rattle.commands.specs.Faults.{IsCheckFault};
ghost use Rattle.commands.specs.Texts.{check_line};

use byte_streams::push_number;
use command_line::{Fault, put, read_file};
use game_session::Level;
use level_text::read_level;
use std::alloc::{AllocError, Global};
use std::io::Write;
use std::rt::Files;

// The line that tells of a level.
fn check_line(alloc: Global, level: &Level) -> Result<Vec<u8>, AllocError>
    ensures { IfOk result (λ line. line.items ≡ check_line (value_of level.now)) }
{
    let world = level.world();
    let mut line = Vec::new(alloc);
    push_number(&mut line, b"ok ", world.width())?;
    push_number(&mut line, b" ", world.height())?;
    push_number(&mut line, b" ", world.agents().len() as u64)?;
    push_number(&mut line, b" ", level.trees())?;
    line.extend_from_slice(b"\n")?;
    Ok(line)
}

/// Prints `ok WIDTH HEIGHT AGENTS TREES` of the level that the bytes spell. A refused level prints nothing.
pub fn check_bytes<W: Write>(alloc: Global, level: &[u8], out: &mut W) -> Result<(), Fault>
    ensures ok { OnOk result (IsOkAnd (spelled level.now) (λ l. Appends (W.contents out.old) (W.contents out.new) (check_line l))) }
    ensures part { OnErr result (IfOk (spelled level.now) (λ l. AppendsPart (W.contents out.old) (W.contents out.new) (check_line l))) }
    ensures refused { IsErr (spelled level.now) → Keeps (W.contents out.old) (W.contents out.new) }
    ensures fault { IfErr result (IsCheckFault level.now) }
{
    let level = read_level(alloc, level)?;
    let line = check_line(alloc, &level)?;
    put(out, &line)
}

/// Checks the level that the words name.
pub fn check_file<H: Files, W: Write>(
    rt: &H,
    alloc: Global,
    level: String,
    out: &mut W,
) -> Result<(), Fault>
    ensures ok { OnOk result (ChecksSome (W.contents out.old) (W.contents out.new)) }
    ensures part { OnErr result (ChecksPart (W.contents out.old) (W.contents out.new)) }
{
    let level = read_file(rt, alloc, level)?;
    check_bytes(alloc, &level, out)
}
