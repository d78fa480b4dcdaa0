// The state after a frame.
ghost use Rattle.std.specs.Prelude.{◌≡◌, ◌⊎◌, IfOk, IfErr, IsSomeAnd, MatchOption, OnOk, OnErr};
ghost use Rattle.std.specs.Io.KnownBytes.{Appends, Keeps};
ghost use Rattle.byte_streams.specs.Streams.{AppendsPart};
ghost use Rattle.commands.specs.Written.{WritesSome, WritesPart, path_of};
ghost use Rattle.level_text.specs.Games.{spelled_game};
ghost use Rattle.stepping.specs.StateText.{scripted_state_text};
ghost use Rattle.command_line.specs.Sessions.{IsSessionFault};

use crate::opening::{open, step_all};
use command_line::{Fault, put, read_file, read_optional_file};
use std::alloc::Global;
use std::io::Write;
use std::rt::Files;

fn state(alloc: Global, level: &[u8], script: &[u8], frame: u32) -> Result<Vec<u8>, Fault>
    ensures ok { IfOk result (λ text. IsSomeAnd (spelled_game level.now script.now) (λ g. text.items ≡ scripted_state_text g frame)) }
    ensures fault { IfErr result (λ fault. IsSessionFault level.now script.now fault ⊎ (fault ≡ Fault.OutOfMemory)) }
{
    let mut opened = open(alloc, level, script)?;
    step_all(alloc, &mut opened.game, frame)?;
    match opened.game.state_text(alloc) {
        Ok(text) => Ok(text),
        Err(_) => Err(Fault::OutOfMemory),
    }
}

#[tactic(auto, using(crate::proofs::Compared::appended, crate::proofs::Compared::appended_part, crate::proofs::Compared::untouched))]
/// Prints the state after a frame of the game that the level's and the script's bytes spell, in the form of
/// `Stepping::state_text`; frame 0 is its start. Faults come as of `digest_bytes`.
pub fn state_bytes<W: Write>(
    alloc: Global,
    level: &[u8],
    script: &[u8],
    frame: u32,
    out: &mut W,
) -> Result<(), Fault>
    ensures ok { OnOk result (IsSomeAnd (spelled_game level.now script.now)
        (λ g. Appends (W.contents out.old) (W.contents out.new) (scripted_state_text g frame))) }
    ensures part { OnErr result (MatchOption (spelled_game level.now script.now)
        (Keeps (W.contents out.old) (W.contents out.new))
        (λ g. AppendsPart (W.contents out.old) (W.contents out.new) (scripted_state_text g frame))) }
    ensures fault { IfErr result (λ fault. IsSessionFault level.now script.now fault
        ⊎ ((fault ≡ Fault.OutOfMemory) ⊎ (fault ≡ Fault.Write))) }
{
    let text = state(alloc, level, script, frame)?;
    put(out, &text)
}

/// Prints the state after a frame of the game that the words name; both files are read before either is understood.
pub(crate) fn state_files<H: Files, W: Write>(
    rt: &H,
    alloc: Global,
    level: String,
    frame: u32,
    script: Option<String>,
    out: &mut W,
) -> Result<(), Fault>
    ensures ok { OnOk result (WritesSome (W.contents out.old) (W.contents out.new) (path_of script) (λ g. scripted_state_text g frame)) }
    ensures part { OnErr result (WritesPart (W.contents out.old) (W.contents out.new) (path_of script) (λ g. scripted_state_text g frame)) }
{
    let level = read_file(rt, alloc, level)?;
    let script = read_optional_file(rt, alloc, script)?;
    state_bytes(alloc, &level, &script, frame, out)
}
