// Why an agent did what it did in a frame.
ghost use Rattle.std.specs.Prelude.{◌≡◌, ◌⊎◌, IfOk, IfErr, IsSomeAnd, MatchOption, OnOk, OnErr, string_bytes};
ghost use Rattle.std.specs.Io.KnownBytes.{Appends, Keeps};
ghost use Rattle.byte_streams.specs.Streams.{AppendsPart};
ghost use Rattle.commands.specs.Why.{why_text, agent_of_letter, HasAgent, IsUntold};
ghost use Rattle.commands.specs.Written.{WritesSome, WritesPart, path_of};
ghost use Rattle.level_text.specs.Games.{spelled_game};

use crate::opening::{open, step_all};
use command_line::{Fault, put, read_file, read_optional_file};
use level_text::mark_in;
use std::alloc::Global;
use std::io::Write;
use std::rt::Files;
use tick_text::next_tick_text;

fn why(
    alloc: Global,
    level: &[u8],
    script: &[u8],
    frame: u32,
    letter: &str,
) -> Result<Vec<u8>, Fault>
    ensures ok { IfOk result (λ text. IsSomeAnd (spelled_game level.now script.now) (λ g. text.items ≡ why_text g frame (agent_of_letter letter.now))) }
    ensures agent { OnOk result (IsSomeAnd (spelled_game level.now script.now) (HasAgent (agent_of_letter letter.now))) }
    ensures fault { IfErr result (IsUntold level.now script.now letter.now) }
{
    let mut opened = open(alloc, level, script)?;
    let agent = mark_in(letter, b'A', b'Z').unwrap_or(26);
    if agent as usize >= opened.game.world().agents().len() {
        return Err(Fault::NoSuchAgent);
    }
    if frame == 0 {
        return Ok(Vec::new(alloc));
    }
    step_all(alloc, &mut opened.game, frame - 1)?;
    let signals = opened.game.scripted_signals();
    Ok(next_tick_text(alloc, &opened.game, signals, agent)?)
}

#[tactic(auto, using(crate::proofs::Compared::appended, crate::proofs::Compared::appended_part, crate::proofs::Compared::untouched))]
/// Prints why the agent of a letter did what it did in a frame of the game that the level's and the script's bytes spell: the
/// frame's number, the agent's line of the frame, and a line for each node of its tree. Nothing is printed of frame 0, in which
/// no agent ticks. Faults come as of `digest_bytes`, and `NoSuchAgent` behind those of level and script. It takes as long as to
/// step so many frames, and a search for each `Move` that was ticked.
pub fn why_bytes<W: Write>(
    alloc: Global,
    level: &[u8],
    script: &[u8],
    frame: u32,
    letter: &str,
    out: &mut W,
) -> Result<(), Fault>
    ensures ok { OnOk result (IsSomeAnd (spelled_game level.now script.now)
        (λ g. Appends (W.contents out.old) (W.contents out.new) (why_text g frame (agent_of_letter letter.now)))) }
    ensures agent { OnOk result (IsSomeAnd (spelled_game level.now script.now) (HasAgent (agent_of_letter letter.now))) }
    ensures part { OnErr result (MatchOption (spelled_game level.now script.now)
        (Keeps (W.contents out.old) (W.contents out.new))
        (λ g. AppendsPart (W.contents out.old) (W.contents out.new) (why_text g frame (agent_of_letter letter.now)))) }
    ensures fault { IfErr result (λ fault. IsUntold level.now script.now letter.now fault ⊎ (fault ≡ Fault.Write)) }
{
    let text = why(alloc, level, script, frame, letter)?;
    put(out, &text)
}

/// Prints why an agent did what it did, by the words; both files are read before either is understood.
pub(crate) fn why_files<H: Files, W: Write>(
    rt: &H,
    alloc: Global,
    level: String,
    frame: u32,
    agent: String,
    script: Option<String>,
    out: &mut W,
) -> Result<(), Fault>
    ensures ok { OnOk result (WritesSome (W.contents out.old) (W.contents out.new) (path_of script) (λ g. why_text g frame (agent_of_letter (string_bytes agent)))) }
    ensures part { OnErr result (WritesPart (W.contents out.old) (W.contents out.new) (path_of script) (λ g. why_text g frame (agent_of_letter (string_bytes agent)))) }
{
    let level = read_file(rt, alloc, level)?;
    let script = read_optional_file(rt, alloc, script)?;
    why_bytes(alloc, &level, &script, frame, agent.as_str(), out)
}
