// The digests of a game's frames.
ghost use Rattle.std.specs.Prelude.{◌≡◌, ◌≤◌, ◌<◌, ◌^◌, ◌++◌, ◌⊎◌, IfOk, IfErr, IsSomeAnd, IsSome, MatchOption, OnOk, OnErr};
ghost use Rattle.std.specs.Io.KnownBytes.{Appends, Keeps};
ghost use Rattle.byte_streams.specs.Streams.{AppendsPart};
ghost use Rattle.commands.specs.Opening.{IsSteppedTo};
ghost use Rattle.commands.specs.Texts.{digest_line, digest_lines, digests_head, digests_text};
ghost use Rattle.commands.specs.Written.{WritesSome, WritesPart, path_of};
ghost use Rattle.game_rules.specs.Game.{Game};
ghost use Rattle.level_text.specs.Games.{spelled_game};
ghost use Rattle.command_line.specs.Sessions.{IsSessionFault};

use crate::named_line::push_named_line;
use crate::opening::{open, step};
use byte_streams::{push_hex, push_number};
use command_line::{Fault, put, read_file, read_optional_file};
use std::alloc::{AllocError, Global};
use std::io::Write;
use std::rt::Files;
use stepping::Stepping;

fn push_head(text: &mut Vec<u8>, level: u64, script: u64) -> Result<(), AllocError>
    ensures { OnOk result (text.new.items ≡ text.old.items ++ digests_head level script) }
{
    push_named_line(text, b"btworld digest 1 level ", level, script)
}

fn push_line(text: &mut Vec<u8>, frame: u32, digest: u64) -> Result<(), AllocError>
    ensures { OnOk result (text.new.items ≡ text.old.items ++ digest_line frame digest) }
{
    push_number(text, b"", frame)?;
    push_hex(text, b" ", digest)?;
    text.extend_from_slice(b"\n")
}

// Appends the digest of each frame from the first on.
fn push_lines(
    alloc: Global,
    text: &mut Vec<u8>,
    game: &mut Stepping,
    frames: u32,
) -> Result<(), Fault>
    requires begun { game.old.frame ≡ 0 }
    ensures ok { OnOk result ((g : Game) → IsSteppedTo g 0 game.old → text.new.items ≡ text.old.items ++ digest_lines g frames) }
    ensures fault { IfErr result (λ fault. fault ≡ Fault.OutOfMemory) }
{
    'frames: while game.frame() < frames {
        step(alloc, game)?;
        push_line(text, game.frame(), game.digest())?;
    }
    Ok(())
}

// The digests of a game's level, its script and its first frames.
fn digests(alloc: Global, level: &[u8], script: &[u8], frames: u32) -> Result<Vec<u8>, Fault>
    ensures ok { IfOk result (λ text. IsSomeAnd (spelled_game level.now script.now) (λ g. text.items ≡ digests_text g frames)) }
    ensures fault { IfErr result (λ fault. IsSessionFault level.now script.now fault ⊎ (fault ≡ Fault.OutOfMemory)) }
{
    let mut opened = open(alloc, level, script)?;
    let mut text = Vec::new(alloc);
    push_head(&mut text, opened.level_digest, opened.script_digest)?;
    push_lines(alloc, &mut text, &mut opened.game, frames)?;
    Ok(text)
}

#[tactic(auto, using(crate::proofs::Compared::appended, crate::proofs::Compared::appended_part, crate::proofs::Compared::untouched))]
/// Prints the digests of the level and the script that the bytes spell, and then that of the state after each frame of their
/// game, as `btworld_digest` has it for a caller who hands in the script's signals. The level is read before the script; a
/// fault of either, and out of memory, come before anything is written.
pub fn digest_bytes<W: Write>(
    alloc: Global,
    level: &[u8],
    script: &[u8],
    frames: u32,
    out: &mut W,
) -> Result<(), Fault>
    ensures ok { OnOk result (IsSomeAnd (spelled_game level.now script.now)
        (λ g. Appends (W.contents out.old) (W.contents out.new) (digests_text g frames))) }
    ensures part { OnErr result (MatchOption (spelled_game level.now script.now)
        (Keeps (W.contents out.old) (W.contents out.new))
        (λ g. AppendsPart (W.contents out.old) (W.contents out.new) (digests_text g frames))) }
    ensures fault { IfErr result (λ fault. IsSessionFault level.now script.now fault
        ⊎ ((fault ≡ Fault.OutOfMemory) ⊎ (fault ≡ Fault.Write))) }
{
    let text = digests(alloc, level, script, frames)?;
    put(out, &text)
}

/// Prints the digests of the level and the script that the words name; both files are read before either is understood.
pub(crate) fn digest_files<H: Files, W: Write>(
    rt: &H,
    alloc: Global,
    level: String,
    frames: u32,
    script: Option<String>,
    out: &mut W,
) -> Result<(), Fault>
    ensures ok { OnOk result (WritesSome (W.contents out.old) (W.contents out.new) (path_of script) (λ g. digests_text g frames)) }
    ensures part { OnErr result (WritesPart (W.contents out.old) (W.contents out.new) (path_of script) (λ g. digests_text g frames)) }
{
    let level = read_file(rt, alloc, level)?;
    let script = read_optional_file(rt, alloc, script)?;
    digest_bytes(alloc, &level, &script, frames, out)
}
