ghost use Rattle.std.specs.Prelude.{◌≡◌, ◌==◌, ◌+◌, ◌<◌, [], ◌∷◌, ◌++◌, length, All, IfOk, IfErr, IfSome, IfNone, ◌⊎◌, Ok, Err, false};
ghost use Rattle.level_text.specs.declared.script_file.ScriptFault.TheVariants.{OutOfMemory};
ghost use Rattle.level_text.specs.Scripts.{lines_of, frame_of, switch_of, letter_of, change_of, script_of};

use game_rules::Change;
use game_session::Script;
use grid_world::Signal;
use std::alloc::{AllocError, Global};

/// Why a script file is refused. Lines count from 1.
#[derive(Clone, Copy, Debug, PartialEq, Eq, Drop)]
pub enum ScriptFault {
    OutOfMemory,
    /// The line isn't of the form `FRAME on LETTER` or `FRAME off LETTER`.
    Line { n: u64 },
    /// The frame of the line is lower than that of the line before.
    Order { n: u64 },
}

impl From<AllocError> for ScriptFault {
    ghost from_gives = { λ _ fault. fault ≡ OutOfMemory };

    fn from(_: AllocError) -> Self {
        ScriptFault::OutOfMemory
    }
}

// Bytes parted at the first mark.
fn split_once(bytes: &[u8], mark: u8) -> Option<(&[u8], &[u8])>
    ensures none { IfNone result (All (λ b. (b == mark) ≡ false) bytes.now) }
    ensures parts { IfSome result (λ p. bytes.now ≡ p.0.now ++ mark ∷ p.1.now) }
    ensures first { IfSome result (λ p. All (λ b. (b == mark) ≡ false) p.0.now) }
{
    let i = bytes.iter().position(|b| *b == mark)?;
    Some((&bytes[..i], &bytes[i + 1..]))
}

fn frame_of(word: &[u8]) -> Option<u32>
    ensures { result ≡ frame_of word.now }
{
    if let [b'0', ..] = word {
        return None;
    }
    let mut frame = 0;
    for b in word {
        if !b.is_ascii_digit() {
            return None;
        }
        frame = 10 * frame + (*b - b'0') as u32;
        if frame > 9999 {
            return None;
        }
    }
    if frame == 0 { None } else { Some(frame) }
}

fn switch_of(word: &[u8]) -> Option<bool>
    ensures { result ≡ switch_of word.now }
{
    match word {
        b"on" => Some(true),
        b"off" => Some(false),
        _ => None,
    }
}

fn letter_of(word: &[u8]) -> Option<Signal>
    ensures { result ≡ letter_of word.now }
{
    match word {
        [] => None,
        [c] => match c {
            b'a'..=b'z' => Signal::new((*c - b'a') as u32),
            _ => None,
        },
        [_, _, ..] => None,
    }
}

// The change that a line without its line feed spells.
fn change_of(line: &[u8]) -> Option<Change>
    ensures { result ≡ change_of line.now }
{
    let (frame, rest) = split_once(line, b' ')?;
    let (switch, letter) = split_once(rest, b' ')?;
    Some(Change {
        frame: frame_of(frame)?,
        on: switch_of(switch)?,
        signal: letter_of(letter)?,
    })
}

// The first line, and the bytes behind its line feed.
fn first_line(bytes: &[u8]) -> (&[u8], &[u8])
    requires { 0 < length bytes.now }
    ensures lines { lines_of bytes.now ≡ result.0.now ∷ lines_of result.1.now }
    ensures shorter { length result.1.now < length bytes.now }
{
    match split_once(bytes, b'\n') {
        Some(parts) => parts,
        None => (bytes, &[]),
    }
}

/// Reads a script file. A line is `FRAME on LETTER` or `FRAME off LETTER` with single spaces, FRAME a decimal number
/// from 1 to 9999 without leading zeros, LETTER `a` to `z`; it ends with a line feed, which the last may lack.
/// The first faulty line decides; of the two faults of one line, `Line` comes first.
pub fn read_script(alloc: Global, bytes: &[u8]) -> Result<Script, ScriptFault>
    ensures ok { IfOk result (λ script. script_of bytes.now ≡ Ok script) }
    ensures err { IfErr result (λ e. (e ≡ ScriptFault.OutOfMemory) ⊎ (script_of bytes.now ≡ Err e)) }
{
    let mut script = Script::empty(alloc);
    let mut rest = bytes;
    let mut n = 0;
    while !rest.is_empty() {
        n += 1;
        let (line, behind) = first_line(rest);
        let Some(change) = change_of(line) else {
            return Err(ScriptFault::Line { n });
        };
        if change.frame < script.last_frame() {
            return Err(ScriptFault::Order { n });
        }
        script.push(change)?;
        rest = behind;
    }
    Ok(script)
}
