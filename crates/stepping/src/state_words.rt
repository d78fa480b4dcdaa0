// Words, numbers and the head at the front of a state's text. What stands there is read as the definitions say; whether it is
// what a state's text has there is not seen here: the whole is compared in the end.
ghost use Rattle.std.specs.Prelude.{◌≡◌, ◌<◌, ◌^◌};
ghost use Rattle.std.specs.Char.{is_ascii_hexdigit};
ghost use Rattle.std.specs.List.{list_all};
ghost use Rattle.grid_world.specs.Ground.{no_signals};
ghost use Rattle.stepping.specs.StateReading.{Gives, behind_at, number_from, point_at, names_level, level_at, signals_from, head_at};

use crate::load_fault::LoadFault;
use byte_streams::push_hex;
use grid_world::{Signal, Signals};
use std::alloc::Global;

// The first line, and the lines of the signals.
#[derive(Drop)]
pub(crate) struct Head {
    pub(crate) frame: u32,
    pub(crate) shown: Signals,
    pub(crate) next: Signals,
}

// The text behind a word that it begins with.
#[tactic(auto, unfolding(crate::specs::StateReading::behind_at))]
pub(crate) fn behind<'a>(text: &'a [u8], word: &[u8]) -> Result<&'a [u8], LoadFault>
    ensures { Gives (λ rest. rest.now) result (behind_at word.now text.now) }
{
    match text.strip_prefix(word) {
        Some(rest) => Ok(rest),
        None => Err(LoadFault::Text),
    }
}

// A number below 2^32, and the text behind it.
#[tactic(auto, unfolding(crate::specs::StateReading::number_from))]
pub(crate) fn number(text: &[u8]) -> Result<(u32, &[u8]), LoadFault>
    ensures { Gives (λ read. (read.0, read.1.now)) result (number_from 0 text.now) }
{
    let mut value = 0u32;
    let mut rest = text;
    'digits: while let [digit, more @ ..] = rest {
        if !digit.is_ascii_digit() {
            return Ok((value, rest));
        }
        let Some(tens) = value.checked_mul(10) else {
            return Err(LoadFault::Text);
        };
        let Some(sum) = tens.checked_add(u32::from(*digit - b'0')) else {
            return Err(LoadFault::Text);
        };
        value = sum;
        rest = more;
    }
    Ok((value, rest))
}

#[tactic(auto, unfolding(crate::specs::StateReading::point_at))]
pub(crate) fn point(text: &[u8]) -> Result<(u32, u32, &[u8]), LoadFault>
    ensures { Gives (λ read. (read.0, read.1, read.2.now)) result (point_at text.now) }
{
    let (x, rest) = number(text)?;
    let rest = behind(rest, b",")?;
    let (y, rest) = number(rest)?;
    Ok((x, y, rest))
}

fn are_digits(bytes: &[u8]) -> bool
    ensures { result ≡ list_all is_ascii_hexdigit bytes.now }
{
    'bytes: for byte in bytes {
        if !byte.is_ascii_hexdigit() {
            return false;
        }
    }
    true
}

// Whether hexadecimal digits stand where a state's text has those of its level.
fn names_level(text: &[u8]) -> bool
    ensures { result ≡ names_level text.now }
{
    let Some(rest) = text.strip_prefix(b"btworld state 1 level ") else {
        return false;
    };
    rest.len() >= 16 && are_digits(&rest[..16])
}

#[tactic(auto, unfolding(crate::specs::StateReading::level_at))]
fn behind_level<'a>(alloc: Global, text: &'a [u8], digest: u64) -> Result<&'a [u8], LoadFault>
    ensures { Gives (λ rest. rest.now) result (level_at digest text.now) }
{
    let mut head = Vec::new(alloc);
    push_hex(&mut head, b"btworld state 1 level ", digest)?;
    match text.strip_prefix(&head[..]) {
        Some(rest) => Ok(rest),
        None => {
            if names_level(text) {
                Err(LoadFault::Level)
            } else {
                Err(LoadFault::Text)
            }
        }
    }
}

// The signals whose letters stand there, each behind a space.
#[tactic(auto, unfolding(crate::specs::StateReading::signals_from))]
fn signals(text: &[u8]) -> Result<(Signals, &[u8]), LoadFault>
    ensures { Gives (λ read. (read.0, read.1.now)) result (signals_from no_signals text.now) }
{
    let mut on = Signals::off();
    let mut rest = text;
    'letters: while let [space, letter, more @ ..] = rest {
        if *space != b' ' {
            return Ok((on, rest));
        }
        let Some(number) = letter.checked_sub(b'a') else {
            return Err(LoadFault::Text);
        };
        let Some(signal) = Signal::new(u32::from(number)) else {
            return Err(LoadFault::Text);
        };
        on.set(signal, true);
        rest = more;
    }
    Ok((on, rest))
}

#[tactic(auto, unfolding(crate::specs::StateReading::head_at))]
pub(crate) fn read_head(alloc: Global, text: &[u8], digest: u64) -> Result<(Head, &[u8]), LoadFault>
    ensures { Gives (λ read. (record { frame = read.0.frame; shown = read.0.shown; next = read.0.next }, read.1.now)) result (head_at digest text.now) }
{
    let rest = behind_level(alloc, text, digest)?;
    let (frame, rest) = number(behind(rest, b" frame ")?)?;
    let (shown, rest) = match signals(behind(rest, b"\nshown")?) {
        Ok(read) => read,
        Err(fault) => return Err(fault),
    };
    let (next, rest) = match signals(behind(rest, b"\nnext")?) {
        Ok(read) => read,
        Err(fault) => return Err(fault),
    };
    let rest = behind(rest, b"\n")?;
    Ok((Head { frame, shown, next }, rest))
}
