// Arguments of nodes, as values of their own and as JSON values.
ghost use Rattle.std.specs.Prelude.{◌≡◌, ◌∷◌, ◌<◌, ◌+◌, Some, None, IfOk, OnOk, IsTrue, MatchOption, option_map, option_and_then};
ghost use Rattle.serde_json.specs.View.{view, items_view};
ghost use Rattle.serde_json.specs.declared.value.Value.{Value};
ghost use Rattle.level_text.specs.Arguments.{only, count_in, place_in, signal_in, agent_in, mark_of, first, if_empty as spelled_if_empty, mark as mark_data};

use grid_world::{Letter, Place, Signal};
use serde_json::Value;
use std::alloc::{AllocError, Global};

/// What stands in a node itself: a number, or the place, the signal or the agent of one character.
#[derive(Clone, Copy, Debug, PartialEq, Eq)]
pub enum Argument {
    Count(u64),
    Place(Place),
    Signal(Signal),
    Agent(Letter),
}

impl Argument {
    ghost use Rattle.level_text.specs.Arguments.{argument_data, has_mark};

    pub(crate) fn to_value(self, alloc: Global) -> Result<Value, AllocError>
        ensures value { IfOk result (λ v. view v ≡ argument_data self) }
        ensures marks { OnOk result (IsTrue (has_mark self)) }
    {
        match self {
            Argument::Count(number) => Ok(Value::from(number)),
            Argument::Place(place) => mark(alloc, b'0', place.number()),
            Argument::Signal(signal) => mark(alloc, b'a', signal.number()),
            Argument::Agent(letter) => mark(alloc, b'A', letter.number()),
        }
    }
}

/// A text of the character that stands `number` behind `low`.
fn mark(alloc: Global, low: u8, number: u32) -> Result<Value, AllocError>
    requires { low + number < 128 }
    ensures { IfOk result (λ v. view v ≡ mark_data (low + number)) }
{
    let mut text = String::new(alloc);
    text.push(char::from(low + number as u8))?;
    Ok(Value::String(text))
}

/// What takes no argument.
pub(crate) fn if_empty<T: Copy>(arguments: &[Value], what: T) -> Option<T>
    ensures { result ≡ spelled_if_empty (items_view arguments.now) what }
{
    match arguments {
        [] => Some(what),
        [_, ..] => None,
    }
}

fn only_of(arguments: &[Value]) -> Option<&Value>
    ensures { option_map (λ v. view v.now) result ≡ only (items_view arguments.now) }
{
    match arguments {
        [] => None,
        [value] => Some(value),
        [_, _, ..] => None,
    }
}

/// A number, and what stands behind it.
pub(crate) fn numbered(arguments: &[Value]) -> Option<(u64, &[Value])>
    ensures { MatchOption result (option_and_then count_in (first (items_view arguments.now)) ≡ None)
        (λ p. (v : Value) × (arguments.now ≡ v ∷ p.1.now) × (count_in (view v) ≡ Some p.0)) }
{
    let (first, behind) = arguments.split_first()?;
    Some((first.as_u64()?, behind))
}

pub(crate) fn count_of(arguments: &[Value]) -> Option<u64>
    ensures { result ≡ option_and_then count_in (only (items_view arguments.now)) }
{
    only_of(arguments)?.as_u64()
}

pub(crate) fn place_of(arguments: &[Value]) -> Option<Place>
    ensures { result ≡ option_and_then place_in (only (items_view arguments.now)) }
{
    Place::new(mark_in(only_of(arguments)?.as_str()?, b'0', b'9')?)
}

pub(crate) fn signal_of(arguments: &[Value]) -> Option<Signal>
    ensures { result ≡ option_and_then signal_in (only (items_view arguments.now)) }
{
    Signal::new(mark_in(only_of(arguments)?.as_str()?, b'a', b'z')?)
}

pub(crate) fn letter_of(arguments: &[Value]) -> Option<Letter>
    ensures { result ≡ option_and_then agent_in (only (items_view arguments.now)) }
{
    Letter::new(mark_in(only_of(arguments)?.as_str()?, b'A', b'Z')?)
}

/// The number, from 0, of a text's one character between two.
pub fn mark_in(text: &str, low: u8, high: u8) -> Option<u32>
    ensures { result ≡ mark_of low high text.now }
{
    match text.as_bytes() {
        [c] => if low <= *c && *c <= high {
            Some((*c - low) as u32)
        } else {
            None
        },
        _ => None,
    }
}
