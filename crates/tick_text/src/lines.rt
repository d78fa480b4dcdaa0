// The parts of a node's line.
ghost use Rattle.std.specs.Prelude.{◌≡◌, ◌++◌, OnOk};
ghost use Rattle.bt_nodes.specs.Plain.{plain};
ghost use Rattle.level_text.specs.Begun.{own};
ghost use Rattle.tick_text.specs.Lines.{answer_mark, indent, argument_text, node_text, way_text, number_note};

use bt_nodes::{Node, Status};
use byte_streams::push_number;
use grid_world::{Answer, Dir};
use level_text::{Argument, argument_of, head_of};
use std::alloc::{AllocError, Global};
use stepping::push_status;

pub(crate) fn push_answer(text: &mut Vec<u8>, answer: Option<Status>) -> Result<(), AllocError>
    ensures { OnOk result (text.new.items ≡ text.old.items ++ answer_mark answer) }
{
    match answer {
        None => text.extend_from_slice(b"."),
        Some(status) => push_status(text, status),
    }
}

/// Appends two spaces for each level above a node.
pub fn push_indent(text: &mut Vec<u8>, depth: u64) -> Result<(), AllocError>
    ensures { OnOk result (text.new.items ≡ text.old.items ++ indent depth) }
{
    if depth == 0 {
        return Ok(());
    }
    text.extend_from_slice(b"  ")?;
    push_indent(text, depth - 1)
}

// Appends the number, or the digit or the letter, that stands in a node.
fn push_argument(text: &mut Vec<u8>, node: &Node<Global>) -> Result<(), AllocError>
    ensures { OnOk result (text.new.items ≡ text.old.items ++ argument_text (own (plain node.now))) }
{
    let Some(argument) = argument_of(node) else {
        return Ok(());
    };
    match argument {
        Argument::Count(number) => push_number(text, b" ", number),
        Argument::Place(place) => text.extend_from_slice(&[b' ', b'0' + place.number() as u8]),
        Argument::Signal(signal) => text.extend_from_slice(&[b' ', b'a' + signal.number() as u8]),
        Argument::Agent(letter) => text.extend_from_slice(&[b' ', b'A' + letter.number() as u8]),
    }
}

/// Appends a node without its children, as level files name it.
pub fn push_node(text: &mut Vec<u8>, node: &Node<Global>) -> Result<(), AllocError>
    ensures { OnOk result (text.new.items ≡ text.old.items ++ node_text (plain node.now)) }
{
    text.extend_from_slice(head_of(node).as_bytes())?;
    push_argument(text, node)
}

pub(crate) fn push_way(text: &mut Vec<u8>, way: Answer) -> Result<(), AllocError>
    ensures { OnOk result (text.new.items ≡ text.old.items ++ way_text way) }
{
    match way {
        Answer::Here => text.extend_from_slice(b": here"),
        Answer::NoWay => text.extend_from_slice(b": no way"),
        Answer::Step(dir, steps) => {
            text.extend_from_slice(match dir {
                Dir::North => b": north",
                Dir::East => b": east",
                Dir::South => b": south",
                Dir::West => b": west",
            })?;
            push_number(text, b", ", steps)
        }
    }
}

// Appends what has become of a node's number, where the tick changed it.
pub(crate) fn push_change(text: &mut Vec<u8>, before: u16, after: u16) -> Result<(), AllocError>
    ensures { OnOk result (text.new.items ≡ text.old.items ++ number_note before after) }
{
    if before == after {
        return Ok(());
    }
    push_number(text, b": ", before)?;
    push_number(text, b" to ", after)
}
