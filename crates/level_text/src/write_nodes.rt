// JSON values of nodes.
ghost use Rattle.std.specs.Prelude.{◌≡◌, IfOk, OnOk, IsTrue, false, option_map};
ghost use Rattle.serde_json.specs.Data.{array};
ghost use Rattle.serde_json.specs.View.{view, items_view};
ghost use Rattle.bt_nodes.specs.Plain.{plain, plains};
ghost use Rattle.bt_nodes.specs.Heads.{is_leaf};
ghost use Rattle.level_text.specs.Marks.{has_marks, all_have_marks};
ghost use Rattle.level_text.specs.Begun.{head, argument, own, below, has_own_mark, items_before};
ghost use Rattle.level_text.specs.Written.{node_data, forest_data};

use crate::argument::Argument;
use crate::leaves::{argument_of_leaf, head_of_leaf};
use bt_nodes::Node;
use serde_json::Value;
use std::alloc::{AllocError, Global};

/// The JSON value of a node.
#[cycle(write_nodes)]
pub(crate) fn value_of(alloc: Global, node: &Node<Global>) -> Result<Value, AllocError>
    ensures value { IfOk result (λ v. view v ≡ node_data (plain node.now)) }
    ensures marks { OnOk result (IsTrue (has_marks (plain node.now))) }
{
    let mut values = begun(alloc, node)?;
    match node.decorated() {
        Some(child) => values.push(value_of(alloc, child)?)?,
        None => push_all(alloc, node.listed(), &mut values)?,
    }
    Ok(Value::Array(values))
}

#[cycle(write_nodes)]
fn push_all(
    alloc: Global,
    nodes: &[Node<Global>],
    values: &mut Vec<Value>,
) -> Result<(), AllocError>
    ensures value { OnOk result (items_view values.new.items ≡ items_before values.old.items (forest_data (plains nodes.now))) }
    ensures marks { OnOk result (IsTrue (all_have_marks (plains nodes.now))) }
{
    'nodes: for node in nodes {
        values.push(value_of(alloc, node)?)?;
    }
    Ok(())
}

/// What the node's array begins with: the head and the node's own argument.
fn begun(alloc: Global, node: &Node<Global>) -> Result<Vec<Value>, AllocError>
    ensures value { IfOk result (λ vs. array (items_before vs.items (below (plain node.now))) ≡ node_data (plain node.now)) }
    ensures marks { OnOk result (IsTrue (has_own_mark (plain node.now))) }
{
    // A leaf and most other kinds have one argument at most beside those that they list.
    let mut values = Vec::with_capacity(alloc, node.listed().len().saturating_add(2))?;
    values.push(Value::try_from_str(alloc, head_of(node))?)?;
    match own_of(alloc, node)? {
        Some(value) => values.push(value)?,
        None => {}
    }
    Ok(values)
}

/// The word that names a node's kind.
pub fn head_of(node: &Node<Global>) -> &'static str
    ensures { result.now ≡ head (plain node.now) }
{
    match node.leaf() {
        Some(leaf) => head_of_leaf(leaf),
        None => head_of_other(node),
    }
}

// The word that names the kind of a node that is no leaf.
fn head_of_other(node: &Node<Global>) -> &'static str
    requires { is_leaf (plain node.now) ≡ false }
    ensures { result.now ≡ head (plain node.now) }
{
    match node {
        Node::Seq(_) => "seq",
        Node::Fallback(_) => "fallback",
        Node::Par(_, _) => "par",
        Node::SeqStar(_) => "seq*",
        Node::FallbackStar(_) => "fallback*",
        Node::Not(_) => "not",
        Node::Tries(_, _) => "tries",
        Node::Ticks(_, _) => "ticks",
        Node::Wait(_) => "wait",
        Node::Move(_) => "move",
        _ => unreachable!(),
    }
}

/// The argument that stands in the node itself.
pub fn argument_of(node: &Node<Global>) -> Option<Argument>
    ensures { result ≡ argument (plain node.now) }
{
    match node {
        Node::Par(n, _) | Node::Tries(n, _) | Node::Ticks(n, _) | Node::Wait(n) => {
            Some(Argument::Count(*n))
        }
        Node::Move(place) => Some(Argument::Place(*place)),
        Node::Seq(_)
        | Node::Fallback(_)
        | Node::SeqStar(_)
        | Node::FallbackStar(_)
        | Node::Not(_) => None,
        _ => argument_of_leaf(node.leaf()?),
    }
}

fn own_of(alloc: Global, node: &Node<Global>) -> Result<Option<Value>, AllocError>
    ensures value { IfOk result (λ o. option_map view o ≡ own (plain node.now)) }
    ensures marks { OnOk result (IsTrue (has_own_mark (plain node.now))) }
{
    match argument_of(node) {
        Some(argument) => Ok(Some(argument.to_value(alloc)?)),
        None => Ok(None),
    }
}
