// Nodes as JSON values.
ghost use Rattle.std.specs.Prelude.{◌≡◌, ◌<◌, None, IfOk, IfNone, IfSome, option_map};
ghost use Rattle.serde_json.specs.View.{view, items_view};
ghost use Rattle.serde_json.specs.declared.value.Value.{size-Value};
ghost use Rattle.bt_nodes.specs.Plain.{plain};
ghost use Rattle.level_text.specs.Nodes.{node_of as spelled_node, childless_of as spelled_childless, forest_in, child_in};
ghost use Rattle.level_text.specs.Inner.{form_in, deepest, over_forest, over_child};

use crate::argument::{count_of, place_of};
use crate::inner::{Decorator, Inner, Lister, inner_of};
use crate::leaves::leaf_of;
use bt_nodes::Node;
use serde_json::Value;
use std::alloc::{AllocError, Global};

/// The head of a form, which is an array that begins with a text, and the values behind it.
fn form_of(value: &Value) -> Option<(&str, &[Value])>
    ensures none { IfNone result (spelled_node (view value.now) ≡ None) }
    ensures some { IfSome result (λ form. spelled_node (view value.now) ≡ form_in form.0.now (items_view form.1.now)) }
    ensures inside { IfSome result (λ form. deepest form.1.now < size-Value value.now) }
{
    let Value::Array(items) = value else {
        return None;
    };
    let (first, arguments) = items.split_first()?;
    Some((first.as_str()?, arguments))
}

/// The node that a value spells, or none where it spells none.
#[cycle(nodes)]
pub(crate) fn node_of(alloc: Global, value: &Value) -> Result<Option<Node<Global>>, AllocError>
    ensures { IfOk result (λ found. option_map plain found ≡ spelled_node (view value.now)) }
{
    let Some((head, arguments)) = form_of(value) else {
        return Ok(None);
    };
    match inner_of(head, arguments) {
        Some(Inner::Lists(lister, values)) => list_of(alloc, lister, values),
        Some(Inner::Decorates(decorator, values)) => decorator_of(alloc, decorator, values),
        None => Ok(childless_of(head, arguments)),
    }
}

/// The node of a head that takes no node, or none where the arguments don't fit it.
fn childless_of(head: &str, arguments: &[Value]) -> Option<Node<Global>>
    ensures { option_map plain result ≡ spelled_childless head.now (items_view arguments.now) }
{
    match head {
        "wait" => Some(Node::Wait(count_of(arguments)?)),
        "move" => Some(Node::Move(place_of(arguments)?)),
        _ => Some(leaf_of(head, arguments)?.into_node()),
    }
}

/// The node that lists the nodes that values spell.
#[cycle(nodes)]
fn list_of(
    alloc: Global,
    lister: Lister,
    values: &[Value],
) -> Result<Option<Node<Global>>, AllocError>
    ensures { IfOk result (λ found. option_map plain found ≡ option_map (over_forest lister) (forest_in (items_view values.now))) }
{
    let mut nodes = Vec::new(alloc);
    'values: for value in values {
        match node_of(alloc, value)? {
            Some(node) => nodes.push(node)?,
            None => return Ok(None),
        }
    }
    Ok(Some(lister.over(nodes)))
}

/// The node that decorates the node that the only value spells.
#[cycle(nodes)]
fn decorator_of(
    alloc: Global,
    decorator: Decorator,
    values: &[Value],
) -> Result<Option<Node<Global>>, AllocError>
    ensures { IfOk result (λ found. option_map plain found ≡ option_map (over_child decorator) (child_in (items_view values.now))) }
{
    match values {
        [] => Ok(None),
        [value] => match node_of(alloc, value)? {
            Some(node) => Ok(Some(decorator.over(Box::new(alloc, node)?))),
            None => Ok(None),
        },
        [_, _, ..] => Ok(None),
    }
}
