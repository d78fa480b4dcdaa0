// The first node of a tree, in preorder, of which something is wrong.
use crate::forms::{Arguments, kind_of};
use crate::limits::{children_flaw, count_flaw, depth_flaw, threshold_flaw};
use crate::names::{agents_text, names_other, places_text};
use crate::pointer::Pointer;
use crate::shape::form_flaw;
use serde_json::Value;
use std::alloc::{AllocError, Global};

/// What may be wrong of a node.
#[derive(Clone, Copy)]
pub(crate) enum Flaw<'s> {
    /// It is of no form.
    Form,
    /// It lies deeper than a tree may be.
    Depth,
    /// It has no child, where its kind lists children.
    Children,
    /// Its threshold.
    Threshold,
    /// Its number of ticks or its distance.
    Count,
    /// It names another place than these, which are on the map.
    Place(&'s [char]),
    /// It names another agent than these.
    Agent(&'s [char]),
}

/// What is wrong of a node that lies so deep, in words.
fn flaw_of(
    alloc: Global,
    node: &Value,
    depth: usize,
    flaw: Flaw<'_>,
) -> Result<Option<String>, AllocError> {
    match flaw {
        Flaw::Form => form_flaw(alloc, node),
        Flaw::Depth => depth_flaw(alloc, depth),
        Flaw::Children => children_flaw(alloc, node),
        Flaw::Threshold => threshold_flaw(alloc, node),
        Flaw::Count => count_flaw(alloc, node),
        Flaw::Place(places) if names_other(node, Arguments::Digit, places) => {
            Ok(Some(places_text(alloc, places)?))
        }
        Flaw::Agent(agents) if names_other(node, Arguments::Capital, agents) => {
            Ok(Some(agents_text(alloc, agents)?))
        }
        Flaw::Place(_) | Flaw::Agent(_) => Ok(None),
    }
}

/// Where the nodes below a node begin in its list; behind all where it has none.
pub(crate) fn first_child(node: &Value) -> usize {
    match kind_of(node) {
        Some((form, _)) => form.arguments.before_nodes().unwrap_or(usize::MAX),
        None => usize::MAX,
    }
}

/// The root of a tree, to which the pointer is led.
pub(crate) fn root_of<'v>(
    level: &'v Value,
    name: &str,
    at: &mut Pointer,
) -> Result<Option<&'v Value>, AllocError> {
    let Some(root) = level.get("trees").and_then(|trees| trees.get(name)) else {
        return Ok(None);
    };
    at.member("trees")?;
    at.member(name)?;
    Ok(Some(root))
}

/// What is wrong of the first node, from the one at `at` on, of which this is wrong. The pointer then leads to that node; else it
/// is as before.
pub(crate) fn first_flaw(
    alloc: Global,
    node: &Value,
    depth: usize,
    flaw: Flaw<'_>,
    at: &mut Pointer,
) -> Result<Option<String>, AllocError> {
    if let Some(words) = flaw_of(alloc, node, depth, flaw)? {
        return Ok(Some(words));
    }
    let Value::Array(items) = node else {
        return Ok(None);
    };
    let first = first_child(node);
    for (i, item) in items.iter().enumerate() {
        if i >= first {
            at.item(i)?;
            if let Some(words) = first_flaw(alloc, item, depth.saturating_add(1), flaw, at)? {
                return Ok(Some(words));
            }
            at.leave();
        }
    }
    Ok(None)
}
